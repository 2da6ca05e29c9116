// A question from the session that it is put to, to the session that its answer leaves.
ghost use Rattle.std.specs.Prelude.{◌≡◌, ◌≤◌, ◌<◌, Ok, OnErr};
ghost use Rattle.ipl.specs.Authors.{author_table};
ghost use Rattle.ipl.specs.Search.{most_turns};
ghost use Rattle.prover.specs.Told.{Told, answered};
ghost use Rattle.prover.specs.Calls.{question_number, AskedAs};
ghost use Rattle.prover.specs.Search.{Ended, state_of};
ghost use Rattle.prover.specs.Settling.{whole, Concluded};

use super::question::{End, Search};
use super::{Held, Session, Verdict};
use refusal::Refusal;

impl Session {
    // A goal was decided, for the author: the search's steps and worlds, and the verdict held.
    fn hold(&mut self, author: u8, held: Held, search: &Search)
        requires { (author < author_table) × (search.now.questions ≤ most_turns) }
        ensures { (v : Told) → Concluded self.old author (state_of search.now) v held (record { verdict = v; session = self.new }) }
    {
        self.steps = search.steps;
        self.worlds = search.worlds;
        self.held = held;
        self.authors.count_decided(author, search.questions);
    }
}

// The answer that the end of the search gives, with its steps and worlds.
fn conclude(s: &mut Session, author: u8, goal: u8, end: End, search: &Search) -> Verdict
    requires { (author < author_table) × Ended (whole s.old goal) search.now (Ok end) }
    ensures { AskedAs s.old author goal (whole s.old goal) (answered (Ok result) s.new) }
{
    match end {
        End::Valid => {
            s.hold(author, Held::Valid(goal), search);
            Verdict::Valid(search.steps.count)
        }
        End::Refuted => {
            s.hold(author, Held::Refuted(goal), search);
            Verdict::Refuted(search.worlds.count)
        }
    }
}

// A question that is not refused, from the session's rows to its answer.
pub fn settle(s: &mut Session, author: u8, goal: u8) -> Result<Verdict, Refusal>
    requires { question_number s.old author goal ≡ 0 }
    ensures asked { AskedAs s.old author goal (whole s.old goal) (answered result s.new) }
    ensures unchanged { OnErr result (s.new ≡ s.old) }
{
    let mut search = Search::new(&s.flats, &s.steps, &s.worlds, &s.implications);
    let end = search.proceed(s.n, goal, &s.implications)?;
    Ok(conclude(s, author, goal, end, &search))
}
