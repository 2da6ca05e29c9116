// From a text to its clauses and goal, and to its verdict.
#![tactic(auto)]

ghost use Rattle.std.specs.Prelude.{◌≡◌};
ghost use Rattle.prover.specs.State.{book};
ghost use Rattle.prover.specs.Calls.{NothingHeld};
ghost use Rattle.prover.specs.Work.{none_done};
ghost use Rattle.syntax.specs.Judge.{judge};
ghost use Rattle.syntax.specs.Parts.{held};
ghost use Rattle.clausify.specs.Additions.{table_book};
ghost use Rattle.clausify.specs.Calls.{ClausifiedAs, SettledAs};
ghost use Rattle.clausify.specs.Writing.{Nameable};

use naming::Names;
use prover::{Session, Verdict};
use refusal::Refusal;
use syntax::Parts;

mod flat_clauses;
mod implication_clauses;
mod naming;

// Whether a text was read, its session and its goal; of one that was not, the empty session of one atom and the goal ⊥.
#[derive(Clone, Copy)]
pub struct Clausified {
    pub read: Result<(), Refusal>,
    pub session: Session,
    pub goal: u8,
}

// The verdict on a text, the session that it was asked of, and the goal.
#[derive(Clone, Copy)]
pub struct Settled {
    pub verdict: Result<Verdict, Refusal>,
    pub session: Session,
    pub goal: u8,
}

// The session of a formula's clauses: it has at least one atom.
fn session_of(parts: &Parts, names: &Names) -> Session
    requires { Nameable parts.now names.now }
    ensures { (book result ≡ table_book (held parts.now)) × NothingHeld none_done result }
{
    Session {
        n: names.count.max(1),
        flats: flat_clauses::flats_of(parts, names),
        implications: implication_clauses::implications_of(parts, names),
        ..Session::new()
    }
}

// Reads a text and names its parts. Refused 1, 2, 3 (with its place), 4.
pub fn clausify(text: &[u8]) -> Clausified
    ensures { ClausifiedAs (judge text.now) result }
{
    match syntax::read(text) {
        Err(refusal) => Clausified {
            read: Err(refusal),
            session: Session::new(),
            goal: ipl::BOTTOM,
        },
        Ok(reading) => {
            let names = naming::names_of(&reading.parts, reading.letters);
            Clausified {
                read: Ok(()),
                session: session_of(&reading.parts, &names),
                goal: names.atoms[usize::from(reading.root)],
            }
        }
    }
}

// Reads a text, names its parts and asks for the whole. Refused 1, 2, 3 (with its place), 4, 11, 12.
pub fn settle(text: &[u8]) -> Settled
    ensures { SettledAs (judge text.now) result }
{
    let mut problem = clausify(text);
    let verdict = match problem.read {
        Err(refusal) => Err(refusal),
        Ok(()) => problem.session.ask(ipl::PROGRAM, problem.goal),
    };
    Settled {
        verdict,
        session: problem.session,
        goal: problem.goal,
    }
}
