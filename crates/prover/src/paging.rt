// A page of goals, record by record, and the models that its searches find.
ghost use Rattle.std.specs.Prelude.{[], ◌∷◌, ◌++◌, ◌≡◌, ◌+◌, ◌<◌, OnErr};
ghost use Rattle.std.proofs.Math.Option.{none};
ghost use Rattle.atoms.specs.Words.{num};
ghost use Rattle.ipl.specs.Page.{goal_table, earliest};
ghost use Rattle.ipl.specs.Authors.{author_table};
ghost use Rattle.prover.specs.Told.{changed};
ghost use Rattle.prover.specs.Page.{models_of, model_found, with_answer, PageAnswered};
ghost use Rattle.prover.specs.Paging.{RecordAnswered};

use super::{GoalAnswer, GoalRecord, Session, Verdict};
use atoms::AtomSet;
use refusal::Refusal;

// The models that searches of this page found, in order: the place of the goal, and the root.
#[derive(Drop)]
pub struct Models {
    pub count: usize,
    pub places: [usize; ipl::GOALS],
    pub roots: [u64; ipl::GOALS * atoms::WORDS],
}

impl Models {
    pub fn new() -> Models
        ensures { result.count ≡ 0 }
    {
        Models {
            count: 0,
            places: [0; ipl::GOALS],
            roots: [0; ipl::GOALS * atoms::WORDS],
        }
    }

    // The place of the earliest model whose root lacks the goal.
    fn earliest(&self, goal: u8) -> Option<usize>
        requires { self.now.count < goal_table }
        ensures { model_found result ≡ earliest goal (models_of self.now) }
    {
        for i in 0..self.count {
            if !atoms::row(&self.roots, i).has(goal) {
                return Some(self.places[i]);
            }
        }
        None
    }

    // A model more at the end. The caller has seen that there is room.
    fn push(&mut self, place: usize, root: AtomSet)
        requires { self.old.count < goal_table }
        ensures { (models_of self.new ≡ models_of self.old ++ (record { place = place; root = num root } ∷ [])) × (self.new.count ≡ self.old.count + 1) }
    {
        let at = self.count;
        self.places[at] = place;
        atoms::set_row(&mut self.roots, at, root);
        self.count = at + 1;
    }
}

impl GoalRecord {
    // An answer without worlds: none is counted, and their rows stay as they were.
    fn set(&mut self, answer: GoalAnswer)
        ensures { self.new ≡ with_answer self.old answer }
    {
        self.answer = answer;
        self.worlds.count = 0;
    }
}

// The goal is put as a question.
fn search(s: &mut Session, models: &mut Models, author: u8, place: usize, rec: &mut GoalRecord)
    requires { (models.old.count < goal_table) × (earliest rec.old.goal (models_of models.old) ≡ none) }
    ensures { RecordAnswered s.old author place models.old rec.old s.new models.new rec.new }
{
    match s.ask(author, rec.goal) {
        Ok(Verdict::Valid(steps)) => rec.set(GoalAnswer::Valid(steps)),
        Ok(Verdict::Refuted(worlds)) => {
            rec.answer = GoalAnswer::Refuted(worlds);
            rec.worlds = s.worlds;
            models.push(place, atoms::row(&s.worlds.sets, 0));
        }
        Err(e) => rec.set(GoalAnswer::Refused(e)),
    }
}

// Answers the goal of the record at a place: refuted by the earliest model that lacks it, or searched.
fn answer(s: &mut Session, models: &mut Models, author: u8, place: usize, rec: &mut GoalRecord)
    requires { (author < author_table) × (models.old.count < goal_table) }
    ensures { RecordAnswered s.old author place models.old rec.old s.new models.new rec.new }
{
    match models.earliest(rec.goal) {
        Some(earlier) => {
            s.authors.count_decided(author, 0);
            rec.set(GoalAnswer::RefutedBy(earlier));
        }
        None => search(s, models, author, place, rec),
    }
}

impl Session {
    // An author puts a page of goals, in order: a goal that the root of an earlier model of this page lacks is refuted by the earliest
    // such model, another is a question. Refused 5, 20, 19, 6: the session and the records stay as they were.
    pub fn page(&mut self, records: &mut [GoalRecord], author: u8) -> Result<(), Refusal>
        ensures paged { PageAnswered self.old author records.old records.new (changed result self.new) }
        ensures unchanged { OnErr result ((self.new ≡ self.old) × (records.new ≡ records.old)) }
    {
        self.check_page(records, author)?;
        let mut models = Models::new();
        for (i, rec) in records.iter_mut().enumerate() {
            answer(self, &mut models, author, i, rec);
        }
        Ok(())
    }
}
