// What refusals 5 to 8 and 17 to 21 judge.
ghost use Rattle.std.specs.Prelude.{◌≡◌, true, false, None, MatchResult, IfOk, IfErr};
ghost use Rattle.refusal.specs.Numbers.{place_of};
ghost use Rattle.refusal.specs.declared.Refusal.TheVariants.{Range, NoAuthor};
ghost use Rattle.ipl.specs.Authors.{is_author};
ghost use Rattle.ipl.specs.Marks as marks;
ghost use Rattle.prover.specs.State.{implication_of, mark_of, marks_of};
ghost use Rattle.prover.specs.Told.{number_in};
ghost use Rattle.prover.specs.Work.{work_at, works_of};
ghost use Rattle.prover.specs.Calls.{flat_of, flat_number, implication_number, question_number, mean_number, mark_number, return_number};
ghost use Rattle.prover.specs.Page.{goals_of, page_number};
ghost use Rattle.prover.specs.InRange.{flats_in_range, implications_in_range, steps_in_range, worlds_in_range, held_in_range, mark_in_range, marks_in_range, in_range};

use super::{
    Flats, GoalRecord, Held, Implication, Implications, Mark, Marks, Session, Steps, Work, Worlds,
};
use atoms::AtomSet;
use refusal::Refusal;

impl Flats {
    fn in_range(&self, n: u8) -> bool
        ensures { result ≡ flats_in_range n self.now }
    {
        if ipl::FLATS < self.count {
            return false;
        }
        for i in 0..self.count {
            if !ipl::flat_in_range(n, atoms::row(&self.left, i), atoms::row(&self.right, i)) {
                return false;
            }
        }
        true
    }
}

impl Implications {
    fn in_range(&self, n: u8) -> bool
        ensures { result ≡ implications_in_range n self.now }
    {
        if ipl::IMPLICATIONS < self.count {
            return false;
        }
        for i in 0..self.count {
            let Implication { a, b, c } = self.rows[i];
            if !ipl::implication_in_range(n, a, b, c) {
                return false;
            }
        }
        true
    }
}

impl Steps {
    fn in_range(&self, implications: usize, n: u8) -> bool
        ensures { result ≡ steps_in_range n implications self.now }
    {
        if ipl::STEPS < self.count {
            return false;
        }
        for i in 0..self.count {
            if !ipl::step_in_range(
                n,
                implications,
                self.numbers[i],
                atoms::row(&self.assumed, i),
            ) {
                return false;
            }
        }
        true
    }
}

impl Worlds {
    fn in_range(&self, n: u8) -> bool
        ensures { result ≡ worlds_in_range n self.now }
    {
        if ipl::WORLDS < self.count {
            return false;
        }
        for i in 0..self.count {
            if !ipl::set_in_range(n, atoms::row(&self.sets, i)) {
                return false;
            }
        }
        true
    }
}

impl Held {
    #[tactic(auto, unfolding(crate::specs::InRange::held_in_range))]
    fn in_range(self, n: u8) -> bool
        ensures { result ≡ held_in_range n self }
    {
        match self {
            Held::Nothing => true,
            Held::Valid(goal) | Held::Refuted(goal) => ipl::atom_or_bottom(n, goal),
        }
    }
}

impl Mark {
    // What it remembers is at most so many flat clauses, implications and steps.
    #[tactic(auto, unfolding(crate::specs::InRange::mark_in_range))]
    fn in_range(self, flats: usize, implications: usize, steps: usize) -> bool
        ensures { result ≡ mark_in_range flats implications steps (mark_of self) }
    {
        usize::from(self.number) < ipl::MARKS
            && self.flats <= flats
            && self.implications <= implications
            && self.steps <= steps
    }
}

impl Marks {
    fn in_range(&self, flats: usize, implications: usize, steps: usize) -> bool
        ensures { result ≡ marks_in_range flats implications steps self.now }
    {
        if ipl::MARKS < self.count {
            return false;
        }
        for i in 0..self.count {
            if !self.rows[i].in_range(flats, implications, steps) {
                return false;
            }
        }
        true
    }
}

// There is such an author.
fn check_author(author: u8) -> Result<(), Refusal>
    ensures { MatchResult result (λ _. is_author author ≡ true) (λ e. (is_author author ≡ false) × (e ≡ NoAuthor)) }
{
    if ipl::AUTHORS <= usize::from(author) {
        return Err(Refusal::NoAuthor);
    }
    Ok(())
}

impl Session {
    // Whether a call on the session meets no refusal 5.
    #[tactic(auto, unfolding(crate::specs::InRange::in_range))]
    pub fn in_range(&self) -> bool
        ensures { result ≡ in_range self.now }
    {
        let n = self.n;
        let implications = self.implications.count;
        ipl::count_in_range(n)
            && self.flats.in_range(n)
            && self.implications.in_range(n)
            && self.steps.in_range(implications, n)
            && self.worlds.in_range(n)
            && self.held.in_range(n)
            && self
                .marks
                .in_range(self.flats.count, implications, self.steps.count)
    }

    // Refusal 5, which comes before all else.
    fn check(&self) -> Result<(), Refusal>
        ensures { MatchResult result (λ _. in_range self.now ≡ true) (λ e. (in_range self.now ≡ false) × (e ≡ Range)) }
    {
        if self.in_range() {
            Ok(())
        } else {
            Err(Refusal::Range)
        }
    }

    // A flat clause.
    pub(super) fn check_flat(&self, left: AtomSet, right: AtomSet) -> Result<(), Refusal>
        ensures { number_in result ≡ flat_number self.now (flat_of left right) }
    {
        self.check()?;
        if !ipl::flat_in_range(self.n, left, right) {
            return Err(Refusal::Atom);
        }
        if ipl::FLATS <= self.flats.count {
            return Err(Refusal::FlatsFull);
        }
        Ok(())
    }

    // An implication; unless its b is ⊥, it needs a flat row.
    pub(super) fn check_implication(&self, i: Implication) -> Result<(), Refusal>
        ensures { number_in result ≡ implication_number self.now (implication_of i) }
    {
        self.check()?;
        if !ipl::implication_in_range(self.n, i.a, i.b, i.c) {
            return Err(Refusal::Atom);
        }
        if i.b != ipl::BOTTOM && ipl::FLATS <= self.flats.count {
            return Err(Refusal::FlatsFull);
        }
        if ipl::IMPLICATIONS <= self.implications.count {
            return Err(Refusal::ImplicationsFull);
        }
        Ok(())
    }

    // A question, before the search.
    pub(super) fn check_question(&self, author: u8, goal: u8) -> Result<(), Refusal>
        ensures number { number_in result ≡ question_number self.now author goal }
        ensures no_place { IfErr result (λ e. place_of e ≡ None) }
    {
        self.check()?;
        check_author(author)?;
        if !ipl::atom_or_bottom(self.n, goal) {
            return Err(Refusal::Atom);
        }
        Ok(())
    }

    // The work that an author's mean is of.
    pub(super) fn work_for_mean(&self, author: u8) -> Result<Work, Refusal>
        ensures number { number_in result ≡ mean_number self.now author }
        ensures work { IfOk result (λ w. w ≡ work_at (works_of self.now.authors) author) }
    {
        self.check()?;
        check_author(author)?;
        let work = self.authors.work_of(author);
        if work.verdicts == 0 {
            return Err(Refusal::NoMean);
        }
        Ok(work)
    }

    // Setting a mark.
    pub(super) fn check_mark(&self, mark: u8) -> Result<(), Refusal>
        ensures { number_in result ≡ mark_number self.now mark }
    {
        self.check()?;
        if usize::from(mark) < ipl::MARKS {
            Ok(())
        } else {
            Err(Refusal::NoMark)
        }
    }

    // The place of a mark that is returned to.
    pub(super) fn place_of_mark(&self, mark: u8) -> Result<usize, Refusal>
        ensures number { number_in result ≡ return_number self.now mark }
        ensures place { IfOk result (λ i. i ≡ marks.place_of mark (marks_of self.now.marks)) }
    {
        self.check()?;
        if ipl::MARKS <= usize::from(mark) {
            return Err(Refusal::NoMark);
        }
        match self.marks.place_of(mark) {
            Some(place) => Ok(place),
            None => Err(Refusal::MarkLost),
        }
    }

    // A page of goals.
    pub(super) fn check_page(&self, records: &[GoalRecord], author: u8) -> Result<(), Refusal>
        ensures { number_in result ≡ page_number self.now author (goals_of records.now) }
    {
        self.check()?;
        check_author(author)?;
        if ipl::GOALS < records.len() {
            return Err(Refusal::PageFull);
        }
        for rec in records {
            if !ipl::atom_or_bottom(self.n, rec.goal) {
                return Err(Refusal::Atom);
            }
        }
        Ok(())
    }
}
