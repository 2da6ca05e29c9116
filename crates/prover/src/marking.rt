// Marks to come back to: the table of marks, and the session where one is set or returned to.
ghost use Rattle.std.specs.Prelude.{◌≡◌, true, [], ◌∷◌, ◌++◌, ◌+◌, ◌<◌, ◌≤◌, MatchOption};
ghost use Rattle.ipl.specs.Marks.{mark_table, others, set_last, place_of};
ghost use Rattle.ipl.specs.Book.{set_mark, returned, taken};
ghost use Rattle.prover.specs.State.{mark_of, marks_of, book};
ghost use Rattle.prover.specs.InRange.{in_range};
ghost use Rattle.prover.specs.Calls.{mark_number, NothingHeld, VerdictKept};
ghost use Rattle.prover.specs.Work.{works_of};

use super::{Mark, Marks, Session};

impl Marks {
    // The place of a mark's row.
    pub(super) fn place_of(&self, number: u8) -> Option<usize>
        requires { self.now.count ≤ mark_table }
        ensures { MatchOption result (self.now.count ≡ place_of number (marks_of self.now)) (λ i. (i ≡ place_of number (marks_of self.now)) × (i < self.now.count)) }
    {
        for i in 0..self.count {
            if self.rows[i].number == number {
                return Some(i);
            }
        }
        None
    }

    // A mark more at the end. The caller has seen that there is room.
    fn push(&mut self, mark: Mark)
        requires { self.old.count ≤ mark_table }
        ensures { (marks_of self.new ≡ marks_of self.old ++ (mark_of mark ∷ [])) × (self.new.count ≡ self.old.count + 1) }
    {
        let at = self.count;
        self.rows[at] = mark;
        self.count = at + 1;
    }

    // The marks of other numbers stay.
    fn drop_mark(&mut self, number: u8)
        requires { self.old.count ≤ mark_table }
        ensures { (marks_of self.new ≡ others number (marks_of self.old)) × (self.new.count ≤ mark_table) }
    {
        let before = *self;
        self.count = 0;
        for i in 0..before.count {
            let mark = before.rows[i];
            if mark.number != number {
                self.push(mark);
            }
        }
    }

    // The mark goes to the end, wherever its number stood.
    fn set_last(&mut self, mark: Mark)
        requires { self.old.count ≤ mark_table }
        ensures { marks_of self.new ≡ set_last (mark_of mark) (marks_of self.old) }
    {
        self.drop_mark(mark.number);
        self.push(mark);
    }
}

impl Session {
    // The mark of this number remembers what is held now. The caller has seen that it is not refused.
    pub(super) fn mark_now(&mut self, number: u8)
        requires { mark_number self.old number ≡ 0 }
        ensures { (book self.new ≡ taken (book self.old) (set_mark number)) × VerdictKept (works_of self.old.authors) self.old self.new }
    {
        self.marks.set_last(Mark {
            number,
            flats: self.flats.count,
            implications: self.implications.count,
            steps: self.steps.count,
        });
    }

    // What the mark at a place remembers, and no verdict. The caller has seen that the session is in range and has such a mark.
    pub(super) fn cut_to(&mut self, place: usize)
        requires { (in_range self.old ≡ true) × (place < self.old.marks.count) }
        ensures { (book self.new ≡ returned (book self.old) place) × NothingHeld (works_of self.old.authors) self.new }
    {
        let mark = self.marks.rows[place];
        self.flats.count = mark.flats;
        self.implications.count = mark.implications;
        self.steps.count = mark.steps;
        self.marks.count = place + 1;
        self.drop_verdict();
    }
}
