// The empty session, and one clause more in a session. An addition drops the verdict held.
ghost use Rattle.std.specs.Prelude.{◌≡◌, [], ◌∷◌, ◌++◌, ◌<◌};
ghost use Rattle.ipl.specs.Clause.{closings};
ghost use Rattle.ipl.specs.Range.{flat_table, implication_table};
ghost use Rattle.ipl.specs.Book.{add_flat, add_implication, add, taken};
ghost use Rattle.prover.specs.State.{flats_of, implication_of, implications_of, book};
ghost use Rattle.prover.specs.Calls.{flat_of, flat_number, implication_number, NothingHeld, ClosingFits};
ghost use Rattle.prover.specs.Work.{none_done, works_of};

use super::{
    Authors, Flats, Held, Implication, Implications, Mark, Marks, Session, Steps, Work, Worlds,
};
use atoms::AtomSet;

// The empty session of n atoms.
pub fn empty(n: u8) -> Session
    ensures { (book result ≡ record { n = n; flats = []; implications = []; steps = []; marks = [] }) × NothingHeld none_done result }
{
    let unused = Mark {
        number: 0,
        flats: 0,
        implications: 0,
        steps: 0,
    };
    let idle = Work {
        questions: 0,
        verdicts: 0,
    };
    Session {
        n,
        flats: Flats {
            count: 0,
            left: [0; ipl::FLATS * atoms::WORDS],
            right: [0; ipl::FLATS * atoms::WORDS],
        },
        implications: Implications {
            count: 0,
            rows: [Implication { a: 0, b: 0, c: 0 }; ipl::IMPLICATIONS],
        },
        steps: Steps {
            count: 0,
            numbers: [0; ipl::STEPS],
            assumed: [0; ipl::STEPS * atoms::WORDS],
        },
        worlds: Worlds {
            count: 0,
            sets: [0; ipl::WORLDS * atoms::WORDS],
        },
        held: Held::Nothing,
        marks: Marks {
            count: 0,
            rows: [unused; ipl::MARKS + 1],
        },
        authors: Authors {
            rows: [idle; ipl::AUTHORS],
        },
    }
}

impl Flats {
    // One row more at the end. The caller has seen that there is room.
    fn push(&mut self, left: AtomSet, right: AtomSet)
        requires { self.old.count < flat_table }
        ensures { flats_of self.new ≡ flats_of self.old ++ (flat_of left right ∷ []) }
    {
        atoms::set_row(&mut self.left, self.count, left);
        atoms::set_row(&mut self.right, self.count, right);
        self.count += 1;
    }

    // The closing clause of implication i; with b = ⊥ there is none. b and c are atoms or ⊥.
    fn push_closing(&mut self, i: Implication)
        requires { ClosingFits self.old i.b i.c }
        ensures { flats_of self.new ≡ flats_of self.old ++ closings (implication_of i) }
    {
        if i.b != ipl::BOTTOM {
            self.push(AtomSet::single(i.b), AtomSet::single(i.c));
        }
    }
}

impl Implications {
    // One row more at the end. The caller has seen that there is room.
    fn push(&mut self, i: Implication)
        requires { self.old.count < implication_table }
        ensures { implications_of self.new ≡ implications_of self.old ++ (implication_of i ∷ []) }
    {
        let at = self.count;
        self.rows[at] = i;
        self.count = at + 1;
    }
}

impl Session {
    // No verdict, since the clauses are others.
    pub(super) fn drop_verdict(&mut self)
        ensures { (book self.new ≡ book self.old) × NothingHeld (works_of self.old.authors) self.new }
    {
        self.held = Held::Nothing;
        self.worlds.count = 0;
    }

    // One flat clause more. The caller has seen that it is not refused.
    pub(super) fn push_flat(&mut self, left: AtomSet, right: AtomSet)
        requires { flat_number self.old (flat_of left right) ≡ 0 }
        ensures { (book self.new ≡ taken (book self.old) (add (add_flat (flat_of left right)))) × NothingHeld (works_of self.old.authors) self.new }
    {
        self.flats.push(left, right);
        self.drop_verdict();
    }

    // One implication more, with its closing clause. The caller has seen that it is not refused.
    pub(super) fn push_implication(&mut self, i: Implication)
        requires { implication_number self.old (implication_of i) ≡ 0 }
        ensures { (book self.new ≡ taken (book self.old) (add (add_implication (implication_of i)))) × NothingHeld (works_of self.old.authors) self.new }
    {
        self.flats.push_closing(i);
        self.implications.push(i);
        self.drop_verdict();
    }
}
