// The clauses that a question knows, and the rows learned from them.
ghost use Rattle.std.specs.Prelude.{◌≡◌, ℕ, ◌≤◌, ◌<◌, min};
ghost use Rattle.atoms.specs.Sets.{limit, minus};
ghost use Rattle.atoms.specs.Words.{num, single_or_empty, RowSet};
ghost use Rattle.ipl.specs.Question.{ask};
ghost use Rattle.ipl.specs.Search.{is_none, drop_one, drop_from};
ghost use Rattle.sat.specs.Answer.{answer_of};
ghost use Rattle.sat.specs.Table.{clauses};
ghost use Rattle.prover.specs.Working.{Usable, proves, Follows, StepsFit, StepsWritten, StepsKnown, KnownWritten};

use super::{Flats, Implication, Implications, Steps};
use atoms::AtomSet;

// Rows learned that are kept through the questions of one search.
const KEPT: usize = 64;

// The rows kept, the left and the right side of each in turn.
#[derive(Drop)]
pub struct Kept {
    pub table: [u64; 2 * KEPT * atoms::WORDS],
    pub rows: usize,
}

impl Kept {
    pub fn none() -> Kept
        ensures { result.rows ≡ 0 }
    {
        Kept {
            table: [0; 2 * KEPT * atoms::WORDS],
            rows: 0,
        }
    }
}

// All clauses known, in two columns: the flat clauses, and those of the steps after them.
#[derive(Drop)]
pub struct Known {
    pub left: [u64; ipl::KNOWN * atoms::WORDS],
    pub right: [u64; ipl::KNOWN * atoms::WORDS],
}

impl Known {
    // Do the first `count` clauses and the atoms given prove the atom asked?
    pub fn ask(
        &self,
        count: usize,
        n: u8,
        given: AtomSet,
        asked: u8,
        kept: &mut Kept,
    ) -> Option<AtomSet>
        requires { Follows self.now count kept.old }
        ensures { (answer_of result ≡ ask (min n limit) (clauses self.now.left self.now.right count) (num given) asked)
            × Follows self.now count kept.new }
    {
        let a = sat::ask_keeping(
            &self.left,
            &self.right,
            count,
            n,
            given,
            asked,
            &mut kept.table,
            kept.rows,
        );
        kept.rows = a.kept;
        a.answer
    }

    // The same question, answered by yes or no.
    fn proves(&self, count: usize, n: u8, given: AtomSet, asked: u8, kept: &mut Kept) -> bool
        requires { Follows self.now count kept.old }
        ensures { (result ≡ is_none (ask (min n limit) (clauses self.now.left self.now.right count) (num given) asked))
            × Follows self.now count kept.new }
    {
        let p = sat::proves(
            &self.left,
            &self.right,
            count,
            n,
            given,
            asked,
            &mut kept.table,
            kept.rows,
        );
        kept.rows = p.kept;
        p.proved
    }

    // `given` without the atom k, where the rest still proves `asked`.
    fn drop_atom(
        &self,
        count: usize,
        n: u8,
        given: AtomSet,
        asked: u8,
        k: u8,
        kept: &mut Kept,
    ) -> AtomSet
        requires { (k < n) × (n ≤ limit) × Follows self.now count kept.old }
        ensures { (num result ≡ drop_one (proves n (clauses self.now.left self.now.right count) asked) k (num given))
            × Follows self.now count kept.new }
    {
        if !given.has(k) {
            return given;
        }
        let rest = given.without(AtomSet::single(k));
        if self.proves(count, n, rest, asked, kept) {
            rest
        } else {
            given
        }
    }

    // `given` without those atoms, in rising number, that the proof of `asked` does not need.
    pub fn drop_atoms(
        &self,
        count: usize,
        n: u8,
        given: AtomSet,
        asked: u8,
        kept: &mut Kept,
    ) -> AtomSet
        requires { (n ≤ limit) × Follows self.now count kept.old }
        ensures { (num result ≡ drop_from (proves n (clauses self.now.left self.now.right count) asked) n 0 (num given))
            × Follows self.now count kept.new }
    {
        let mut rest = given;
        for k in 0..n {
            rest = self.drop_atom(count, n, rest, asked, k, kept);
        }
        rest
    }

    // Writes the clause of a step learned at implication i: the set assumed without a on the left, c on the right.
    pub fn write_learned(&mut self, at: usize, i: Implication, assumed: AtomSet)
        ensures { RowSet self.old.left at (minus (num assumed) (single_or_empty i.a)) self.new.left
            × RowSet self.old.right at (single_or_empty i.c) self.new.right }
    {
        atoms::set_row(&mut self.left, at, assumed.without(AtomSet::single(i.a)));
        atoms::set_row(&mut self.right, at, AtomSet::single(i.c));
    }

    // Writes the clauses of the held steps after the flat clauses.
    fn write_steps(&mut self, flats: usize, steps: &Steps, x: &Implications)
        requires { StepsFit self.old.left self.old.right flats steps.now x.now }
        ensures { StepsWritten self.old.left self.old.right flats steps.now x.now steps.now.count self.new.left self.new.right }
    {
        for k in 0..steps.count {
            let i = x.rows[usize::from(steps.numbers[k])];
            self.write_learned(flats + k, i, atoms::row(&steps.assumed, k));
        }
    }

    // The flat clauses, and the clauses of the held steps after them.
    pub fn of(flats: &Flats, steps: &Steps, x: &Implications) -> Known
        requires { StepsKnown flats.now steps.now x.now }
        ensures { (n : ℕ) → Usable n x.now → KnownWritten flats.now steps.now x.now result }
    {
        let mut known = Known {
            left: [0; ipl::KNOWN * atoms::WORDS],
            right: [0; ipl::KNOWN * atoms::WORDS],
        };
        atoms::copy_rows(&flats.left, &mut known.left, 0, flats.count);
        atoms::copy_rows(&flats.right, &mut known.right, 0, flats.count);
        known.write_steps(flats.count, steps, x);
        known
    }
}
