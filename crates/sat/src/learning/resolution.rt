// Clauses made by resolution: each holds wherever the rows do, whatever the notes say.
ghost use Rattle.std.specs.Prelude.{ℕ};
ghost use Rattle.sat.specs.Learning.{ClauseHolds, Follows};

use super::super::clauses::Clause;
use super::notes::{REASONS, number};
use super::table::Table;
use atoms::AtomSet;

// A clause, and the atoms that it and those that it was made of have.
#[derive(Clone, Copy)]
pub struct Resolvent {
    pub clause: Clause,
    pub met: AtomSet,
}

// The resolvent of two clauses on an atom: it is taken from the right side of one and from the left side of the other.
fn resolved(k: Clause, by: Clause, atom: u8) -> Clause
    ensures { (m : ℕ) → ClauseHolds k m → ClauseHolds by m → ClauseHolds result m }
{
    let x = AtomSet::single(atom);
    if k.right.meets(x) {
        Clause {
            left: by.left.without(x).join(k.left),
            right: by.right.join(k.right.without(x)),
        }
    } else {
        Clause {
            left: k.left.without(x).join(by.left),
            right: k.right.join(by.right.without(x)),
        }
    }
}

// Whether a set has one atom.
pub fn is_single(s: AtomSet) -> bool {
    !s.is_empty() && s.without_lowest().is_empty()
}

// k resolved with a row on an atom of it, where there is such a row.
pub fn resolved_by(t: &Table, k: Resolvent, c: usize, atom: u8) -> Resolvent
    ensures { Follows t.now k.clause → Follows t.now result.clause }
{
    if t.total <= c {
        return k;
    }
    if !k.clause.atoms().has(atom) {
        return k;
    }
    let by = t.row(c);
    Resolvent {
        clause: resolved(k.clause, by, atom),
        met: k.met.join(by.atoms()),
    }
}

// k without an atom, where the row that forced it has no atoms but k's.
fn without_redundant(t: &Table, k: Resolvent, c: usize, x: AtomSet) -> Resolvent
    ensures { Follows t.now k.clause → Follows t.now result.clause }
{
    let others = t.row(c).atoms().without(x);
    if !others.within(k.clause.atoms()) {
        return k;
    }
    resolved_by(t, k, c, x.highest_number())
}

// k without those atoms that the rows which forced them make redundant.
pub fn shorter(t: &Table, notes: &[u16], k: Resolvent) -> Resolvent
    ensures { Follows t.now k.clause → Follows t.now result.clause }
{
    let mut c = k;
    let mut rest = k.clause.atoms();
    while !rest.is_empty() {
        let x = rest.highest();
        let reason = number(notes, REASONS + usize::from(x.highest_number()));
        c = without_redundant(t, c, usize::from(reason), x);
        rest = rest.without(x);
    }
    c
}
