// Unit propagation, and truth of all clauses at a set. None is a conflict: what is known has no model.
ghost use Rattle.std.specs.Prelude.{◌≡◌, ◌≤◌};
ghost use Rattle.atoms.specs.Words.{num};
ghost use Rattle.sat.specs.Table.{Holds, all_hold};
ghost use Rattle.sat.specs.Rows.{EachHolds, PassedHolding};
ghost use Rattle.sat.specs.Knowledge.{may_tell, PassedSilent, Forces, Propagates};

use super::clauses::{Clause, Clauses};
use super::known::Partial;
use atoms::AtomSet;

// Where propagation ends: at a model, which are the atoms known to be had, or where it tells no more.
#[derive(Clone, Copy)]
pub enum Reached {
    Model(Partial),
    Open(Partial),
}

// Whether a clause may say something under p: it does not where it is true, or where two of its atoms are open.
fn may_tell(k: Clause, p: Partial) -> bool
    ensures { result ≡ may_tell (num k.left) (num k.right) p }
{
    let open = k.open(p).atoms();
    k.settled(p).join(open.without_lowest()).is_empty()
}

// The first clause from `from` on that may say something under p, or the end.
fn next_telling(t: Clauses, from: usize, p: Partial) -> usize
    ensures { PassedSilent t.entry p from result }
{
    t.first(from, |k| may_tell(k, p))
}

// What one clause adds to p.
fn unit(k: Clause, p: Partial) -> Option<Partial>
    ensures { Forces (Holds (num k.left) (num k.right)) p result }
{
    let open = k.open(p);
    let a = open.left;
    let b = open.right;
    if a.is_empty() {
        if b.is_empty() {
            return None;
        }
        let x = b.highest();
        if x == b {
            return Some(p.having(x));
        }
    } else if b.is_empty() {
        let x = a.highest();
        if x == a {
            return Some(p.lacking(x));
        }
    }
    Some(p)
}

// What the clauses, each taken once, add to p.
fn sweep(t: Clauses, p: Partial) -> Option<Partial>
    ensures { Forces (EachHolds t.entry) p result }
{
    let mut q = p;
    let mut i = next_telling(t, 0, p);
    while i < t.count {
        q = unit(t.row(i), q)?;
        i = next_telling(t, i + 1, q);
    }
    Some(q)
}

// The first clause from `from` on that fails at m, or the end.
fn next_failing(t: Clauses, from: usize, m: AtomSet) -> usize
    ensures { PassedHolding t.entry (num m) from result }
{
    t.first(from, |k| !k.holds(m))
}

// A clause that fails at m, looked for from `from` on and then before it; the end where none does.
fn failing(t: Clauses, from: usize, m: AtomSet) -> usize
    ensures { t.entry.count ≤ result → EachHolds t.entry (num m) }
{
    let late = next_failing(t, from, m);
    if late < t.count {
        return late;
    }
    let early = next_failing(Clauses { count: from, ..t }, 0, m);
    if early < from {
        return early;
    }
    t.count
}

// What the clauses that fail at the atoms had add to p, until none fails, or one that does adds nothing.
fn raise(t: Clauses, p: Partial) -> Option<Reached>
    ensures { Propagates (EachHolds t.entry) p result }
{
    let mut q = p;
    let mut i = failing(t, 0, p.has);
    while i < t.count {
        let s = unit(t.row(i), q)?;
        if s == q {
            return Some(Reached::Open(q));
        }
        q = s;
        i = failing(t, i + 1, q.has);
    }
    Some(Reached::Model(q))
}

// What the clauses add to p, as far as units go, or until they all hold.
pub fn propagate(t: Clauses, p: Partial) -> Option<Reached>
    ensures { Propagates (EachHolds t.entry) p result }
{
    let mut q = p;
    loop {
        match raise(t, q)? {
            Reached::Model(r) => return Some(Reached::Model(r)),
            Reached::Open(r) => {
                let s = sweep(t, r)?;
                if s == r {
                    return Some(Reached::Open(s));
                }
                q = s;
            }
        }
    }
}

// Whether every clause is true at m.
pub fn each_holds(t: Clauses, m: AtomSet) -> bool
    ensures { result ≡ all_hold t.entry.left.now t.entry.right.now (num m) t.entry.count }
{
    for k in 0..t.count {
        if !t.row(k).holds(m) {
            return false;
        }
    }
    true
}
