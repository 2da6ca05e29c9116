// The search for the smallest model: propagate, then decide the highest open atom, false first.
ghost use Rattle.sat.specs.Rows.{EachHolds};
ghost use Rattle.sat.specs.Descent.{Answers, Spent, Steps, Settles};

use super::clauses::Clauses;
use super::known::Partial;
use super::propagation;
use super::propagation::Reached;
use atoms::AtomSet;

// A number of conflicts that is never used up. It is no Option: an answer then goes back in two registers.
const NO_LIMIT: u64 = u64::MAX;

// The smallest model; that there is none, and how many conflicts may still be met; or that too many were met.
#[derive(Clone, Copy)]
pub enum Found {
    Least(AtomSet),
    Blocked(u64),
    GaveUp,
}

// The smallest model, or what is known and the highest open atom.
#[derive(Clone, Copy)]
enum Step {
    Least(AtomSet),
    Split(Partial, AtomSet),
}

// After one conflict more of those that may be met.
fn spent(conflicts: u64) -> Found
    ensures { Spent conflicts result }
{
    if conflicts == NO_LIMIT {
        return Found::Blocked(conflicts);
    }
    if conflicts == 0 {
        return Found::GaveUp;
    }
    Found::Blocked(conflicts - 1)
}

// Propagates, and answers at once or finds the atom to decide; None where there is no model.
fn descend(t: Clauses, known: Partial) -> Option<Step>
    ensures { Steps (EachHolds t.entry) known result }
{
    match propagation::propagate(t, known)? {
        Reached::Model(q) => Some(Step::Least(q.has)),
        Reached::Open(q) => {
            let open = q.atoms().complement();
            if !open.is_empty() {
                return Some(Step::Split(q, open.highest()));
            }
            if propagation::each_holds(t, q.has) {
                return Some(Step::Least(q.has));
            }
            None
        }
    }
}

// The smallest model of what is known, or that there is none; given up where more than `conflicts` conflicts are met.
// The table goes down by reference, so that no level copies it.
pub fn least(t: &Clauses, known: Partial, conflicts: u64) -> Found
    ensures { Answers (EachHolds t.now) known conflicts result }
{
    match descend(*t, known) {
        None => spent(conflicts),
        Some(Step::Least(m)) => Found::Least(m),
        Some(Step::Split(q, x)) => match least(t, q.lacking(x), conflicts) {
            Found::Least(m) => Found::Least(m),
            Found::GaveUp => Found::GaveUp,
            Found::Blocked(more) => least(t, q.having(x), more),
        },
    }
}

// The smallest model of what is known, or that there is none, however many conflicts are met.
pub fn settle(t: Clauses, known: Partial) -> Option<AtomSet>
    ensures { Settles (EachHolds t.entry) known result }
{
    match least(&t, known, NO_LIMIT) {
        Found::Least(m) => Some(m),
        Found::Blocked(_) => None,
        Found::GaveUp => None,
    }
}
