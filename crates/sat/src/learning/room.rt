// Room for further rows: of the learned rows go those longer than the average, and those that a row learned soon after is part of.
ghost use Rattle.std.specs.Prelude.{◌<◌, ◌≤◌};
ghost use Rattle.sat.specs.Learning.{Learned, Passes};

use super::super::clauses::Clause;
use super::table::Table;
use atoms::AtomSet;

// How many rows after a row are looked at.
const SOON: usize = 128;

// How many atoms a set has.
fn size(s: AtomSet) -> u64 {
    let mut n: u64 = 0;
    let mut rest = s;
    while !rest.is_empty() {
        n = n.wrapping_add(1);
        rest = rest.without_lowest();
    }
    n
}

// How many literals a clause has.
fn literals(k: Clause) -> u64 {
    size(k.left).wrapping_add(size(k.right))
}

// How many literals a learned row has on average.
fn average(t: &Table) -> u64 {
    if t.total <= t.own {
        return 0;
    }
    let mut sum: u64 = 0;
    for c in t.own..t.total {
        sum = sum.wrapping_add(literals(t.row(c)));
    }
    sum / (t.total - t.own) as u64
}

// Whether a row soon after row c is part of it.
fn includes_later(t: &Table, c: usize) -> bool {
    if t.total <= c {
        return false;
    }
    let k = t.row(c);
    let end = c + SOON.min(t.total - c);
    for d in c + 1..end {
        let later = t.row(d);
        if later.left.within(k.left) && later.right.within(k.right) {
            return true;
        }
    }
    false
}

// Moves row c down to row `to` where it is worth its room; where the next one is to go is the result.
fn pass(t: &mut Table, c: usize, most: u64, to: usize) -> usize
    requires { (to ≤ c) × (c < t.old.total) }
    ensures { Passes t.old t.new to c result }
{
    let k = t.row(c);
    if most < literals(k) || includes_later(t, c) {
        return to;
    }
    atoms::set_row(&mut t.left, to, k.left);
    atoms::set_row(&mut t.right, to, k.right);
    to + 1
}

// Moves the rows worth it down behind the clauses of the question.
pub fn shorten(t: &mut Table)
    ensures { Learned t.old t.new }
{
    let total = t.total;
    let mut to = t.own;
    if total <= atoms::rows(&t.left) && total <= atoms::rows(&t.right) {
        let most = average(t);
        for c in t.own..total {
            to = pass(t, c, most, to);
        }
    }
    t.total = to;
}
