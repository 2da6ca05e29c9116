// A question put to a longer table: the table, and behind it rows that follow from it, learned and kept.
ghost use Rattle.std.specs.Prelude.{◌≡◌, ◌≤◌, true};
ghost use Rattle.atoms.specs.Words.{num};
ghost use Rattle.sat.specs.Rows.{EachHolds};
ghost use Rattle.sat.specs.Learning.{Kept, FilledBy, ToldKeeping};
ghost use Rattle.sat.specs.Descent.{Model, Told};

use super::clauses::Clauses;
use super::known::Partial;
use super::learning::ROWS;
use super::learning::table::Table;
use super::{Asked, learning, propagation, search};
use atoms::AtomSet;

// Writes the table and behind it rows kept, as far as there is room; whether there is any for the table.
fn fill(t: Clauses, kept: &[u64], rows: usize, long: &mut Table) -> bool
    ensures { result ≡ true → FilledBy t.entry kept.now rows long.new }
{
    let count = t.count;
    let room = atoms::rows(&long.left).min(atoms::rows(&long.right));
    if room < count {
        return false;
    }
    atoms::copy_rows(t.left, &mut long.left, 0, count);
    atoms::copy_rows(t.right, &mut long.right, 0, count);
    let more = rows.min(atoms::rows(kept) / 2).min(room - count);
    for i in 0..more {
        atoms::set_row(&mut long.left, count + i, atoms::row(kept, 2 * i));
        atoms::set_row(&mut long.right, count + i, atoms::row(kept, 2 * i + 1));
    }
    long.own = count;
    long.total = count + more;
    true
}

// Whether m is a model over base.
fn is_model(t: Clauses, base: Partial, m: AtomSet) -> bool
    ensures { result ≡ true → Model (EachHolds t.entry) (num base.has) (num base.lacks) (num m) }
{
    m.bounded();
    base.has.within(m) && !base.lacks.meets(m) && propagation::each_holds(t, m)
}

// A model over base, or that there is none: the smallest one where it is wanted; else m, where it is one, is enough.
fn tell(t: Clauses, base: Partial, smallest: bool, m: AtomSet) -> Option<AtomSet>
    ensures { Told (EachHolds t.entry) base smallest result }
{
    if !smallest && is_model(t, base, m) {
        return Some(m);
    }
    search::settle(t, base)
}

// Copies the rows learned last, as many as there is room for; their number is the result.
fn keep(t: &Table, kept: &mut [u64]) -> usize
    ensures { Kept t.now.left t.now.right t.now.total kept.new result }
{
    let rows = (atoms::rows(kept) / 2).min(t.total - t.own);
    let from = t.total - rows;
    for i in 0..rows {
        let k = t.row(from + i);
        atoms::set_row(kept, 2 * i, k.left);
        atoms::set_row(kept, 2 * i + 1, k.right);
    }
    rows
}

// A model over base, or that there is none, and how many rows are then kept, by the table lent.
fn settle_in(
    t: Clauses,
    base: Partial,
    smallest: bool,
    kept: &mut [u64],
    rows: usize,
    long: &mut Table,
) -> Asked
    ensures { ToldKeeping t.entry base smallest kept.old rows kept.new result }
{
    if !fill(t, kept, rows, long) {
        let answer = search::settle(t, base);
        return Asked { answer, kept: rows };
    }
    let m = learning::learn(long, base, smallest);
    let answer = tell(long.clauses(), base, smallest, m);
    let more = keep(long, kept);
    Asked { answer, kept: more }
}

// A model over base, the smallest one where it is wanted, or that there is none; and how many rows are then kept. Called from two
// places, so that the compiler leaves its table out of the frames of other questions.
pub fn settle(t: Clauses, base: Partial, smallest: bool, kept: &mut [u64], rows: usize) -> Asked
    ensures { ToldKeeping t.entry base smallest kept.old rows kept.new result }
{
    let mut long = Table {
        left: [0; ROWS * atoms::WORDS],
        right: [0; ROWS * atoms::WORDS],
        own: 0,
        total: 0,
    };
    settle_in(t, base, smallest, kept, rows, &mut long)
}
