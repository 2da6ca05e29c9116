// The second stage of a question: rows that follow from a table by resolution are put behind it, until the search over the longer
// table ends at once. It answers nothing: that the rows follow is proved; which they are is free, and only time depends on it.
ghost use Rattle.sat.specs.Learning.{Follows, EndFollows, Explored, Learned};

use super::clauses::Clause;
use super::known::Partial;
use atoms::AtomSet;

mod activity;
mod notes;
mod resolution;
mod room;
pub mod table;
mod watching;

use notes::NOTES;
use resolution::Resolvent;
use table::Table;
use watching::Walk;

// Rows of the longer table: all clauses known, and the learned ones.
pub const ROWS: usize = ipl::KNOWN + 4096;

// How many atoms may be assigned, one within the other.
const DEEPEST: u8 = atoms::LIMIT + 1;

// How often the search may start anew.
const STARTS: u64 = 1 << 20;

// How exploring ends: with a clause that fails at what is known; with one that was learned, at its row; with a model; or for want of
// room.
#[derive(Clone, Copy)]
enum End {
    Conflict(Resolvent),
    Learned(usize),
    Model(AtomSet),
    Full,
}

// Where the learning stands: the model met last, the atom from which on all are decided in falling order, and whether it is over.
#[derive(Clone, Copy)]
struct Stage {
    model: AtomSet,
    ordered: u8,
    over: bool,
}

// Assigns the open atom of a row, or none where it fails.
fn force(notes: &mut [u16], v: Walk, k: Clause) -> Walk {
    let atom = k.open(v.known).atoms().highest_number();
    watching::assigned(notes, v, atom, !k.left.has(atom))
}

// Decides an open atom, false: the highest one where it is to be in order, else the busiest; none where all are known.
fn decide(notes: &mut [u16], v: Walk, ordered: u8) -> Walk {
    let spoken = v.known.atoms();
    let open = spoken.complement();
    let highest = open.highest_number();
    let atom = if ordered <= highest {
        highest
    } else {
        activity::busiest(notes, open)
    };
    let to = Walk {
        before: spoken,
        ..v
    };
    watching::assigned(notes, to, atom, false)
}

// The next atom is assigned: a row forces it, or it is decided.
fn next(t: &Table, notes: &mut [u16], w: Walk, ordered: u8) -> Walk {
    let v = watching::advance(t, notes, w);
    if v.row < ROWS {
        return force(notes, v, t.row(v.row));
    }
    decide(notes, v, ordered)
}

// How exploring ends where no atom could be assigned.
fn ended(t: &Table, v: Walk) -> End
    ensures { EndFollows t.now result }
{
    if v.row < t.total {
        let clause = t.row(v.row);
        return End::Conflict(Resolvent {
            clause,
            met: clause.atoms(),
        });
    }
    End::Model(v.known.has)
}

// Writes a clause that follows as a further row, where there is room.
fn add(t: &mut Table, k: Clause) -> End
    requires { Follows t.old k }
    ensures { Explored t.old t.new result }
{
    let row = t.total;
    if atoms::rows(&t.left) <= row {
        return End::Full;
    }
    if atoms::rows(&t.right) <= row {
        return End::Full;
    }
    atoms::set_row(&mut t.left, row, k.left);
    atoms::set_row(&mut t.right, row, k.right);
    t.total = row + 1;
    End::Learned(row)
}

// Learns a clause that follows.
fn learn_clause(t: &mut Table, notes: &mut [u16], k: Resolvent) -> End
    requires { Follows t.old k.clause }
    ensures { Explored t.old t.new result }
{
    let s = resolution::shorter(t, notes, k);
    activity::tell(notes, s.met, t.total);
    add(t, s.clause)
}

// Goes back over an assignment: a conflict is learned where it has one atom of the last level, else resolved with the row that forced the
// atom; any other end stays.
fn go_back(t: &mut Table, notes: &mut [u16], v: Walk, end: End) -> End
    requires { EndFollows t.old end }
    ensures { Explored t.old t.new result }
{
    match end {
        End::Conflict(k) => {
            let level = k.clause.atoms().without(v.before);
            if resolution::is_single(level) {
                return learn_clause(t, notes, k);
            }
            End::Conflict(resolution::resolved_by(t, k, v.row, v.atom))
        }
        _ => end,
    }
}

// What a row just learned forces from w on: an atom, where it is its only open one, and was not so before the last decision.
fn follow(t: &Table, notes: &mut [u16], w: Walk, end: End) -> Walk {
    match end {
        End::Learned(c) => {
            let k = t.row(c);
            let open = k.open(w.known).atoms();
            let late = k.atoms().without(open).without(w.before);
            if late.is_empty() {
                return watching::stopped(w);
            }
            let v = force(notes, watching::at_end(w, c), k);
            watching::watch_two(notes, c, v.atom, late.highest_number(), k.left);
            v
        }
        _ => watching::stopped(w),
    }
}

// Explores what is known, each assignment in a call of its own: a conflict goes back through them, and what it teaches is learned.
#[cycle(explore_explore_under)]
fn explore(t: &mut Table, notes: &mut [u16], w: Walk, ordered: u8, depth: u8) -> End
    ensures { Explored t.old t.new result }
{
    if depth == 0 {
        return End::Full;
    }
    let less = depth - 1;
    let v = next(t, notes, w, ordered);
    if atoms::LIMIT <= v.atom {
        return ended(t, v);
    }
    let first = explore_under(t, notes, v, ordered, less);
    let u = follow(t, notes, w, first);
    if atoms::LIMIT <= u.atom {
        return first;
    }
    explore_under(t, notes, u, ordered, less)
}

// Explores under an assignment, and goes back over it.
#[cycle(explore_explore_under)]
fn explore_under(t: &mut Table, notes: &mut [u16], v: Walk, ordered: u8, depth: u8) -> End
    ensures { Explored t.old t.new result }
{
    let end = explore(t, notes, v, ordered, depth);
    go_back(t, notes, v, end)
}

// Drops rows.
fn make_room(t: &mut Table, notes: &mut [u16], base: Partial)
    ensures { Learned t.old t.new }
{
    room::shorten(t);
    watching::enter_all(t, notes, base);
}

// Does to the rows what the end of exploring asks for.
fn close(t: &mut Table, notes: &mut [u16], base: Partial, end: End)
    requires { EndFollows t.old end }
    ensures { Learned t.old t.new }
{
    match end {
        End::Conflict(k) => {
            add(t, k.clause);
        }
        End::Learned(c) => watching::enter(t, notes, base, c),
        End::Full => make_room(t, notes, base),
        End::Model(_) => {}
    }
}

// Where the learning stands after exploring: over at a conflict, and at a model; where the smallest is wanted, one atom more of the model
// is to be decided in order.
fn staged(s: Stage, end: End, total: usize, given: AtomSet, smallest: bool) -> Stage {
    match end {
        End::Conflict(_) => Stage { over: true, ..s },
        End::Model(m) => {
            let below = m.common(AtomSet::below(s.ordered)).without(given);
            Stage {
                model: m,
                ordered: below.highest_number(),
                over: !smallest || below.is_empty(),
            }
        }
        End::Full => Stage {
            over: ROWS <= total,
            ..s
        },
        End::Learned(_) => s,
    }
}

// Explores from the start.
fn start(t: &mut Table, notes: &mut [u16], base: Partial, smallest: bool, s: Stage) -> Stage
    ensures { Learned t.old t.new }
{
    let end = explore(t, notes, watching::origin(base), s.ordered, DEEPEST);
    close(t, notes, base, end);
    staged(s, end, t.total, base.has, smallest)
}

// Learns rows until what is to be told of `base` follows from the rows by propagation: that there is no model, or a model, the
// smallest one where it is wanted; or until the starts are used up. The model met last is the result.
pub fn learn(t: &mut Table, base: Partial, smallest: bool) -> AtomSet
    ensures { Learned t.old t.new }
{
    let mut notes = [0u16; NOTES];
    watching::enter_all(t, &mut notes, base);
    let mut s = Stage {
        model: AtomSet::EMPTY,
        ordered: atoms::LIMIT,
        over: false,
    };
    for _ in 0..STARTS {
        if s.over {
            return s.model;
        }
        s = start(t, &mut notes, base, smallest, s);
    }
    s.model
}
