// Watched literals: a row is in the lists of two of its open atoms, and looked at where one of them becomes false. Literal 2x is atom
// x on a left side, 2x + 1 on a right side. Nothing is claimed of the lists.
use super::super::known::Partial;
use super::ROWS;
use super::notes::{ACTIVITIES, FIRST, LISTS, NONE, NOTES, REASONS, number, set_number};
use super::table::Table;
use atoms::AtomSet;

// Where the search stands: what is known, the atoms known before the last decision, those whose lists are to be looked at, the number
// that holds the next place of a list, the atom assigned last, and the row that forced it; ROWS where there is none.
#[derive(Clone, Copy)]
pub struct Walk {
    pub known: Partial,
    pub before: AtomSet,
    pub waiting: AtomSet,
    pub at: usize,
    pub atom: u8,
    pub row: usize,
}

// The walk at its start, where nothing is decided.
pub fn origin(base: Partial) -> Walk {
    Walk {
        known: base,
        before: AtomSet::EMPTY.complement(),
        waiting: AtomSet::EMPTY,
        at: FIRST,
        atom: atoms::LIMIT,
        row: ROWS,
    }
}

// The walk past all lists, where row c was learned.
pub fn at_end(w: Walk, c: usize) -> Walk {
    Walk {
        waiting: AtomSet::EMPTY,
        at: NOTES,
        row: c,
        ..w
    }
}

// The walk where no atom could be assigned.
pub fn stopped(w: Walk) -> Walk {
    Walk {
        atom: atoms::LIMIT,
        ..w
    }
}

// The walk with one atom more that is had, or lacked; its row is noted.
pub fn assigned(notes: &mut [u16], w: Walk, x: u8, had: bool) -> Walk {
    if atoms::LIMIT <= x {
        return stopped(w);
    }
    let one = AtomSet::single(x);
    if w.known.atoms().meets(one) {
        return stopped(w);
    }
    set_number(notes, REASONS + usize::from(x), (w.row % 65536) as u16);
    let known = if had {
        w.known.having(one)
    } else {
        w.known.lacking(one)
    };
    Walk {
        known,
        waiting: w.waiting.join(one),
        atom: x,
        ..w
    }
}

// The other place of the same row.
fn other(place: u16) -> usize {
    let q = usize::from(place);
    if q % 4 < 2 { q + 2 } else { q - 2 }
}

// The atom watched at a place.
fn watched(notes: &[u16], place: usize) -> AtomSet {
    if place < LISTS {
        AtomSet::single((number(notes, place + 1) / 2 % 256) as u8)
    } else {
        AtomSet::EMPTY
    }
}

// The literal of an atom.
fn literal(x: u8, on_left: bool) -> u16 {
    let even = 2 * u16::from(x);
    if on_left { even } else { even + 1 }
}

// Puts a place first into a list.
fn link(notes: &mut [u16], place: u16, list: usize) {
    let first = number(notes, list);
    set_number(notes, usize::from(place), first);
    set_number(notes, list, place);
}

// Watches an atom of a row at a place. `left` are atoms of its left side.
fn watch(notes: &mut [u16], place: u16, x: u8, left: AtomSet) {
    let watched = literal(x, left.has(x));
    set_number(notes, usize::from(place) + 1, watched);
    link(notes, place, LISTS + usize::from(watched));
}

// Watches two atoms of row c; none where there is no first.
pub fn watch_two(notes: &mut [u16], c: usize, x: u8, y: u8, left: AtomSet) {
    if ROWS <= c || atoms::LIMIT <= x {
        return;
    }
    let place = (4 * c) as u16;
    watch(notes, place, x, left);
    watch(notes, place + 2, y, left);
}

// The walk at the list of a waiting atom.
fn next_list(w: Walk) -> Walk {
    let x = w.waiting.highest();
    let list = literal(x.highest_number(), w.known.has.meets(x));
    Walk {
        at: LISTS + usize::from(list),
        waiting: w.waiting.without(x),
        ..w
    }
}

// Looks at the row at a place: it is true, it tells something, or another open atom of it is watched. Past a list's end, the next list
// is begun.
fn visit(t: &Table, notes: &mut [u16], w: Walk, place: u16) -> Walk {
    if place == NONE {
        return next_list(w);
    }
    let q = usize::from(place);
    let k = t.row(q / 4);
    if !k.settled(w.known).is_empty() {
        return Walk { at: q, ..w };
    }
    let open = k.open(w.known);
    let atoms = open.atoms();
    if atoms.without_lowest().is_empty() {
        return Walk {
            at: q,
            row: q / 4,
            ..w
        };
    }
    let rest = atoms.without(watched(notes, other(place)));
    let next = number(notes, q);
    set_number(notes, w.at, next);
    watch(notes, place, rest.highest_number(), open.left);
    w
}

// Looks at the rows of the lists, until one tells something or all were looked at.
pub fn advance(t: &Table, notes: &mut [u16], from: Walk) -> Walk {
    let mut w = Walk { row: ROWS, ..from };
    for _ in 0..NOTES {
        if w.row < ROWS {
            return w;
        }
        let place = number(notes, w.at);
        if place == NONE && w.waiting.is_empty() {
            return w;
        }
        w = visit(t, notes, w, place);
    }
    w
}

// Enters row c into the lists: two open atoms of it are watched; where it has not two, it is looked at first.
pub fn enter(t: &Table, notes: &mut [u16], base: Partial, c: usize) {
    let k = t.row(c);
    if k.left.meets(k.right) || !k.settled(base).is_empty() {
        return;
    }
    let open = k.open(base);
    let atoms = open.atoms();
    let rest = atoms.without_lowest();
    if !rest.is_empty() {
        let lowest = atoms.without(rest);
        watch_two(
            notes,
            c,
            rest.highest_number(),
            lowest.highest_number(),
            open.left,
        );
    } else if c < ROWS {
        link(notes, (4 * c) as u16, FIRST);
    }
}

// Empties all lists, and forgets all reasons.
fn clear(notes: &mut [u16]) {
    for i in LISTS..ACTIVITIES {
        set_number(notes, i, NONE);
    }
}

// Enters all rows.
pub fn enter_all(t: &Table, notes: &mut [u16], base: Partial) {
    clear(notes);
    for c in 0..t.total {
        enter(t, notes, base, c);
    }
}
