// How often an atom was met in late conflicts: the next decision is the busiest open atom. Nothing is claimed of it.
use super::notes::{ACTIVITIES, NOTES, number, set_number};
use atoms::AtomSet;

// What a conflict adds, and after how many rows learned all activities are halved.
const RISE: u16 = 256;

const HALVED_EVERY: usize = 16;

// An activity after one conflict more; it stays below a bound.
fn risen(a: u16) -> u16 {
    if a < 32768 { a + RISE } else { a }
}

// Raises the activity of each atom of a set.
fn raise(notes: &mut [u16], atoms: AtomSet) {
    let mut rest = atoms;
    while !rest.is_empty() {
        let x = rest.highest();
        let i = ACTIVITIES + usize::from(x.highest_number());
        let a = number(notes, i);
        set_number(notes, i, risen(a));
        rest = rest.without(x);
    }
}

fn halve(notes: &mut [u16]) {
    for i in ACTIVITIES..NOTES {
        let a = number(notes, i);
        set_number(notes, i, a / 2);
    }
}

// After a conflict that met the atoms, with `total` rows.
pub fn tell(notes: &mut [u16], atoms: AtomSet, total: usize) {
    raise(notes, atoms);
    if total % HALVED_EVERY == 0 {
        halve(notes);
    }
}

// The number of the busiest atom of a set, the lowest of equals.
pub fn busiest(notes: &[u16], atoms: AtomSet) -> u8 {
    let mut best = atoms.highest_number();
    let mut rest = atoms;
    while !rest.is_empty() {
        let x = rest.highest();
        let i = x.highest_number();
        let most = number(notes, ACTIVITIES + usize::from(best));
        if most <= number(notes, ACTIVITIES + usize::from(i)) {
            best = i;
        }
        rest = rest.without(x);
    }
    best
}
