// The notes of the second stage, in one table of numbers. Nothing is claimed of what they hold.

// No row and no place: what stands past the end of the table.
pub const NONE: u16 = 65535;

// Each atom has numbers of its own.
pub const MOST: usize = atoms::LIMIT as usize;

// Four numbers for each row: its places in two lists of watched literals. Then where each literal's list begins,
pub const LISTS: usize = 4 * super::ROWS;

// the list of the rows that are looked at first,
pub const FIRST: usize = LISTS + 2 * MOST;

// the row that forced each atom,
pub const REASONS: usize = FIRST + 1;

// and how busy each atom was.
pub const ACTIVITIES: usize = REASONS + MOST;

pub const NOTES: usize = ACTIVITIES + MOST;

// Number i of the notes; past their end, NONE.
pub fn number(notes: &[u16], i: usize) -> u16 {
    if i < notes.len() { notes[i] } else { NONE }
}

// Writes number i of the notes; past their end, nothing.
pub fn set_number(notes: &mut [u16], i: usize, x: u16) {
    if i < notes.len() {
        notes[i] = x;
    }
}
