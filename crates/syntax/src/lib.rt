// The reader of formula text: any bytes to the parts of a formula, or the first refusal of 1 to 4 that the text meets.
#![tactic(auto)]

ghost use Rattle.std.specs.Prelude.{◌≡◌, ◌≤◌, ◌+◌, length};
ghost use Rattle.syntax.specs.Refusal.{most_names};

mod bytes;
mod descent;
mod parentheses;
mod scan;
mod table;
mod text;

pub use text::{letters_in, read};

// The limits of a text.
pub const MOST_BYTES: usize = 4096;

const MOST_NAMES: usize = 64;

// The rows of a table of parts: letters and names, and ⊥.
pub const PARTS: usize = MOST_NAMES + 1;

#[derive(Clone, Copy, PartialEq, Eq)]
pub enum Connective {
    And,
    Or,
    Implies,
}

// The parts of a compound are earlier rows, by index. ⊥ stands first: a table of it is zeros, for which no constant data is needed.
#[derive(Clone, Copy, PartialEq, Eq)]
pub enum Part {
    Falsum,
    Letter(u8),
    Compound(Connective, u8, u8),
}

// The first `count` rows: inner parts before outer ones, left before right, equal ones once.
#[derive(Clone, Copy)]
pub struct Parts {
    pub nodes: [Part; PARTS],
    pub count: u8,
    pub ghost sized: { length nodes ≡ most_names + 1 },
    pub ghost bounded: { count ≤ most_names + 1 },
}

// The parts of a text's formula, the row of the whole, and how many of the parts are letters.
#[derive(Clone, Copy)]
pub struct Reading {
    pub parts: Parts,
    pub root: u8,
    pub letters: u8,
}
