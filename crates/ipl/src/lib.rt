// Intuitionistic propositional logic: definitions in specs/, theorems in proofs/. In code: ⊥, the sizes of the tables, and the tests
// of ranges.
#![tactic(auto)]

ghost use Rattle.std.specs.Prelude.{◌≡◌};
ghost use Rattle.atoms.specs.Words.{num};
ghost use Rattle.ipl.specs.Range.{atom_or_bot, set_in_range, flat_in_range, implication_in_range};
ghost use Rattle.ipl.specs.Search.{step_in_range};
ghost use Rattle.ipl.specs.Book.{count_in_range};

use atoms::AtomSet;

// ⊥, where an atom's number is wanted.
pub const BOTTOM: u8 = 255;

// The sizes of the tables.
pub const FLATS: usize = 512;

pub const IMPLICATIONS: usize = 128;

pub const STEPS: usize = 512;

pub const WORLDS: usize = 256;

pub const MARKS: usize = 8;

// The goals of a page.
pub const GOALS: usize = 64;

// The authors whose work is counted, and the one that the program is.
pub const AUTHORS: usize = 16;

pub const PROGRAM: u8 = 0;

// The flat clauses and the clauses of the steps.
pub const KNOWN: usize = FLATS + STEPS;

// There can be n atoms.
#[tactic(auto, unfolding(crate::specs::Book::count_in_range))]
pub fn count_in_range(n: u8) -> bool
    ensures { result ≡ count_in_range n }
{
    1 <= n && AtomSet::fits(n)
}

// An atom below n, or ⊥.
#[tactic(auto, unfolding(crate::specs::Range::atom_or_bot))]
pub fn atom_or_bottom(n: u8, x: u8) -> bool
    ensures { result ≡ atom_or_bot n x }
{
    x < n || x == BOTTOM
}

// A set of atoms below n.
pub fn set_in_range(n: u8, s: AtomSet) -> bool
    ensures { result ≡ set_in_range n (num s) }
{
    s.bounded();
    s.within(AtomSet::below(n))
}

#[tactic(auto, unfolding(crate::specs::Range::flat_in_range))]
pub fn flat_in_range(n: u8, left: AtomSet, right: AtomSet) -> bool
    ensures { result ≡ flat_in_range n (record { left = num left; right = num right }) }
{
    set_in_range(n, left) && set_in_range(n, right)
}

#[tactic(auto, unfolding(crate::specs::Range::implication_in_range))]
pub fn implication_in_range(n: u8, a: u8, b: u8, c: u8) -> bool
    ensures { result ≡ implication_in_range n (record { a = a; b = b; c = c }) }
{
    a < n && atom_or_bottom(n, b) && atom_or_bottom(n, c)
}

// A step over this many implications.
#[tactic(auto, unfolding(crate::specs::Search::step_in_range))]
pub fn step_in_range(n: u8, implications: usize, number: u8, assumed: AtomSet) -> bool
    ensures { result ≡ step_in_range n implications (record { number = number; assumed = num assumed }) }
{
    usize::from(number) < implications && set_in_range(n, assumed)
}
