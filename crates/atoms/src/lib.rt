// Sets of atoms. Atom i counts 2^i; every function is total, for any number and any set.
#![tactic(auto)]

ghost use Rattle.std.specs.Prelude.{true, ◌≡◌, ◌+◌, ◌*◌, ◌/◌, ◌%◌, ◌^◌, ◌<◌, eqb, leb, IfSome, IsNone, ◌≤◌};
ghost use Rattle.atoms.specs.Sets.{limit, has, union, common, minus, within, meets, without_lowest};
ghost use Rattle.atoms.specs.Bytes.{digits, number_at, put_at};
ghost use Rattle.atoms.specs.Words.{num, every_atom, single_or_empty, below, HighestOrEmpty, HighestNumber, NumberIs, row_of, row_count, RowSet, RowsSet};

pub mod little_endian;

// Words to a set, for the sizes of tables.
pub const WORDS: usize = 1;

// How many atoms there is room for.
pub const LIMIT: u8 = 64;

#[derive(Clone, Copy, Debug, PartialEq, Eq, Hash)]
pub struct AtomSet {
    pub bits: u64,
}

// A set's number in base ten: the last digit, and the number without it.
#[derive(Clone, Copy, Debug)]
pub struct Tenth {
    pub rest: AtomSet,
    pub digit: u8,
}

impl AtomSet {
    pub const EMPTY: AtomSet = AtomSet { bits: 0 };

    // A lemma for callers, with nothing to run: every set is below 2^limit.
    pub fn bounded(self)
        ensures { num self < 2 ^ limit }
    {}

    // The set with this number.
    pub fn numbered(x: u64) -> Self
        ensures { num result ≡ x }
    {
        AtomSet { bits: x }
    }

    // There is room for n atoms.
    pub fn fits(n: u8) -> bool
        ensures { result ≡ leb n limit }
    {
        n <= LIMIT
    }

    // The set of atom i alone; empty where i is no atom, as for ⊥.
    pub fn single(i: u8) -> Self
        ensures { num result ≡ single_or_empty i }
    {
        if i < LIMIT {
            AtomSet { bits: 1 << i }
        } else {
            AtomSet::EMPTY
        }
    }

    // All atoms below n.
    pub fn below(n: u8) -> Self
        ensures { num result ≡ below n }
    {
        if n < LIMIT {
            AtomSet { bits: (1 << n) - 1 }
        } else {
            AtomSet { bits: u64::MAX }
        }
    }

    // Union.
    pub fn join(self, other: AtomSet) -> Self
        ensures { num result ≡ union (num self) (num other) }
    {
        AtomSet {
            bits: self.bits | other.bits,
        }
    }

    // Intersection.
    pub fn common(self, other: AtomSet) -> Self
        ensures { num result ≡ common (num self) (num other) }
    {
        AtomSet {
            bits: self.bits & other.bits,
        }
    }

    // The atoms of self that other lacks.
    pub fn without(self, other: AtomSet) -> Self
        ensures { num result ≡ minus (num self) (num other) }
    {
        AtomSet {
            bits: self.bits & !other.bits,
        }
    }

    // The atoms that self lacks.
    pub fn complement(self) -> Self
        ensures { num result ≡ minus every_atom (num self) }
    {
        AtomSet { bits: !self.bits }
    }

    // Inclusion: each atom of self is one of other.
    pub fn within(self, other: AtomSet) -> bool
        ensures { result ≡ within (num self) (num other) }
    {
        self.bits & other.bits == self.bits
    }

    // Some atom is in both.
    pub fn meets(self, other: AtomSet) -> bool
        ensures { result ≡ meets (num self) (num other) }
    {
        self.bits & other.bits != 0
    }

    pub fn is_empty(self) -> bool
        ensures { result ≡ eqb (num self) 0 }
    {
        self.bits == 0
    }

    // Atom i is in self.
    pub fn has(self, i: u8) -> bool
        ensures { result ≡ has (num self) i }
    {
        i < LIMIT && (self.bits >> i) % 2 == 1
    }

    // The set of the highest atom alone; of the empty set, the empty set.
    pub fn highest(self) -> Self
        ensures { HighestOrEmpty (num self) (num result) }
    {
        AtomSet::single(self.highest_number())
    }

    // The number of the highest atom; of the empty set, the number past all atoms.
    pub fn highest_number(self) -> u8
        ensures { HighestNumber (num self) result }
    {
        if self.bits == 0 {
            return LIMIT;
        }
        (63 - self.bits.leading_zeros()) as u8
    }

    // Self without its lowest atom; of the empty set, the empty set.
    pub fn without_lowest(self) -> Self
        ensures { num result ≡ without_lowest (num self) }
    {
        if self.bits == 0 {
            return self;
        }
        AtomSet {
            bits: self.bits & (self.bits - 1),
        }
    }

    // The number by ten, and what remains.
    pub fn tenth(self) -> Tenth
        ensures { (num result.rest ≡ num self / 10) × (result.digit ≡ num self % 10) }
    {
        Tenth {
            rest: AtomSet {
                bits: self.bits / 10,
            },
            digit: (self.bits % 10) as u8,
        }
    }

    // The set whose number has a further digit in base ten, if there is one.
    pub fn with_digit(self, digit: u8) -> Option<Self>
        ensures { NumberIs (10 * num self + digit) result }
    {
        let bits = self.bits.checked_mul(10)?.checked_add(u64::from(digit))?;
        Some(AtomSet { bits })
    }
}

// How many sets a table holds.
pub fn rows(table: &[u64]) -> usize
    ensures { result ≡ row_count table.now }
{
    table.len() / WORDS
}

// Row i of a table of sets; past its end, the empty set.
pub fn row(table: &[u64], i: usize) -> AtomSet
    ensures { num result ≡ row_of table.now i }
{
    let bits = table.get(i).copied().unwrap_or(0);
    AtomSet { bits }
}

// Writes row i of a table of sets; past its end, nothing.
pub fn set_row(table: &mut [u64], i: usize, s: AtomSet)
    ensures { RowSet table.old i (num s) table.new }
{
    if i < table.len() {
        table[i] = s.bits;
    }
}

// Writes the first `count` rows of a table to the rows of another from `at` on; past its end, nothing.
pub fn copy_rows(from: &[u64], to: &mut [u64], at: usize, count: usize)
    ensures { RowsSet to.old at from.now count to.new }
{
    let room = rows(to).saturating_sub(at);
    for i in 0..count.min(room) {
        set_row(to, at + i, row(from, i));
    }
}

// The set in the 8 bytes at `at`.
pub fn load(bytes: &[u8], at: usize) -> AtomSet
    ensures { num result ≡ number_at bytes.now at 8 }
{
    AtomSet {
        bits: little_endian::number(bytes, at, 8),
    }
}

// Puts a set into the 8 bytes at `at`; where they do not fit, nothing is written.
pub fn store(buffer: &mut [u8], at: usize, s: AtomSet)
    ensures { buffer.new ≡ put_at buffer.old at (digits 8 (num s)) }
{
    little_endian::put(buffer, at, 8, s.bits);
}
