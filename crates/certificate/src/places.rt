// Where each part of a certificate stands: once for the reader, the writer and what is read back.
ghost use Rattle.std.specs.Prelude.{◌≡◌};
ghost use Rattle.certificate.specs.Kinds.{byte_of};
ghost use Rattle.certificate.specs.Format.{claim_kind, claim_width, implication_start, goal_start, claim_start, total_length};

use super::Contents;

// A set of atoms, and the rows of each body.
pub const SET_BYTES: usize = 8;

pub const FLAT_BYTES: usize = 2 * SET_BYTES;

pub const IMPLICATION_BYTES: usize = 3;

pub const STEP_BYTES: usize = 1 + SET_BYTES;

pub const WORLD_BYTES: usize = SET_BYTES;

// The kinds of the entries.
#[derive(Clone, Copy, Debug, PartialEq, Eq)]
pub enum Kind {
    Flats = 1,
    Implications = 2,
    Goal = 3,
    Steps = 4,
    Worlds = 5,
}

impl Kind {
    // The byte that stands for it.
    pub fn byte(self) -> u8
        ensures { result ≡ byte_of self }
    {
        self as u8
    }
}

// The number of entries is byte 0; the entries follow.
pub const ENTRIES: u8 = 4;

pub const ENTRIES_AT: usize = 1;

// Kind (1 byte), start and length (4 bytes each).
pub const ENTRY_BYTES: usize = 9;

// The bodies follow the entries: n first, then the flat clauses.
pub const ATOM_COUNT_AT: usize = ENTRIES_AT + ENTRIES as usize * ENTRY_BYTES;

pub const FLATS_AT: usize = ATOM_COUNT_AT + 1;

pub fn claim_kind(refuting: bool) -> Kind
    ensures { byte_of result ≡ claim_kind refuting }
{
    if refuting { Kind::Worlds } else { Kind::Steps }
}

pub fn claim_width(refuting: bool) -> usize
    ensures { result ≡ claim_width refuting }
{
    if refuting { WORLD_BYTES } else { STEP_BYTES }
}

// Each body starts where the one before it ends.
impl Contents {
    // No row in any body.
    pub const NONE: Contents = Contents {
        flats: 0,
        implications: 0,
        refuting: false,
        rows: 0,
    };

    pub fn implications_at(self) -> usize
        ensures { result ≡ implication_start self.flats }
    {
        FLATS_AT + FLAT_BYTES * self.flats as usize
    }

    pub fn goal_at(self) -> usize
        ensures { result ≡ goal_start self.flats self.implications }
    {
        self.implications_at() + IMPLICATION_BYTES * self.implications as usize
    }

    pub fn claim_at(self) -> usize
        ensures { result ≡ claim_start self.flats self.implications }
    {
        self.goal_at() + 1
    }

    // The length of the whole certificate.
    pub fn length(self) -> usize
        ensures { result ≡ total_length self.flats self.implications self.refuting self.rows }
    {
        self.claim_at() + claim_width(self.refuting) * self.rows as usize
    }
}
