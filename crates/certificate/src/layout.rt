// The table of contents: four entries whose bodies follow in order, without gaps, to the end.
ghost use Rattle.std.specs.Prelude.{◌≡◌, ◌+◌, eqb, length};
ghost use Rattle.certificate.specs.Format.{claim_least, entry_start};
ghost use Rattle.certificate.specs.Checked.{ClaimRead, BeginningRead, LayoutRead};

use super::bytes_at::byte;
use super::places::Kind;
use super::reader::Reader;
use super::{Contents, places};

// The fewest rows of a claim.
fn claim_least(refuting: bool) -> u32
    ensures { result ≡ claim_least refuting }
{
    if refuting { 1 } else { 0 }
}

// Whether `more` bytes after those seen make up the length.
fn makes_up(seen: usize, more: usize, length: usize) -> bool
    ensures { result ≡ eqb (seen + more) length }
{
    length.checked_sub(seen) == Some(more)
}

// The last entry, and the end of all bytes. `read_beginning` has read the other counts.
fn read_claim(mut entries: Reader, more: usize, counts: Contents) -> Option<Contents>
    requires { entries.at ≡ entry_start 3 }
    ensures { ClaimRead entries.entry.src.now (length entries.entry.src.now + more) counts.flats counts.implications result }
{
    let bytes = entries.src;
    let refuting = byte(bytes, entries.at) == Kind::Worlds as u8;
    let rows = entries.rows(
        places::claim_kind(refuting),
        counts.claim_at(),
        0,
        places::claim_width(refuting),
    )?;
    if rows < claim_least(refuting) {
        return None;
    }
    let k = Contents {
        refuting,
        rows,
        ..counts
    };
    if !makes_up(bytes.len(), more, k.length()) {
        return None;
    }
    Some(k)
}

// The layout of a certificate of which these bytes are the beginning and `more` follow.
pub fn read_beginning(bytes: &[u8], more: usize) -> Option<Contents>
    ensures { BeginningRead bytes.now (length bytes.now + more) result }
{
    if byte(bytes, 0) != places::ENTRIES {
        return None;
    }
    let mut entries = Reader {
        src: bytes,
        at: places::ENTRIES_AT,
    };
    let mut counts = Contents::NONE;
    counts.flats = entries.rows(Kind::Flats, places::ATOM_COUNT_AT, 1, places::FLAT_BYTES)?;
    counts.implications = entries.rows(
        Kind::Implications,
        counts.implications_at(),
        0,
        places::IMPLICATION_BYTES,
    )?;
    let goals = entries.rows(Kind::Goal, counts.goal_at(), 0, 1)?;
    if goals != 1 {
        return None;
    }
    read_claim(entries, more, counts)
}

pub fn read(bytes: &[u8]) -> Option<Contents>
    ensures { LayoutRead bytes.now result }
{
    read_beginning(bytes, 0)
}
