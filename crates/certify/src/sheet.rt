// A whole certificate: contents first, then the bodies.
ghost use Rattle.std.specs.Prelude.{true, ◌≡◌, ℕ, ◌+◌, ◌-◌, ◌*◌, ◌≤◌, ◌<◌, length};
ghost use Rattle.std.proofs.Math.Option.{some};
ghost use Rattle.atoms.specs.Bytes.{put_at};
ghost use Rattle.prover.specs.State.{book};
ghost use Rattle.prover.specs.InRange.{in_range};
ghost use Rattle.certificate.specs.Format.{entries, entry_start, bodies_start, claim_rows, claim_width, entry_row, contents, bodies};
ghost use Rattle.certificate.specs.Kinds.{byte_of};
ghost use Rattle.certificate.specs.Written.{problem_of_book};
ghost use Rattle.certify.specs.Held.{length_of, claim_held, certificate_of, certificate_held};
ghost use Rattle.certify.specs.Writing.{rows_held, contents_held, Fits};
ghost use Rattle.certify.specs.Written.{told_of, WrittenAs};

use super::rows;
use atoms::little_endian;
use certificate::places::Kind;
use certificate::{Contents, places};
use prover::{Held, Session};
use refusal::Refusal;

// The start and the length in an entry.
const ADDRESS_BYTES: usize = 4;

// Counts in range are within their tables, so they fit. `write` meets the range.
fn contents_of(s: &Session, refuting: bool) -> Contents
    requires { in_range s.now ≡ true }
    ensures { result ≡ contents_held s.now refuting }
{
    let rows = if refuting {
        s.worlds.count
    } else {
        s.steps.count
    };
    Contents {
        flats: s.flats.count as u32,
        implications: s.implications.count as u32,
        refuting,
        rows: rows as u32,
    }
}

// The length with the worlds or the steps held, whatever the goal.
fn length(s: &Session, refuting: bool) -> usize
    requires { in_range s.now ≡ true }
    ensures { (g : ℕ) → result ≡ length_of (certificate_of s.now g refuting) }
{
    contents_of(s, refuting).length()
}

// The length of the certificate of the verdict held. Refused 9.
pub fn told(s: &Session) -> Result<usize, Refusal>
    requires { in_range s.now ≡ true }
    ensures { result ≡ told_of (certificate_held s.now s.now.held) }
{
    match s.held {
        Held::Nothing => Err(Refusal::NoVerdict),
        Held::Valid(_) => Ok(length(s, false)),
        Held::Refuted(_) => Ok(length(s, true)),
    }
}

// Entry `number`, the first being 0, of a body from `start` to `end`.
fn put_entry(buffer: &mut [u8], number: usize, kind: Kind, start: usize, end: usize)
    requires { (number < entries) × (bodies_start ≤ length buffer.old) × (start ≤ end) }
    ensures { buffer.new ≡ put_at buffer.old (entry_start number) (entry_row (byte_of kind) start (end - start)) }
{
    let at = places::ENTRIES_AT + places::ENTRY_BYTES * number;
    rows::put_byte(buffer, at, kind.byte());
    little_endian::put(buffer, at + 1, ADDRESS_BYTES, start as u64);
    little_endian::put(
        buffer,
        at + 1 + ADDRESS_BYTES,
        ADDRESS_BYTES,
        (end - start) as u64,
    );
}

// Byte 0 and the entries: each body ends where the next one starts.
fn put_contents(buffer: &mut [u8], k: Contents)
    requires { bodies_start ≤ length buffer.old }
    ensures { buffer.new ≡ put_at buffer.old 0 (contents k.flats k.implications k.refuting k.rows) }
{
    let implications_at = k.implications_at();
    let goal_at = k.goal_at();
    let claim_at = k.claim_at();
    rows::put_byte(buffer, 0, places::ENTRIES);
    put_entry(
        buffer,
        0,
        Kind::Flats,
        places::ATOM_COUNT_AT,
        implications_at,
    );
    put_entry(buffer, 1, Kind::Implications, implications_at, goal_at);
    put_entry(buffer, 2, Kind::Goal, goal_at, claim_at);
    put_entry(
        buffer,
        3,
        places::claim_kind(k.refuting),
        claim_at,
        k.length(),
    );
}

// The worlds or the steps.
fn put_claim(buffer: &mut [u8], at: usize, s: &Session, refuting: bool)
    requires { (in_range s.now ≡ true) × (at + claim_width refuting * rows_held s.now refuting ≤ length buffer.old) }
    ensures { buffer.new ≡ put_at buffer.old at (claim_rows (claim_held s.now refuting)) }
{
    if refuting {
        rows::put_table(buffer, at, &s.worlds);
    } else {
        rows::put_table(buffer, at, &s.steps);
    }
}

// The bodies, one after the other. `write` meets the bounds.
fn put_bodies(buffer: &mut [u8], s: &Session, goal: u8, k: Contents)
    requires { Fits s.now k (length buffer.old) }
    ensures { buffer.new ≡ put_at buffer.old bodies_start (bodies (problem_of_book (book s.now) goal) (claim_held s.now k.refuting)) }
{
    rows::put_byte(buffer, places::ATOM_COUNT_AT, s.n);
    rows::put_table(buffer, places::FLATS_AT, &s.flats);
    rows::put_table(buffer, k.implications_at(), &s.implications);
    rows::put_byte(buffer, k.goal_at(), goal);
    put_claim(buffer, k.claim_at(), s, k.refuting);
}

// Writes the certificate of the goal with the worlds or the steps held. Refused 10: nothing is written.
pub fn write(s: &Session, goal: u8, refuting: bool, buffer: &mut [u8]) -> Result<usize, Refusal>
    requires { in_range s.now ≡ true }
    ensures { WrittenAs (some (certificate_of s.now goal refuting)) buffer.old result buffer.new }
{
    let k = contents_of(s, refuting);
    let size = k.length();
    if buffer.len() < size {
        return Err(Refusal::NoRoom);
    }
    put_contents(buffer, k);
    put_bodies(buffer, s, goal, k);
    Ok(size)
}
