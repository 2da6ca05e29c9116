// The bodies of a certificate, row by row, at a place of a buffer that has room for them: `sheet` meets the bounds.
ghost use Rattle.std.specs.Prelude.{◌≡◌, ℕ, List, [], ◌∷◌, ◌+◌, ◌*◌, ◌<◌, ◌≤◌, length};
ghost use Rattle.atoms.specs.Words.{row_of};
ghost use Rattle.atoms.specs.Bytes.{put_at};
ghost use Rattle.ipl.specs.Range.{implication_table, step_table};
ghost use Rattle.sat.specs.Table.{clause_at};
ghost use Rattle.prover.specs.State as state;
ghost use Rattle.certificate.specs.Format.{set_bytes, flat_bytes, implication_bytes, step_bytes, flat_row, implication_row, step_row, world_row};
ghost use Rattle.certificate.proofs.Encoding.{length_flat, length_implication, length_step, length_world};
ghost use Rattle.certify.specs.Writing.{row_after_row};

use atoms::little_endian;
use certificate::places::{FLAT_BYTES, IMPLICATION_BYTES, SET_BYTES, STEP_BYTES, WORLD_BYTES};
use prover::{Flats, Implication, Implications, Steps, Worlds};

// A table of a session, as the rows of a body.
pub trait Table {
    const ROW_BYTES: usize;

    ghost ROW_BYTES: { ℕ };

    ghost count: { Self → ℕ };

    // The bytes of a row.
    ghost row_at: { Self → ℕ → List ℕ };

    // The rows counted are in the table.
    ghost Bounded: { Self → Type 0 };

    fn count(&self) -> usize
        ensures { result ≡ count self.now };

    fn put_row(&self, i: usize, buffer: &mut [u8], at: usize)
        requires { (i < count self.now) × Bounded self.now × (at + ROW_BYTES ≤ length buffer.old) }
        ensures { buffer.new ≡ put_at buffer.old at (row_at self.now i) };

    ghost wide: { (t : Self) (i : ℕ) → length (row_at t i) ≡ ROW_BYTES };
}

pub fn put_table<T: Table>(buffer: &mut [u8], at: usize, t: &T)
    requires { (at + T.ROW_BYTES * T.count t.now ≤ length buffer.old) × T.Bounded t.now }
    ensures { buffer.new ≡ put_at buffer.old at (row_after_row (T.row_at t.now) (T.count t.now)) }
{
    for i in 0..t.count() {
        t.put_row(i, buffer, at + T::ROW_BYTES * i);
    }
}

pub fn put_byte(buffer: &mut [u8], at: usize, b: u8)
    ensures { buffer.new ≡ put_at buffer.old at (b ∷ []) }
{
    little_endian::put(buffer, at, 1, u64::from(b));
}

impl Table for Flats {
    const ROW_BYTES: usize = FLAT_BYTES;

    ghost ROW_BYTES = { flat_bytes };

    ghost count = { λ t. t.count };

    ghost row_at = { λ t i. flat_row (clause_at t.left t.right i) };

    ghost Bounded = { λ t. Unit {0} };

    ghost wide = { λ t i. length_flat (clause_at t.left t.right i) };

    fn count(&self) -> usize {
        self.count
    }

    fn put_row(&self, i: usize, buffer: &mut [u8], at: usize) {
        atoms::store(buffer, at, atoms::row(&self.left, i));
        atoms::store(buffer, at + SET_BYTES, atoms::row(&self.right, i));
    }
}

impl Table for Implications {
    const ROW_BYTES: usize = IMPLICATION_BYTES;

    ghost ROW_BYTES = { implication_bytes };

    ghost count = { λ t. t.count };

    ghost row_at = { λ t i. implication_row (state.implication_row t i) };

    ghost Bounded = { λ t. t.count ≤ implication_table };

    ghost wide = { λ t i. length_implication (state.implication_row t i) };

    fn count(&self) -> usize {
        self.count
    }

    fn put_row(&self, i: usize, buffer: &mut [u8], at: usize) {
        let Implication { a, b, c } = self.rows[i];
        put_byte(buffer, at, a);
        put_byte(buffer, at + 1, b);
        put_byte(buffer, at + 2, c);
    }
}

impl Table for Steps {
    const ROW_BYTES: usize = STEP_BYTES;

    ghost ROW_BYTES = { step_bytes };

    ghost count = { λ t. t.count };

    ghost row_at = { λ t i. step_row (state.step_row t i) };

    ghost Bounded = { λ t. t.count ≤ step_table };

    ghost wide = { λ t i. length_step (state.step_row t i) };

    fn count(&self) -> usize {
        self.count
    }

    fn put_row(&self, i: usize, buffer: &mut [u8], at: usize) {
        put_byte(buffer, at, self.numbers[i]);
        atoms::store(buffer, at + 1, atoms::row(&self.assumed, i));
    }
}

impl Table for Worlds {
    const ROW_BYTES: usize = WORLD_BYTES;

    ghost ROW_BYTES = { set_bytes };

    ghost count = { λ t. t.count };

    ghost row_at = { λ t i. world_row (row_of t.sets i) };

    ghost Bounded = { λ t. Unit {0} };

    ghost wide = { λ t i. length_world (row_of t.sets i) };

    fn count(&self) -> usize {
        self.count
    }

    fn put_row(&self, i: usize, buffer: &mut [u8], at: usize) {
        atoms::store(buffer, at, atoms::row(&self.sets, i));
    }
}
