// A certificate that keeps the layout, row by row.
ghost use Rattle.std.specs.Prelude.{false, ◌≡◌, ◌+◌, ◌*◌, ◌<◌, length, get_or};
ghost use Rattle.atoms.specs.Words.{num};
ghost use Rattle.certificate.specs.Format.{set_bytes, flat_bytes, implication_bytes, step_bytes, bodies_start, flat_start, implication_start, goal_start, claim_start, total_length};
ghost use Rattle.certificate.specs.Layout.{flat_from, implication_from, step_from, world_from};
ghost use Rattle.certificate.specs.ReadBack.{flat_of, implication_of, step_of};

use super::bytes_at::byte;
use super::places::{
    ATOM_COUNT_AT, FLAT_BYTES, FLATS_AT, IMPLICATION_BYTES, STEP_BYTES, WORLD_BYTES,
};
use super::{Contents, FlatRow, ImplicationRow, StepRow, layout, rows};
use atoms::AtomSet;

// The bytes, and the table of contents found in them: the bodies are all there.
#[derive(Clone, Copy)]
pub struct Sheet<'a> {
    pub bytes: &'a [u8],
    pub contents: Contents,
    pub ghost sized: { length bytes.now ≡ total_length contents.flats contents.implications contents.refuting contents.rows },
}

impl<'a> Sheet<'a> {
    ghost use Rattle.certificate.specs.Checked.{SheetRead};

    // Reads the table of contents; nothing where the layout is broken.
    pub fn read(bytes: &'a [u8]) -> Option<Sheet<'a>>
        ensures { SheetRead bytes.now result }
    {
        let contents = layout::read(bytes)?;
        Some(Sheet { bytes, contents })
    }

    pub fn atom_count(&self) -> u8
        ensures { result ≡ get_or self.now.bytes.now bodies_start 0 }
    {
        byte(self.bytes, ATOM_COUNT_AT)
    }

    pub fn goal(&self) -> u8
        ensures { result ≡ get_or self.now.bytes.now (goal_start self.now.contents.flats self.now.contents.implications) 0 }
    {
        byte(self.bytes, self.contents.goal_at())
    }

    // Flat clause i.
    pub fn flat(&self, i: usize) -> FlatRow
        requires { i < self.now.contents.flats }
        ensures { flat_of result ≡ flat_from self.now.bytes.now (flat_start + flat_bytes * i) }
    {
        rows::flat_from(self.bytes, FLATS_AT + FLAT_BYTES * i)
    }

    // Implication i.
    pub fn implication(&self, i: usize) -> ImplicationRow
        requires { i < self.now.contents.implications }
        ensures { implication_of result ≡ implication_from self.now.bytes.now (implication_start self.now.contents.flats + implication_bytes * i) }
    {
        rows::implication_from(
            self.bytes,
            self.contents.implications_at() + IMPLICATION_BYTES * i,
        )
    }

    // Step i of a derivation.
    pub fn step(&self, i: usize) -> StepRow
        requires { (self.now.contents.refuting ≡ false) × (i < self.now.contents.rows) }
        ensures { step_of result ≡ step_from self.now.bytes.now (claim_start self.now.contents.flats self.now.contents.implications + step_bytes * i) }
    {
        rows::step_from(self.bytes, self.contents.claim_at() + STEP_BYTES * i)
    }

    // World i of a countermodel.
    pub fn world(&self, i: usize) -> AtomSet
        requires { i < self.now.contents.rows }
        ensures { num result ≡ world_from self.now.bytes.now (claim_start self.now.contents.flats self.now.contents.implications + set_bytes * i) }
    {
        atoms::load(self.bytes, self.contents.claim_at() + WORLD_BYTES * i)
    }
}
