// The row that starts at a place of the bytes. The callers know that it is there whole.
ghost use Rattle.std.specs.Prelude.{◌≡◌, ◌+◌, ◌≤◌, length};
ghost use Rattle.certificate.specs.Format.{flat_bytes, implication_bytes, step_bytes};
ghost use Rattle.certificate.specs.Layout.{flat_from, implication_from, step_from};
ghost use Rattle.certificate.specs.ReadBack.{flat_of, implication_of, step_of};

use super::bytes_at::byte;
use super::places::SET_BYTES;
use super::{FlatRow, ImplicationRow, StepRow};
use atoms::AtomSet;

impl FlatRow {
    pub const EMPTY: FlatRow = FlatRow {
        left: AtomSet::EMPTY,
        right: AtomSet::EMPTY,
    };
}

impl ImplicationRow {
    pub const EMPTY: ImplicationRow = ImplicationRow { a: 0, b: 0, c: 0 };
}

impl StepRow {
    pub const EMPTY: StepRow = StepRow {
        number: 0,
        assumed: AtomSet::EMPTY,
    };
}

pub fn flat_from(bytes: &[u8], at: usize) -> FlatRow
    requires { at + flat_bytes ≤ length bytes.now }
    ensures { flat_of result ≡ flat_from bytes.now at }
{
    FlatRow {
        left: atoms::load(bytes, at),
        right: atoms::load(bytes, at + SET_BYTES),
    }
}

pub fn implication_from(bytes: &[u8], at: usize) -> ImplicationRow
    requires { at + implication_bytes ≤ length bytes.now }
    ensures { implication_of result ≡ implication_from bytes.now at }
{
    ImplicationRow {
        a: byte(bytes, at),
        b: byte(bytes, at + 1),
        c: byte(bytes, at + 2),
    }
}

pub fn step_from(bytes: &[u8], at: usize) -> StepRow
    requires { at + step_bytes ≤ length bytes.now }
    ensures { step_of result ≡ step_from bytes.now at }
{
    StepRow {
        number: byte(bytes, at),
        assumed: atoms::load(bytes, at + 1),
    }
}
