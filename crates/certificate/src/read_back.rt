// What a certificate says, row by row. Bytes that break the layout, and rows past the end, give an empty row.
ghost use Rattle.std.specs.Prelude.{◌≡◌};
ghost use Rattle.atoms.specs.Words.{num};
ghost use Rattle.certificate.specs.ReadBack.{flat_of, implication_of, step_of, atoms_read, goal_read, flat_read, implication_read, step_read, world_read};

use super::sheet::Sheet;
use super::{FlatRow, ImplicationRow, StepRow};
use atoms::AtomSet;

pub fn atom_count(bytes: &[u8]) -> u8
    ensures { result ≡ atoms_read bytes.now }
{
    match Sheet::read(bytes) {
        Some(sheet) => sheet.atom_count(),
        None => 0,
    }
}

pub fn goal(bytes: &[u8]) -> u8
    ensures { result ≡ goal_read bytes.now }
{
    match Sheet::read(bytes) {
        Some(sheet) => sheet.goal(),
        None => ipl::BOTTOM,
    }
}

// Flat clause i.
pub fn flat_at(bytes: &[u8], i: usize) -> FlatRow
    ensures { flat_of result ≡ flat_read bytes.now i }
{
    match Sheet::read(bytes) {
        Some(sheet) if i < sheet.contents.flats as usize => sheet.flat(i),
        _ => FlatRow::EMPTY,
    }
}

// Implication i.
pub fn implication_at(bytes: &[u8], i: usize) -> ImplicationRow
    ensures { implication_of result ≡ implication_read bytes.now i }
{
    match Sheet::read(bytes) {
        Some(sheet) if i < sheet.contents.implications as usize => sheet.implication(i),
        _ => ImplicationRow::EMPTY,
    }
}

// Step i of a derivation.
pub fn step_at(bytes: &[u8], i: usize) -> StepRow
    ensures { step_of result ≡ step_read bytes.now i }
{
    match Sheet::read(bytes) {
        Some(sheet) if !sheet.contents.refuting && i < sheet.contents.rows as usize => {
            sheet.step(i)
        }
        _ => StepRow::EMPTY,
    }
}

// World i of a countermodel.
pub fn world_at(bytes: &[u8], i: usize) -> AtomSet
    ensures { num result ≡ world_read bytes.now i }
{
    match Sheet::read(bytes) {
        Some(sheet) if sheet.contents.refuting && i < sheet.contents.rows as usize => {
            sheet.world(i)
        }
        _ => AtomSet::EMPTY,
    }
}
