// Certificates (document 01: answer sheets): read, judged, and read back.
#![tactic(auto)]

ghost use Rattle.std.specs.Prelude.{◌≡◌};
ghost use Rattle.certificate.specs.Judge.{judge, judge_read, wrong_place};
ghost use Rattle.certificate.specs.Checked.{judgement_of, BeginningChecked, problem_by, claim_by, Ranged, found_at};

use atoms::AtomSet;
use sheet::Sheet;

mod bytes_at;
mod closing_clauses;
mod countermodel;
mod fault;
mod read_back;
mod reader;

pub use fault::Fault;
pub use read_back::{atom_count, flat_at, goal, implication_at, step_at, world_at};

mod derivation;
mod flat_table;
mod layout;
pub mod places;
mod ranges;
mod rows;
mod sheet;

// How many rows each body has, a number of 32 bits as its length is; whether the last one holds worlds or steps.
#[derive(Clone, Copy)]
pub struct Contents {
    pub flats: u32,
    pub implications: u32,
    pub refuting: bool,
    pub rows: u32,
}

// (left, right)
#[derive(Clone, Copy)]
pub struct FlatRow {
    pub left: AtomSet,
    pub right: AtomSet,
}

// (a → b) → c
#[derive(Clone, Copy)]
pub struct ImplicationRow {
    pub a: u8,
    pub b: u8,
    pub c: u8,
}

// The number of an implication, and A.
#[derive(Clone, Copy)]
pub struct StepRow {
    pub number: u8,
    pub assumed: AtomSet,
}

// Judges any bytes.
pub fn check(bytes: &[u8]) -> Result<Contents, Fault>
    ensures { judgement_of bytes.now result ≡ judge bytes.now }
{
    let sheet = Sheet::read(bytes).ok_or(Fault::Layout)?;
    check_bodies(&sheet)
}

// Judges a certificate of which these bytes are the beginning and `more` follow unseen. Layout needs only the contents and the length
// of all bytes; one that is longer than the longest in range has a count over its table.
pub fn check_beginning(bytes: &[u8], more: usize) -> Result<Contents, Fault>
    ensures { BeginningChecked bytes.now more result }
{
    if more == 0 {
        return check(bytes);
    }
    layout::read_beginning(bytes, more).ok_or(Fault::Layout)?;
    Err(Fault::Range)
}

// Judges the bodies.
fn check_bodies(sheet: &Sheet) -> Result<Contents, Fault>
    ensures { judgement_of sheet.now.bytes.now result ≡ judge_read (problem_by sheet.now.bytes.now sheet.now.contents) (claim_by sheet.now.bytes.now sheet.now.contents) }
{
    if !ranges::in_range(sheet) {
        return Err(Fault::Range);
    }
    if !closing_clauses::all_closed(sheet) {
        return Err(Fault::NotClosed);
    }
    match wrong_place(sheet) {
        None => Ok(sheet.contents),
        Some(place) => Err(Fault::Wrong(place)),
    }
}

// The place of what is wrong in the claim. `check_bodies` meets the ranges.
fn wrong_place(sheet: &Sheet) -> Option<usize>
    requires { Ranged sheet.now.bytes.now sheet.now.contents }
    ensures { found_at result ≡ wrong_place (problem_by sheet.now.bytes.now sheet.now.contents) (claim_by sheet.now.bytes.now sheet.now.contents) }
{
    if sheet.contents.refuting {
        countermodel::wrong_world(sheet)
    } else {
        derivation::wrong_step(sheet)
    }
}
