// Every implication has its closing clause among the flat clauses (refusal 15).
ghost use Rattle.std.specs.Prelude.{◌≡◌};
ghost use Rattle.atoms.specs.Words.{num};
ghost use Rattle.atoms.specs.Sets.{limit};
ghost use Rattle.std.proofs.Math.Dec.{T};
ghost use Rattle.ipl.specs.Lists.{any};
ghost use Rattle.ipl.specs.Clause.{same_flat, closed};
ghost use Rattle.ipl.specs.Range.{implication_in_range};
ghost use Rattle.certificate.specs.Layout.{flats_in};
ghost use Rattle.certificate.specs.Judge.{all_closed};
ghost use Rattle.certificate.specs.ReadBack.{flat_of, implication_of};
ghost use Rattle.certificate.specs.Checked.{Ranged, problem_by};

use super::sheet::Sheet;
use super::{FlatRow, ImplicationRow};
use atoms::AtomSet;

// Whether a flat clause has these sides.
#[tactic(auto, unfolding(ipl::specs::Clause::same_flat), using(atoms::proofs::Machine::same_sets))]
fn is_flat(f: FlatRow, left: AtomSet, right: AtomSet) -> bool
    ensures { result ≡ same_flat (record { left = num left; right = num right }) (flat_of f) }
{
    left == f.left && right == f.right
}

// Whether the flat clauses have one with these sides.
fn has_flat(sheet: &Sheet, left: AtomSet, right: AtomSet) -> bool
    ensures { result ≡ any (same_flat (record { left = num left; right = num right })) (flats_in sheet.now.bytes.now sheet.now.contents.flats) }
{
    (0..sheet.contents.flats as usize).any(|i| is_flat(sheet.flat(i), left, right))
}

// Whether an implication has its closing clause. `all_closed` meets the range.
fn is_closed(sheet: &Sheet, x: ImplicationRow) -> bool
    requires { T (implication_in_range limit (implication_of x)) }
    ensures { result ≡ closed (flats_in sheet.now.bytes.now sheet.now.contents.flats) (implication_of x) }
{
    x.b == ipl::BOTTOM || has_flat(sheet, AtomSet::single(x.b), AtomSet::single(x.c))
}

// `check_bodies` meets the ranges.
pub fn all_closed(sheet: &Sheet) -> bool
    requires { Ranged sheet.now.bytes.now sheet.now.contents }
    ensures { result ≡ all_closed (problem_by sheet.now.bytes.now sheet.now.contents) }
{
    (0..sheet.contents.implications as usize).all(|i| is_closed(sheet, sheet.implication(i)))
}
