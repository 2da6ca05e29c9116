// Every number and count in range (refusal 14).
ghost use Rattle.std.specs.Prelude.{false, true, ◌≡◌};
ghost use Rattle.ipl.specs.Lists.{all};
ghost use Rattle.ipl.specs.Range.{set_in_range, flat_in_range, implication_in_range};
ghost use Rattle.ipl.specs.Search.{step_in_range};
ghost use Rattle.certificate.specs.Format.{implication_start};
ghost use Rattle.certificate.specs.Layout.{flats_in, implications_in};
ghost use Rattle.certificate.specs.Judge.{claim_in_range, counts_in_range, in_range};
ghost use Rattle.certificate.specs.Checked.{problem_by, claim_by, steps_by, worlds_by};

use super::Contents;
use super::sheet::Sheet;

fn flats_in_range(sheet: &Sheet, n: u8) -> bool
    ensures { result ≡ all (flat_in_range n) (flats_in sheet.now.bytes.now sheet.now.contents.flats) }
{
    (0..sheet.contents.flats as usize).all(|i| {
        let f = sheet.flat(i);
        ipl::flat_in_range(n, f.left, f.right)
    })
}

fn implications_in_range(sheet: &Sheet, n: u8) -> bool
    ensures { result ≡ all (implication_in_range n) (implications_in sheet.now.bytes.now (implication_start sheet.now.contents.flats) sheet.now.contents.implications) }
{
    (0..sheet.contents.implications as usize).all(|i| {
        let x = sheet.implication(i);
        ipl::implication_in_range(n, x.a, x.b, x.c)
    })
}

fn steps_in_range(sheet: &Sheet, n: u8) -> bool
    requires { sheet.now.contents.refuting ≡ false }
    ensures { result ≡ all (step_in_range n sheet.now.contents.implications) (steps_by sheet.now.bytes.now sheet.now.contents) }
{
    let implications = sheet.contents.implications as usize;
    (0..sheet.contents.rows as usize).all(|i| {
        let s = sheet.step(i);
        ipl::step_in_range(n, implications, s.number, s.assumed)
    })
}

fn worlds_in_range(sheet: &Sheet, n: u8) -> bool
    ensures { result ≡ all (set_in_range n) (worlds_by sheet.now.bytes.now sheet.now.contents) }
{
    (0..sheet.contents.rows as usize).all(|i| ipl::set_in_range(n, sheet.world(i)))
}

fn claim_in_range(sheet: &Sheet, n: u8) -> bool
    ensures { result ≡ claim_in_range n sheet.now.contents.implications (claim_by sheet.now.bytes.now sheet.now.contents) }
{
    let count = sheet.contents.rows as usize;
    if sheet.contents.refuting {
        count <= ipl::WORLDS && worlds_in_range(sheet, n)
    } else {
        count <= ipl::STEPS && steps_in_range(sheet, n)
    }
}

// n and the counts of the clauses.
#[tactic(auto, unfolding(crate::specs::Judge::counts_in_range))]
fn counts_in_range(n: u8, k: Contents) -> bool
    ensures { result ≡ counts_in_range n k.flats k.implications }
{
    ipl::count_in_range(n)
        && k.flats as usize <= ipl::FLATS
        && k.implications as usize <= ipl::IMPLICATIONS
}

#[tactic(auto, using(crate::proofs::Numbers::range_tests))]
pub fn in_range(sheet: &Sheet) -> bool
    ensures { result ≡ in_range (problem_by sheet.now.bytes.now sheet.now.contents) (claim_by sheet.now.bytes.now sheet.now.contents) }
{
    let n = sheet.atom_count();
    counts_in_range(n, sheet.contents)
        && ipl::atom_or_bottom(n, sheet.goal())
        && flats_in_range(sheet, n)
        && implications_in_range(sheet, n)
        && claim_in_range(sheet, n)
}
