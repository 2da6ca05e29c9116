// Derivation steps: each is right after those before it, and all prove the goal.
ghost use Rattle.std.specs.Prelude.{false, ◌≡◌};
ghost use Rattle.certificate.specs.Certificate.{valid};
ghost use Rattle.certificate.specs.Judge.{wrong_place};
ghost use Rattle.certificate.specs.Checked.{Ranged, problem_by, steps_by, StepsReady, StepReady, StepJudged, found_at};

use super::flat_table::load_flats;
use super::sheet::Sheet;
use atoms::AtomSet;

// Rows learned that are kept from step to step.
const KEPT: usize = 1024;

// Judges step i by the clauses before it, and puts its clause after them. The rows kept follow from them, before and after.
fn judge_step(
    sheet: &Sheet,
    i: usize,
    left: &mut [u64],
    right: &mut [u64],
    kept: &mut [u64],
    learned: usize,
) -> sat::Proof
    requires { StepReady sheet.now.bytes.now sheet.now.contents i left.old right.old kept.old learned }
    ensures { StepJudged sheet.now.bytes.now sheet.now.contents i left.old right.old left.new right.new kept.new result }
{
    let step = sheet.step(i);
    let x = sheet.implication(usize::from(step.number));
    let last = sheet.contents.flats as usize + i;
    let proof = sat::proves(
        left,
        right,
        last,
        sheet.atom_count(),
        step.assumed,
        x.b,
        kept,
        learned,
    );
    atoms::set_row(left, last, step.assumed.without(AtomSet::single(x.a)));
    atoms::set_row(right, last, AtomSet::single(x.c));
    proof
}

// Each step in order, then the goal. `wrong_step` loads the flat clauses.
fn judge_steps(
    sheet: &Sheet,
    left: &mut [u64],
    right: &mut [u64],
    kept: &mut [u64],
) -> Option<usize>
    requires { StepsReady sheet.now.bytes.now sheet.now.contents left.old right.old }
    ensures { found_at result ≡ wrong_place (problem_by sheet.now.bytes.now sheet.now.contents) (valid (steps_by sheet.now.bytes.now sheet.now.contents)) }
{
    let count = sheet.contents.rows as usize;
    let mut learned = 0;
    for i in 0..count {
        let step = judge_step(sheet, i, left, right, kept, learned);
        if !step.proved {
            return Some(i);
        }
        learned = step.kept;
    }
    let proof = sat::proves(
        left,
        right,
        sheet.contents.flats as usize + count,
        sheet.atom_count(),
        AtomSet::EMPTY,
        sheet.goal(),
        kept,
        learned,
    );
    if proof.proved { None } else { Some(count) }
}

// The first wrong step; the number of steps where only the goal fails. `wrong_place` meets the ranges.
pub fn wrong_step(sheet: &Sheet) -> Option<usize>
    requires { Ranged sheet.now.bytes.now sheet.now.contents × (sheet.now.contents.refuting ≡ false) }
    ensures { found_at result ≡ wrong_place (problem_by sheet.now.bytes.now sheet.now.contents) (valid (steps_by sheet.now.bytes.now sheet.now.contents)) }
{
    let mut left = [0u64; ipl::KNOWN * atoms::WORDS];
    let mut right = [0u64; ipl::KNOWN * atoms::WORDS];
    load_flats(sheet, &mut left, &mut right);
    let mut kept = [0u64; 2 * KEPT * atoms::WORDS];
    judge_steps(sheet, &mut left, &mut right, &mut kept)
}
