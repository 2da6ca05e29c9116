// Worlds: they differ, each includes the first, satisfies the flat clauses and realizes each implication, and the first lacks
// the goal.
ghost use Rattle.std.specs.Prelude.{true, ◌≡◌, ◌≤◌, ◌<◌, eqb, take};
ghost use Rattle.atoms.specs.Words.{num};
ghost use Rattle.ipl.specs.Lists.{all, any};
ghost use Rattle.ipl.specs.Clause.{beyond, realizes};
ghost use Rattle.certificate.specs.Certificate.{refuted};
ghost use Rattle.certificate.specs.Judge.{world_right, wrong_place};
ghost use Rattle.certificate.specs.ReadBack.{implication_of};
ghost use Rattle.certificate.specs.Checked.{Ranged, problem_by, worlds_by, WorldsReady, found_at};

use super::ImplicationRow;
use super::flat_table::load_flats;
use super::sheet::Sheet;
use atoms::AtomSet;

// Whether u strictly includes m, has a and lacks b.
#[tactic(auto, unfolding(ipl::specs::Clause::beyond), using(atoms::proofs::Machine::same_sets))]
fn is_beyond(x: ImplicationRow, m: AtomSet, u: AtomSet) -> bool
    ensures { result ≡ beyond (implication_of x) (num m) (num u) }
{
    m.within(u) && m != u && u.has(x.a) && !u.has(x.b)
}

// Whether a world is beyond m.
fn has_beyond(sheet: &Sheet, x: ImplicationRow, m: AtomSet) -> bool
    ensures { result ≡ any (beyond (implication_of x) (num m)) (worlds_by sheet.now.bytes.now sheet.now.contents) }
{
    (0..sheet.contents.rows as usize).any(|i| is_beyond(x, m, sheet.world(i)))
}

// Whether m realizes the implication within the worlds.
#[tactic(auto, unfolding(ipl::specs::Clause::realizes))]
fn is_realized(sheet: &Sheet, x: ImplicationRow, m: AtomSet) -> bool
    ensures { result ≡ realizes (worlds_by sheet.now.bytes.now sheet.now.contents) (num m) (implication_of x) }
{
    m.has(x.a) || m.has(x.b) || m.has(x.c) || has_beyond(sheet, x, m)
}

// Whether m realizes each implication.
fn each_realized(sheet: &Sheet, m: AtomSet) -> bool
    ensures { result ≡ all (realizes (worlds_by sheet.now.bytes.now sheet.now.contents) (num m)) (problem_by sheet.now.bytes.now sheet.now.contents).implications }
{
    (0..sheet.contents.implications as usize).all(|i| is_realized(sheet, sheet.implication(i), m))
}

// Whether m is one of the first `count` worlds.
fn is_listed(sheet: &Sheet, count: usize, m: AtomSet) -> bool
    requires { count ≤ sheet.now.contents.rows }
    ensures { result ≡ any (eqb (num m)) (take count (worlds_by sheet.now.bytes.now sheet.now.contents)) }
{
    (0..count).any(|i| m == sheet.world(i))
}

// Whether world i is right. `judge_worlds` meets the rest.
fn is_right(sheet: &Sheet, i: usize, left: &[u64], right: &[u64]) -> bool
    requires { WorldsReady sheet.now.bytes.now sheet.now.contents left.now right.now × (i < sheet.now.contents.rows) }
    ensures { result ≡ world_right (problem_by sheet.now.bytes.now sheet.now.contents) (worlds_by sheet.now.bytes.now sheet.now.contents) i }
{
    let m = sheet.world(i);
    !is_listed(sheet, i, m)
        && sheet.world(0).within(m)
        && sat::all_hold(left, right, sheet.contents.flats as usize, m)
        && each_realized(sheet, m)
        && !(i == 0 && m.has(sheet.goal()))
}

fn judge_worlds(sheet: &Sheet, left: &[u64], right: &[u64]) -> Option<usize>
    requires { WorldsReady sheet.now.bytes.now sheet.now.contents left.now right.now }
    ensures { found_at result ≡ wrong_place (problem_by sheet.now.bytes.now sheet.now.contents) (refuted (worlds_by sheet.now.bytes.now sheet.now.contents)) }
{
    (0..sheet.contents.rows as usize).find(|i| !is_right(sheet, *i, left, right))
}

// The first wrong world. `wrong_place` meets the ranges.
pub fn wrong_world(sheet: &Sheet) -> Option<usize>
    requires { Ranged sheet.now.bytes.now sheet.now.contents × (sheet.now.contents.refuting ≡ true) }
    ensures { found_at result ≡ wrong_place (problem_by sheet.now.bytes.now sheet.now.contents) (refuted (worlds_by sheet.now.bytes.now sheet.now.contents)) }
{
    let mut left = [0u64; ipl::FLATS * atoms::WORDS];
    let mut right = [0u64; ipl::FLATS * atoms::WORDS];
    load_flats(sheet, &mut left, &mut right);
    judge_worlds(sheet, &left, &right)
}
