// Which implications a world realizes, and the first pair of a world and an implication that is not realized.
ghost use Rattle.std.specs.Prelude.{false, ◌≡◌, ℕ, ◌≤◌, ◌<◌};
ghost use Rattle.atoms.specs.Sets.{limit, has};
ghost use Rattle.atoms.specs.Words.{num};
ghost use Rattle.ipl.specs.Lists.{any};
ghost use Rattle.ipl.specs.Clause.{beyond, realizes};
ghost use Rattle.ipl.specs.Range.{implication_table};
ghost use Rattle.prover.specs.State.{implication_of, worlds_of};
ghost use Rattle.prover.specs.Working.{FirstAtoms, FirstAt, NextPair};

use super::{Implication, Implications, Worlds};
use atoms::AtomSet;

// A world by its place, and an implication by its number.
#[derive(Clone, Copy)]
pub struct Pair {
    pub world: usize,
    pub implication: usize,
}

impl Pair {
    pub const FIRST: Pair = Pair {
        world: 0,
        implication: 0,
    };
}

// u strictly includes m, has i's a and lacks its b. Where m lacks a, one test says it all.
fn is_beyond(m: AtomSet, u: AtomSet, i: Implication) -> bool
    requires { (i.a < limit) × (has (num m) i.a ≡ false) }
    ensures { result ≡ beyond (implication_of i) (num m) (num u) }
{
    u.bounded();
    let wanted = m.join(AtomSet::single(i.a));
    let avoided = AtomSet::single(i.b);
    wanted.without(u).join(avoided.common(u)).is_empty()
}

// Some world is beyond m; most often a late one is.
fn any_beyond(worlds: &Worlds, m: AtomSet, i: Implication) -> bool
    requires { (i.a < limit) × (has (num m) i.a ≡ false) }
    ensures { result ≡ any (beyond (implication_of i) (num m)) (worlds_of worlds.now) }
{
    for k in (0..worlds.count).rev() {
        if is_beyond(m, atoms::row(&worlds.sets, k), i) {
            return true;
        }
    }
    false
}

// m realizes i within the worlds.
fn realized(worlds: &Worlds, m: AtomSet, i: Implication) -> bool
    requires { i.a < limit }
    ensures { result ≡ realizes (worlds_of worlds.now) (num m) (implication_of i) }
{
    m.bounded();
    let own = AtomSet::single(i.a)
        .join(AtomSet::single(i.b))
        .join(AtomSet::single(i.c));
    own.meets(m) || any_beyond(worlds, m, i)
}

// The first implication from `from` on that world number w does not realize.
fn first_at(worlds: &Worlds, w: usize, x: &Implications, from: usize) -> Option<usize>
    requires { (from ≤ x.now.count) × (x.now.count ≤ implication_table) × FirstAtoms x.now }
    ensures { FirstAt worlds.now w x.now from result }
{
    let m = atoms::row(&worlds.sets, w);
    for i in from..x.count {
        if !realized(worlds, m, x.rows[i]) {
            return Some(i);
        }
    }
    None
}

// The first pair from p on that is not realized.
pub fn next_pair(worlds: &Worlds, x: &Implications, p: Pair) -> Option<Pair>
    requires { (p.implication ≤ x.now.count) × (p.world ≤ worlds.now.count) × (x.now.count ≤ implication_table) × FirstAtoms x.now }
    ensures { NextPair worlds.now x.now p result }
{
    let mut from = p.implication;
    for world in p.world..worlds.count {
        if let Some(implication) = first_at(worlds, world, x, from) {
            return Some(Pair { world, implication });
        }
        from = 0;
    }
    None
}
