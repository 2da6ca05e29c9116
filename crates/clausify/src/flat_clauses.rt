// The flat clauses of a formula's names.
ghost use Rattle.std.specs.Prelude.{◌≡◌, ◌<◌, [], ◌∷◌};
ghost use Rattle.atoms.specs.Words.{num};
ghost use Rattle.ipl.specs.Range.{flat_table};
ghost use Rattle.prover.specs.Calls.{flat_of};
ghost use Rattle.prover.specs.State.{flats_of};
ghost use Rattle.syntax.specs.Nodes.{And, Or, Implies};
ghost use Rattle.syntax.specs.Parts.{connective_of, entry_of, held};
ghost use Rattle.clausify.specs.Naming.{set_of, clause, part_calls, calls};
ghost use Rattle.clausify.specs.Additions.{flats_by};
ghost use Rattle.clausify.specs.Writing.{AtomsIn, Put, Room, entry_calls, EntryRoom, Nameable};

use super::naming::Names;
use atoms::AtomSet;
use ipl::BOTTOM;
use prover::Flats;
use syntax::{Connective, Part, Parts};

// The set of these atoms, without ⊥.
fn set_of(atoms: &[u8]) -> AtomSet
    requires { AtomsIn atoms.now }
    ensures { num result ≡ set_of atoms.now }
{
    let mut set = AtomSet::EMPTY;
    for x in atoms {
        set = set.join(AtomSet::single(*x));
    }
    set
}

// One clause more. Its callers have seen that there is room.
fn push(flats: &mut Flats, left: AtomSet, right: AtomSet)
    requires { flats.old.count < flat_table }
    ensures { Put flats.old (flat_of left right ∷ []) flats.new }
{
    let at = flats.count;
    atoms::set_row(&mut flats.left, at, left);
    atoms::set_row(&mut flats.right, at, right);
    flats.count = at + 1;
}

// The clause left → right; one with ⊥ on its left is not held.
fn put(flats: &mut Flats, left: &[u8], right: &[u8])
    requires { (flats.old.count < flat_table) × AtomsIn left.now × AtomsIn right.now }
    ensures { Put flats.old (flats_by (clause left.now right.now)) flats.new }
{
    if !left.contains(&BOTTOM) {
        push(flats, set_of(left), set_of(right));
    }
}

// y & z: {x}→{y}, {x}→{z}, {y,z}→{x}.
fn put_and(flats: &mut Flats, x: u8, y: u8, z: u8)
    requires { Room flats.old x y z }
    ensures { Put flats.old (flats_by (part_calls And x y z)) flats.new }
{
    put(flats, &[x], &[y]);
    put(flats, &[x], &[z]);
    put(flats, &[y, z], &[x]);
}

// y | z: {x}→{y,z}, {y}→{x}, {z}→{x}.
fn put_or(flats: &mut Flats, x: u8, y: u8, z: u8)
    requires { Room flats.old x y z }
    ensures { Put flats.old (flats_by (part_calls Or x y z)) flats.new }
{
    put(flats, &[x], &[y, z]);
    put(flats, &[y], &[x]);
    put(flats, &[z], &[x]);
}

// y > z: {x,y}→{z} and the closing clause {z}→{x}; if y is ⊥, only {}→{x}.
fn put_implies(flats: &mut Flats, x: u8, y: u8, z: u8)
    requires { Room flats.old x y z }
    ensures { Put flats.old (flats_by (part_calls Implies x y z)) flats.new }
{
    if y == BOTTOM {
        put(flats, &[], &[x]);
    } else {
        put(flats, &[x, y], &[z]);
        let closing = [z];
        put(flats, &closing, &[x]);
    }
}

fn put_part(flats: &mut Flats, c: Connective, x: u8, y: u8, z: u8)
    requires { Room flats.old x y z }
    ensures { Put flats.old (flats_by (part_calls (connective_of c) x y z)) flats.new }
{
    match c {
        Connective::And => put_and(flats, x, y, z),
        Connective::Or => put_or(flats, x, y, z),
        Connective::Implies => put_implies(flats, x, y, z),
    }
}

// The clauses of one part, whose atom is x: none of a letter or ⊥.
fn put_entry(flats: &mut Flats, part: Part, x: u8, names: &Names)
    requires { EntryRoom flats.old x names.now.atoms (entry_of part) }
    ensures { Put flats.old (flats_by (entry_calls names.now.atoms x (entry_of part))) flats.new }
{
    match part {
        Part::Letter(_) | Part::Falsum => {}
        Part::Compound(c, y, z) => put_part(
            flats,
            c,
            x,
            names.atoms[usize::from(y)],
            names.atoms[usize::from(z)],
        ),
    }
}

// Those of every name, in order.
pub fn flats_of(parts: &Parts, names: &Names) -> Flats
    requires { Nameable parts.now names.now }
    ensures { flats_of result ≡ flats_by (calls (held parts.now)) }
{
    let mut flats = Flats {
        count: 0,
        left: [0; ipl::FLATS * atoms::WORDS],
        right: [0; ipl::FLATS * atoms::WORDS],
    };
    for i in 0..usize::from(parts.count) {
        put_entry(&mut flats, parts.nodes[i], names.atoms[i], names);
    }
    flats
}
