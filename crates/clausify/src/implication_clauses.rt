// The implication clauses of a formula's names.
ghost use Rattle.std.specs.Prelude.{◌≡◌, ◌<◌};
ghost use Rattle.ipl.specs.Range.{implication_table};
ghost use Rattle.prover.specs.State.{implications_of};
ghost use Rattle.syntax.specs.Parts.{connective_of, entry_of, held};
ghost use Rattle.clausify.specs.Naming.{part_calls, calls};
ghost use Rattle.clausify.specs.Additions.{implications_by};
ghost use Rattle.clausify.specs.Writing.{Appended, entry_calls, PartsIn, Nameable};

use super::naming::Names;
use ipl::BOTTOM;
use prover::{Implication, Implications};
use syntax::{Connective, Part, Parts};

// The implication of y > z, (y → z) → x, where y is not ⊥. Its caller has seen that there is room.
fn put_part(t: &mut Implications, c: Connective, x: u8, y: u8, z: u8)
    requires { t.old.count < implication_table }
    ensures { Appended t.old (implications_by (part_calls (connective_of c) x y z)) t.new }
{
    match c {
        Connective::And | Connective::Or => {}
        Connective::Implies => {
            if y != BOTTOM {
                let at = t.count;
                t.rows[at] = Implication { a: y, b: z, c: x };
                t.count = at + 1;
            }
        }
    }
}

fn put_entry(t: &mut Implications, part: Part, x: u8, names: &Names)
    requires { (t.old.count < implication_table) × PartsIn names.now.atoms x (entry_of part) }
    ensures { Appended t.old (implications_by (entry_calls names.now.atoms x (entry_of part))) t.new }
{
    match part {
        Part::Letter(_) | Part::Falsum => {}
        Part::Compound(c, y, z) => put_part(
            t,
            c,
            x,
            names.atoms[usize::from(y)],
            names.atoms[usize::from(z)],
        ),
    }
}

// Those of every name, in order.
pub fn implications_of(parts: &Parts, names: &Names) -> Implications
    requires { Nameable parts.now names.now }
    ensures { implications_of result ≡ implications_by (calls (held parts.now)) }
{
    let mut t = Implications {
        count: 0,
        rows: [Implication { a: 0, b: 0, c: 0 }; ipl::IMPLICATIONS],
    };
    for i in 0..usize::from(parts.count) {
        put_entry(&mut t, parts.nodes[i], names.atoms[i], names);
    }
    t
}
