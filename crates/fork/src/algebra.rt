// The connectives on sets.
ghost use Rattle.std.specs.Prelude.{◌≡◌, ◌≤◌};
ghost use Rattle.syntax.specs.Parts.{connective_of};
ghost use Rattle.fork.specs.Fork.{whole};
ghost use Rattle.fork.specs.Algebra.{implication};
ghost use Rattle.fork.specs.Cells.{connected_sets};

use super::{SETS, implications, sets};
use syntax::Connective;

fn implication(a: u8, b: u8) -> u8
    requires { (a ≤ whole) × (b ≤ whole) }
    ensures { result ≡ implication a b }
{
    implications::ENTRIES[usize::from(a) * SETS + usize::from(b)]
}

pub fn connected(c: Connective, a: u8, b: u8) -> u8
    requires { (a ≤ whole) × (b ≤ whole) }
    ensures { result ≡ connected_sets (connective_of c) a b }
{
    match c {
        Connective::And => sets::meet(a, b),
        Connective::Or => sets::join(a, b),
        Connective::Implies => implication(a, b),
    }
}
