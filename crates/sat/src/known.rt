// Partial knowledge of a model.
ghost use Rattle.atoms.specs.Words.{num};
ghost use Rattle.sat.specs.Table.{Proper};

use atoms::AtomSet;

// What is known of a model: atoms that it has, and atoms that it lacks; none is both.
#[derive(Clone, Copy, PartialEq, Eq)]
pub struct Partial {
    pub has: AtomSet,
    pub lacks: AtomSet,
    pub ghost fair: { Proper (num has) (num lacks) },
}

impl Partial {
    ghost use Rattle.std.specs.Prelude.{false, ◌≡◌};
    ghost use Rattle.atoms.specs.Sets.{union, meets};
    ghost use Rattle.sat.specs.Knowledge.{PartialIs};

    // With atoms more that are had, none of which is lacked.
    pub fn having(self, x: AtomSet) -> Self
        requires { meets (num self.lacks) (num x) ≡ false }
        ensures { PartialIs result (union (num self.has) (num x)) (num self.lacks) }
    {
        x.bounded();
        Partial {
            has: self.has.join(x),
            lacks: self.lacks,
        }
    }

    // With atoms more that are lacked, none of which is had.
    pub fn lacking(self, x: AtomSet) -> Self
        requires { meets (num self.has) (num x) ≡ false }
        ensures { PartialIs result (num self.has) (union (num self.lacks) (num x)) }
    {
        x.bounded();
        Partial {
            has: self.has,
            lacks: self.lacks.join(x),
        }
    }

    // The atoms that it speaks of.
    pub fn atoms(self) -> AtomSet
        ensures { num result ≡ union (num self.has) (num self.lacks) }
    {
        self.has.join(self.lacks)
    }
}
