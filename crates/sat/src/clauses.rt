// Tables of clauses, lent by the caller.
ghost use Rattle.std.specs.Prelude.{◌≡◌, false, ◌<◌, ◌≤◌};
ghost use Rattle.atoms.specs.Sets.{union, common, minus};
ghost use Rattle.atoms.specs.Words.{num, row_count};
ghost use Rattle.ipl.specs.Clause.{satisfies};
ghost use Rattle.sat.specs.Rows.{RowIs, Missed};

use super::known::Partial;
use atoms::AtomSet;

// A clause: where all atoms of its left side hold, one of its right side does.
#[derive(Clone, Copy)]
pub struct Clause {
    pub left: AtomSet,
    pub right: AtomSet,
}

impl Clause {
    // Whether it is true at m: m lacks an atom of its left side, or has one of its right.
    pub fn holds(self, m: AtomSet) -> bool
        ensures { result ≡ satisfies (num m) (record { left = num self.left; right = num self.right }) }
    {
        !self.left.without(m).join(self.right.common(m)).is_empty()
    }

    pub fn atoms(self) -> AtomSet
        ensures { num result ≡ union (num self.left) (num self.right) }
    {
        self.left.join(self.right)
    }

    // The atoms by which it is true under p.
    pub fn settled(self, p: Partial) -> AtomSet
        ensures { num result ≡ union (common (num self.left) (num p.lacks)) (common (num self.right) (num p.has)) }
    {
        self.left.common(p.lacks).join(self.right.common(p.has))
    }

    // What p leaves open of it, where it is not true under p.
    pub fn open(self, p: Partial) -> Clause
        ensures left { num result.left ≡ minus (num self.left) (num p.has) }
        ensures right { num result.right ≡ minus (num self.right) (num p.lacks) }
    {
        Clause {
            left: self.left.without(p.has),
            right: self.right.without(p.lacks),
        }
    }
}

// The first `count` clauses of a table, lent as two columns of sets.
#[derive(Clone, Copy)]
pub struct Clauses<'a> {
    pub left: &'a [u64],
    pub right: &'a [u64],
    pub count: usize,
}

impl Clauses<'_> {
    // Row i; past the end, the empty clause.
    pub fn row(self, i: usize) -> Clause
        ensures { RowIs self.entry.left.now self.entry.right.now i result }
    {
        Clause {
            left: atoms::row(self.left, i),
            right: atoms::row(self.right, i),
        }
    }

    // Whether it holds the clauses counted.
    pub fn is_whole(self) -> bool {
        self.count <= atoms::rows(self.left) && self.count <= atoms::rows(self.right)
    }

    // The first row from `from` on that is looked for, or the end; none is passed over in a table too short.
    pub fn first<F: Fn(Clause) -> bool>(self, from: usize, is_it: F) -> usize
        requires { F.IsAlwaysCallable is_it }
        ensures { Missed (F.post is_it) self.entry from result }
    {
        if !self.is_whole() {
            return from;
        }
        for i in from..self.count {
            if is_it(self.row(i)) {
                return i;
            }
        }
        from.max(self.count)
    }
}
