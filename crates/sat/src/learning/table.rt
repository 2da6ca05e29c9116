// The longer table.
ghost use Rattle.std.specs.Prelude.{◌≤◌};

use super::super::clauses::{Clause, Clauses};
use super::ROWS;

// The clauses of a question stand in its first `own` rows, and behind them rows that follow, `total` in all.
#[derive(Drop)]
pub struct Table {
    pub left: [u64; ROWS * atoms::WORDS],
    pub right: [u64; ROWS * atoms::WORDS],
    pub own: usize,
    pub total: usize,
    pub ghost enough: { own ≤ total },
}

impl Table {
    ghost use Rattle.std.specs.Prelude.{◌≡◌};
    ghost use Rattle.sat.specs.Rows.{RowIs};

    // Row c; past the end, the empty clause.
    pub fn row(&self, c: usize) -> Clause
        ensures { RowIs self.now.left self.now.right c result }
    {
        Clause {
            left: atoms::row(&self.left, c),
            right: atoms::row(&self.right, c),
        }
    }

    // Its rows as a table lent.
    pub fn clauses(&self) -> Clauses<'_>
        ensures left { result.left.now ≡ self.now.left }
        ensures right { result.right.now ≡ self.now.right }
        ensures count { result.count ≡ self.now.total }
    {
        Clauses {
            left: &self.left,
            right: &self.right,
            count: self.total,
        }
    }
}
