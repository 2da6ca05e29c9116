// The table of parts: each part has one row, made where the first like it is complete.
use super::{Connective, PARTS, Part, Parts};

impl Parts {
    ghost use Rattle.std.specs.Prelude.{◌≡◌, map, take};
    ghost use Rattle.syntax.specs.Letters.{letter_count};
    ghost use Rattle.syntax.specs.Nodes.{named, falsum, compound, Once, with_entry};
    ghost use Rattle.syntax.specs.Parts.{connective_of, entry_of, held, Empty};
    ghost use Rattle.syntax.specs.Table.{Found, Names, with_negation, with_equivalence};

    pub(crate) fn new() -> Self
        ensures { Empty result }
    {
        Parts {
            nodes: [Part::Falsum; PARTS],
            count: 0,
        }
    }

    fn rows(&self) -> &[Part]
        ensures { map entry_of result.now ≡ held self.now }
    {
        &self.nodes[..usize::from(self.count)]
    }

    // The row of a part.
    fn find(&self, part: Part) -> Option<u8>
        ensures { Found (held self.now) (entry_of part) result }
    {
        for i in 0..self.count {
            if self.nodes[usize::from(i)] == part {
                return Some(i);
            }
        }
        None
    }

    // A part by its row, found again or new; none where the table has no room for it, and the reading ends.
    pub(crate) fn insert(&mut self, part: Part) -> Option<u8>
        ensures { Names (with_entry (held self.old) (entry_of part)) self.new result }
    {
        if let Some(row) = self.find(part) {
            return Some(row);
        }
        let row = self.count;
        let i = usize::from(row);
        if i == PARTS {
            return None;
        }
        self.nodes[i] = part;
        self.count = row + 1;
        Some(row)
    }

    // Not inlined: a part of which a piece is known would be made of constant data.
    #[inline(never)]
    pub(crate) fn compound(&mut self, c: Connective, left: u8, right: u8) -> Option<u8>
        ensures { Names (with_entry (held self.old) (compound (connective_of c) left right)) self.new result }
    {
        self.insert(Part::Compound(c, left, right))
    }

    // `~p` as p > 0.
    pub(crate) fn negation(&mut self, p: u8) -> Option<u8>
        ensures { Names (with_negation (held self.old) p) self.new result }
    {
        let falsum = self.insert(Part::Falsum)?;
        self.compound(Connective::Implies, p, falsum)
    }

    // p = q as (p > q) & (q > p).
    pub(crate) fn equivalence(&mut self, p: u8, q: u8) -> Option<u8>
        ensures { Names (with_equivalence p (held self.old) q) self.new result }
    {
        let there = self.compound(Connective::Implies, p, q)?;
        let back = self.compound(Connective::Implies, q, p)?;
        self.compound(Connective::And, there, back)
    }

    // Letters and names: every row but that of ⊥.
    pub(crate) fn names(&self) -> usize
        requires { Once (held self.now) }
        ensures { result ≡ named (held self.now) }
    {
        let rows = usize::from(self.count);
        match self.find(Part::Falsum) {
            Some(_) => rows - 1,
            None => rows,
        }
    }

    // How many letters a formula has: each has one row.
    pub(crate) fn letters(&self) -> u8
        ensures { result ≡ letter_count (held self.now) }
    {
        let mut letters = 0;
        for part in self.rows() {
            letters += super::letters_in(*part);
        }
        letters
    }
}
