// The reader functions, one for each level of the grammar: they call one another through parentheses, and the bytes left fall.
// The passes have judged the text, so an operand stands wherever one is wanted, and few parentheses are open. `depth` counts the `~` and
// `>` that wait for an operand: they stand within one another, so their parts differ, and with too many of them the reading ends at once,
// as it does when the table is full. So the depth of the calls is bounded. The table is lent, so the frames of the recursion are small.
// Spaces behind an operand are passed over where it ends, once and not at each level.
ghost use Rattle.std.specs.Prelude.{◌≤◌, length};
ghost use Rattle.syntax.specs.Descent.{LeafRead, Asks, Gives};
ghost use Rattle.syntax.specs.Grammar.{Level};
ghost use Rattle.syntax.specs.Parts.{entry_of};

use super::{Connective, MOST_NAMES, Part, Parts, bytes};
use bytes::Class;

// An operand that was read: its row in the table, and the position after it.
#[derive(Clone, Copy)]
pub struct Operand {
    pub root: u8,
    pub next: usize,
}

// ⊥ or a letter, which ends at the position.
fn leaf(s: &[u8], at: usize, parts: &mut Parts, part: Part) -> Option<Operand>
    requires { at ≤ length s.now }
    ensures { LeafRead s.now at parts.old (entry_of part) parts.new result }
{
    let root = parts.insert(part)?;
    Some(Operand {
        root,
        next: bytes::past_spaces(s, at),
    })
}

#[cycle(conjunction_disjunction_equivalence_implication_negation)]
pub fn equivalence(s: &[u8], at: usize, parts: &mut Parts, depth: usize) -> Option<Operand>
    requires { Asks Level.equivalence s.now at parts.old depth }
    ensures { Gives Level.equivalence s.now at parts.old depth parts.new result }
{
    let left = implication(s, at, parts, depth)?;
    let Some(next) = bytes::after(s, left.next, Class::Equals) else {
        return Some(left);
    };
    let right = implication(s, next, parts, depth)?;
    Some(Operand {
        root: parts.equivalence(left.root, right.root)?,
        ..right
    })
}

#[cycle(conjunction_disjunction_equivalence_implication_negation)]
fn implication(s: &[u8], at: usize, parts: &mut Parts, depth: usize) -> Option<Operand>
    requires { Asks Level.implication s.now at parts.old depth }
    ensures { Gives Level.implication s.now at parts.old depth parts.new result }
{
    let left = disjunction(s, at, parts, depth)?;
    let Some(next) = bytes::after(s, left.next, Class::Implies) else {
        return Some(left);
    };
    if depth == MOST_NAMES {
        return None;
    }
    let right = implication(s, next, parts, depth + 1)?;
    Some(Operand {
        root: parts.compound(Connective::Implies, left.root, right.root)?,
        ..right
    })
}

#[cycle(conjunction_disjunction_equivalence_implication_negation)]
fn disjunction(s: &[u8], at: usize, parts: &mut Parts, depth: usize) -> Option<Operand>
    requires { Asks Level.disjunction s.now at parts.old depth }
    ensures { Gives Level.disjunction s.now at parts.old depth parts.new result }
{
    let mut whole = conjunction(s, at, parts, depth)?;
    while let Some(next) = bytes::after(s, whole.next, Class::Or) {
        let right = conjunction(s, next, parts, depth)?;
        whole = Operand {
            root: parts.compound(Connective::Or, whole.root, right.root)?,
            ..right
        };
    }
    Some(whole)
}

#[cycle(conjunction_disjunction_equivalence_implication_negation)]
fn conjunction(s: &[u8], at: usize, parts: &mut Parts, depth: usize) -> Option<Operand>
    requires { Asks Level.conjunction s.now at parts.old depth }
    ensures { Gives Level.conjunction s.now at parts.old depth parts.new result }
{
    let mut whole = negation(s, at, parts, depth)?;
    while let Some(next) = bytes::after(s, whole.next, Class::And) {
        let right = negation(s, next, parts, depth)?;
        whole = Operand {
            root: parts.compound(Connective::And, whole.root, right.root)?,
            ..right
        };
    }
    Some(whole)
}

#[cycle(conjunction_disjunction_equivalence_implication_negation)]
fn negation(s: &[u8], at: usize, parts: &mut Parts, depth: usize) -> Option<Operand>
    requires { Asks Level.negation s.now at parts.old depth }
    ensures { Gives Level.negation s.now at parts.old depth parts.new result }
{
    let t = bytes::next_token(s, at);
    match t.class {
        Class::Not => {
            if depth == MOST_NAMES {
                return None;
            }
            let operand = negation(s, t.next, parts, depth + 1)?;
            Some(Operand {
                root: parts.negation(operand.root)?,
                ..operand
            })
        }
        Class::Opening => {
            let inner = equivalence(s, t.next, parts, depth)?;
            let close = bytes::next_token(s, inner.next);
            Some(Operand {
                next: bytes::past_spaces(s, close.next),
                ..inner
            })
        }
        Class::Letter(letter) => leaf(s, t.next, parts, Part::Letter(letter)),
        _ => leaf(s, t.next, parts, Part::Falsum),
    }
}
