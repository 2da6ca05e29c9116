// Refusal 3: no formula. One pass, without recursion, finds the place: an `=` fits once at a level, so a bit is kept for each.
ghost use Rattle.std.specs.Prelude.{true, false, ◌≡◌, ◌<◌};
ghost use Rattle.syntax.specs.Class.{closing, equals, opening};
ghost use Rattle.syntax.specs.Code.{decode};
ghost use Rattle.syntax.specs.Refusal.{most_open, TooDeep};
ghost use Rattle.syntax.specs.Scan.{Scanned, MayOpen, move, state_of, turn_state, level_state};

use super::bytes;
use atoms::AtomSet;
use bytes::Class;

// Each open parenthesis has a level, and so has the text outside them. Whether an `=` has stood at the innermost; how many
// parentheses are open; and the levels around it, from 0 outside, at which one has stood.
#[derive(Clone, Copy)]
struct Levels {
    equated: bool,
    depth: u8,
    outer: AtomSet,
}

impl Levels {
    // A new level; the one left is kept for the parenthesis that closes.
    fn opened(self) -> Self
        requires { self.depth < most_open }
        ensures { state_of true result ≡ move (state_of true self) opening }
    {
        let left = AtomSet::single(self.depth);
        let outer = if self.equated {
            self.outer.join(left)
        } else {
            self.outer.without(left)
        };
        Levels {
            equated: false,
            depth: self.depth + 1,
            outer,
        }
    }

    // The level around, as it was left.
    fn closed(self) -> Option<Self>
        ensures { level_state false result ≡ move (state_of false self) closing }
    {
        let depth = self.depth.checked_sub(1)?;
        Some(Levels {
            equated: self.outer.has(depth),
            depth,
            ..self
        })
    }

    // An `=` stands at the innermost level, where none has stood.
    fn equated(self) -> Option<Self>
        ensures { level_state true result ≡ move (state_of false self) equals }
    {
        if self.equated {
            return None;
        }
        Some(Levels {
            equated: true,
            ..self
        })
    }
}

// Whether an operand is wanted after a token, and the levels; none where it does not fit. A space changes nothing. The classes are
// compared one after the other: of a match on them the compiler would make a table.
fn step(operand: bool, levels: Levels, class: Class) -> Option<(bool, Levels)>
    requires { MayOpen levels (decode class) }
    ensures { turn_state result ≡ move (state_of operand levels) (decode class) }
{
    if class == Class::Blank {
        return Some((operand, levels));
    }
    if operand {
        if class == Class::Not {
            return Some((true, levels));
        }
        if class == Class::Opening {
            return Some((true, levels.opened()));
        }
        if matches!(class, Class::Falsum | Class::Letter(_)) {
            return Some((false, levels));
        }
        return None;
    }
    if class == Class::Closing {
        return Some((false, levels.closed()?));
    }
    if class == Class::Equals {
        return Some((true, levels.equated()?));
    }
    if matches!(class, Class::And | Class::Or | Class::Implies) {
        return Some((true, levels));
    }
    None
}

// How many bytes begin a formula, where the text is none. The reader has judged the depth.
pub fn fault(s: &[u8]) -> Option<usize>
    requires { ¬ TooDeep s.now }
    ensures { Scanned s.now result }
{
    let mut operand = true;
    let mut levels = Levels {
        equated: false,
        depth: 0,
        outer: AtomSet::EMPTY,
    };
    for i in 0..s.len() {
        match step(operand, levels, bytes::class_of(s[i])) {
            Some((next, around)) => {
                operand = next;
                levels = around;
            }
            None => return Some(i),
        }
    }
    if operand || levels.depth != 0 {
        return Some(s.len());
    }
    None
}
