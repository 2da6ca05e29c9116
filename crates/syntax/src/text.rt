// The reader: the first refusal that a text meets, or the parts of its formula.
ghost use Rattle.std.specs.Prelude.{◌≡◌};
ghost use Rattle.syntax.specs.Answer.{Answers};
ghost use Rattle.syntax.specs.Letters.{letters_in};
ghost use Rattle.syntax.specs.Parts.{entry_of};

use super::{MOST_BYTES, MOST_NAMES, Part, Parts, Reading, descent, parentheses, scan};
use refusal::Refusal;

// A letter is one, and no other part is.
pub fn letters_in(part: Part) -> u8
    ensures { result ≡ letters_in (entry_of part) }
{
    match part {
        Part::Letter(_) => 1,
        Part::Falsum => 0,
        Part::Compound(_, _, _) => 0,
    }
}

// Reads a text. Refused 1, 2, 3 (with its place), 4.
pub fn read(text: &[u8]) -> Result<Reading, Refusal>
    ensures { Answers text.now result }
{
    if text.is_empty() || MOST_BYTES < text.len() {
        return Err(Refusal::Length);
    }
    if parentheses::too_deep(text) {
        return Err(Refusal::Depth);
    }
    if let Some(place) = scan::fault(text) {
        return Err(Refusal::Form(place));
    }
    let mut parts = Parts::new();
    let Some(whole) = descent::equivalence(text, 0, &mut parts, 0) else {
        return Err(Refusal::Names);
    };
    if MOST_NAMES < parts.names() {
        return Err(Refusal::Names);
    }
    let letters = parts.letters();
    Ok(Reading {
        parts,
        root: whole.root,
        letters,
    })
}
