// The atoms of a formula's parts: letters in order of first standing, then a name for each compound.
ghost use Rattle.std.specs.Prelude.{◌≡◌, ◌<◌};
ghost use Rattle.ipl.specs.Clause.{bot};
ghost use Rattle.syntax.specs.Letters.{letter_count};
ghost use Rattle.syntax.specs.Parts.{entry_of, held, Sound};
ghost use Rattle.clausify.specs.Writing.{Passed, NamesOf};

use syntax::{Part, Parts};

// The atom of each part, and how many atoms there are.
#[derive(Drop)]
pub struct Names {
    pub atoms: [u8; syntax::PARTS],
    pub count: u8,
}

// The next letter's atom, and the next name.
#[derive(Drop)]
struct Next {
    letter: u8,
    name: u8,
}

impl Next {
    // Passes a part, which has this atom.
    fn pass(&mut self, part: Part) -> u8
        requires { (self.old.letter < bot) × (self.old.name < bot) }
        ensures { Passed self.old (entry_of part) result self.new }
    {
        match part {
            Part::Letter(_) => {
                let atom = self.letter;
                self.letter += 1;
                atom
            }
            Part::Falsum => ipl::BOTTOM,
            Part::Compound(_, _, _) => {
                let atom = self.name;
                self.name += 1;
                atom
            }
        }
    }
}

// The reader tells the letters.
pub fn names_of(parts: &Parts, letters: u8) -> Names
    requires { Sound parts.now × (letters ≡ letter_count (held parts.now)) }
    ensures { NamesOf (held parts.now) result }
{
    let mut atoms = [ipl::BOTTOM; syntax::PARTS];
    let mut next = Next {
        letter: 0,
        name: letters,
    };
    for i in 0..usize::from(parts.count) {
        atoms[i] = next.pass(parts.nodes[i]);
    }
    Names {
        atoms,
        count: next.name,
    }
}
