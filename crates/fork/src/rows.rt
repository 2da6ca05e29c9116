// The values of a formula's parts under the 17 assignments that differ in the last letter: a row for each part.
ghost use Rattle.std.specs.Prelude.{◌≡◌, ◌<◌, ◌≤◌, ◌^◌, length};
ghost use Rattle.syntax.specs.Parts.{entry_of, held, room};
ghost use Rattle.fork.specs.Fork.{set_count};
ghost use Rattle.fork.specs.Screen.{most_letters};
ghost use Rattle.fork.specs.Cells.{entry_value, Cells, Readable, Writable, Written, Tabled, tabled_prop, Filled, FirstBelow, FirstIn};

use super::{MOST_LETTERS, SETS, WHOLE, algebra, assignments};
use syntax::{Part, Parts};

const CELLS: usize = syntax::PARTS * SETS;

// A formula's parts, the row of the whole, and its letters, which are few enough.
#[derive(Clone, Copy)]
pub struct Formula<'a> {
    pub parts: &'a Parts,
    pub root: u8,
    pub letters: u8,
    pub ghost tabled: { Tabled parts.now letters } by { tabled_prop parts.now letters },
    pub ghost inside: { root < length (held parts.now) },
}

// The value of a part in a column. The rows of its own parts stand before its row.
fn value_of(values: &[u8], row: usize, part: Part, column: usize, number: usize, place: u8) -> u8
    requires { Readable values.now row (entry_of part) column }
    ensures { result ≡ entry_value values.now column number place (entry_of part) }
{
    match part {
        Part::Falsum => 0,
        Part::Letter(_) => assignments::set_at(number, place),
        Part::Compound(c, a, b) => {
            let left = values[usize::from(a) * SETS + column];
            let right = values[usize::from(b) * SETS + column];
            algebra::connected(c, left, right)
        }
    }
}

// Writes the row of a part, under the assignments from this number on.
fn write_row(values: &mut [u8], row: usize, part: Part, number: usize, place: u8)
    requires { Writable values.old row (entry_of part) number }
    ensures { Written values.old row (entry_of part) number place values.new }
{
    for column in 0..SETS {
        let value = value_of(values, row, part, column, number + column, place);
        values[row * SETS + column] = value;
    }
}

// The first column in which a row has not the whole.
fn first_below(values: &[u8], row: usize) -> Option<usize>
    requires { Cells values.now × (row < room) }
    ensures { FirstBelow values.now row result }
{
    for column in 0..SETS {
        if values[row * SETS + column] != WHOLE {
            return Some(column);
        }
    }
    None
}

impl Formula<'_> {
    // Writes the rows of all parts.
    fn fill(&self, values: &mut [u8], number: usize)
        requires { Cells values.old × (number ≤ set_count ^ most_letters) }
        ensures { Filled (held self.now.parts.now) number values.new }
    {
        let mut place = MOST_LETTERS - self.letters;
        for i in 0..self.parts.count {
            let row = usize::from(i);
            let part = self.parts.nodes[row];
            write_row(values, row, part, number, place);
            place += syntax::letters_in(part);
        }
    }

    // The first of 17 assignments under which the whole formula has not the whole set, counted from this number.
    pub fn first_fall(&self, number: usize) -> Option<usize>
        requires { number ≤ set_count ^ most_letters }
        ensures { FirstIn (held self.now.parts.now) self.now.root number result }
    {
        let mut values = [0u8; CELLS];
        self.fill(&mut values, number);
        first_below(&values, usize::from(self.root))
    }
}
