// Assignments by number, in which each letter has a digit below 17.
ghost use Rattle.std.specs.Prelude.{◌≡◌, ◌≤◌, ◌^◌};
ghost use Rattle.fork.specs.Answer.{sets_of};
ghost use Rattle.fork.specs.Fork.{set_count};
ghost use Rattle.fork.specs.Screen.{assignment, most_letters};
ghost use Rattle.fork.specs.Cells.{set_at};

use super::{LetterSets, MOST_LETTERS, SETS};

// The set of a letter; the last of three letters stands at place 2.
pub fn set_at(number: usize, place: u8) -> u8
    ensures { result ≡ set_at number place }
{
    match place {
        0 => (number / (SETS * SETS) % SETS) as u8,
        1 => (number / SETS % SETS) as u8,
        _ => (number % SETS) as u8,
    }
}

// How many assignments so many letters have.
pub fn count(letters: u8) -> usize
    requires { letters ≤ most_letters }
    ensures { result ≡ set_count ^ letters }
{
    match letters {
        0 => 1,
        1 => SETS,
        2 => SETS * SETS,
        _ => SETS * SETS * SETS,
    }
}

// The sets of so many letters.
pub fn sets_of(number: usize, letters: u8) -> LetterSets
    requires { letters ≤ most_letters }
    ensures { sets_of result ≡ assignment letters number }
{
    let mut sets = [0; MOST_LETTERS as usize];
    for i in 0..letters {
        sets[usize::from(i)] = set_at(number, MOST_LETTERS - letters + i);
    }
    LetterSets { sets, letters }
}
