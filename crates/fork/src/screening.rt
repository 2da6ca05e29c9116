// A text is read, and its formula screened under every assignment.
ghost use Rattle.std.specs.Prelude.{◌≡◌};
ghost use Rattle.syntax.specs.Judge.{judge};
ghost use Rattle.syntax.specs.Parts.{held};
ghost use Rattle.fork.specs.Answer.{ScreenedAs, told_of};
ghost use Rattle.fork.specs.Cells.{screened_at};
ghost use Rattle.fork.specs.Screen.{screening};

use super::{MOST_LETTERS, SETS, Screened, assignments, rows};
use refusal::Refusal;
use rows::Formula;

// Under every assignment, 17 at a time.
fn screen_rounds(formula: &Formula) -> Screened
    ensures { told_of result ≡ screened_at (held formula.now.parts.now) formula.now.root }
{
    let end = assignments::count(formula.letters);
    for round in 0..end.div_ceil(SETS) {
        let number = round * SETS;
        if let Some(column) = formula.first_fall(number) {
            return Screened::Falls(assignments::sets_of(number + column, formula.letters));
        }
    }
    Screened::Passes
}

// Screens the formula of a text. Refused 1, 2, 3 (with its place), 4, 22 (over three letters).
pub fn screen(text: &[u8]) -> Result<Screened, Refusal>
    ensures { ScreenedAs (screening (judge text.now)) result }
{
    let reading = syntax::read(text)?;
    if MOST_LETTERS < reading.letters {
        return Err(Refusal::Letters);
    }
    Ok(screen_rounds(&Formula {
        parts: &reading.parts,
        root: reading.root,
        letters: reading.letters,
    }))
}
