// What is printed of a screened text.
ghost use Rattle.certificate.specs.Format.{each};
ghost use Rattle.fork.specs.Answer.{sets_of, told_with};
ghost use Rattle.report.specs.Screening.{set_figure, falls_line, screening_line, screen_line};
ghost use Rattle.text.specs.Output.{Appends, Gives};

use fork::{LetterSets, Screened};
use refusal::Refused;
use text::Draft;

// The number of each set.
fn figures(draft: &mut Draft, sets: &[u8])
    ensures { Appends (each set_figure sets.now) draft.old draft.new }
{
    for &set in sets {
        draft.figure(b" ", u64::from(set));
    }
}

fn write_falls(draft: &mut Draft, sets: &LetterSets)
    ensures { Appends (falls_line (sets_of sets.now)) draft.old draft.new }
{
    draft.word(b"falls");
    figures(draft, sets.as_slice());
    draft.word(b"\n");
}

// Writes the line of a screened text.
#[tactic(auto, unfolding(crate::specs::Screening::passes_line, text::specs::Text::ascii, text::specs::Text::refusal))]
pub fn write<E: Refused>(draft: &mut Draft, screened: Result<Screened, E>)
    ensures { Appends (screening_line (told_with E.told_number E.told_place screened)) draft.old draft.new }
{
    match screened {
        Err(refusal) => {
            let number = refusal.number();
            let place = refusal.place().unwrap_or(0);
            draft.refusal(number, (number == 3).then_some(place));
        }
        Ok(Screened::Passes) => draft.word(b"passes\n"),
        Ok(Screened::Falls(sets)) => write_falls(draft, &sets),
    }
}

// Screens a text and writes what is printed of it; returns its length, 0 where it does not fit.
pub fn screen(text: &[u8], output: &mut [u8]) -> usize
    ensures { Gives (screen_line text.now) output.old output.new result }
{
    let mut buffer = [0u8; text::DRAFT];
    let mut draft = Draft::new(&mut buffer);
    write(&mut draft, fork::screen(text));
    let n = draft.len();
    text::hand_over(&buffer, n, output)
}
