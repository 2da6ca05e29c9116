// What is printed of a certificate (document 01: an answer sheet): that it is accepted, or its refusal.
#![tactic(auto)]

ghost use Rattle.text.specs.Output.{Appends};
ghost use Rattle.judgement.specs.Report.{accepted_line, check_report_with, Judged};

use certificate::Contents;
use refusal::Refused;
use text::Draft;

#[tactic(auto, unfolding(crate::specs::Report::accepted_line, text::specs::Text::ascii))]
fn write_accepted(draft: &mut Draft, refuting: bool)
    ensures { Appends (accepted_line refuting) draft.old draft.new }
{
    if refuting {
        draft.word(b"accepted refuted\n");
    } else {
        draft.word(b"accepted valid\n");
    }
}

// Writes the line of a judged certificate. A refusal has a place where it is of the claim.
#[tactic(auto, unfolding(text::specs::Text::refusal))]
pub fn write<E: Refused>(draft: &mut Draft, checked: Result<Contents, E>)
    ensures { Appends (check_report_with E.told_number E.told_place checked) draft.old draft.new }
{
    match checked {
        Ok(contents) => write_accepted(draft, contents.refuting),
        Err(refusal) => {
            let number = refusal.number();
            let place = refusal.place().unwrap_or(0);
            draft.refusal(number, (number == 16).then_some(place));
        }
    }
}

// Judges any bytes, of which `more` may follow those lent, and writes what is printed of them; returns its length, 0 where it does
// not fit.
pub fn judge(bytes: &[u8], more: usize, output: &mut [u8]) -> usize
    ensures { Judged bytes.now more output.old output.new result }
{
    let mut buffer = [0u8; text::DRAFT];
    let mut draft = Draft::new(&mut buffer);
    write(&mut draft, certificate::check_beginning(bytes, more));
    let n = draft.len();
    text::hand_over(&buffer, n, output)
}
