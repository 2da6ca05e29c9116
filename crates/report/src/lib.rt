// What is printed of a verdict, of a settled text and of a screened one.
#![tactic(auto)]

ghost use Rattle.std.specs.Prelude.{length};
ghost use Rattle.prover.specs.State.{steps_of, worlds_of};
ghost use Rattle.prover.specs.Told.{told_with};
ghost use Rattle.report.specs.Report.{valid_report, refuted_report, report_with, report_of};
ghost use Rattle.text.specs.Output.{Appends, Reported};

use clausify::Settled;
use prover::{Session, Verdict};
use refusal::Refused;
use text::Draft;

mod lines;
pub mod screenings;

// A line for each world.
pub use lines::worlds;

fn write_valid(draft: &mut Draft, s: &Session, questions: u32)
    ensures { Appends (valid_report s.now.n questions (steps_of s.now.steps)) draft.old draft.new }
{
    draft.word(b"valid\n");
    lines::figures(draft, s, questions);
    lines::steps(draft, &s.steps);
}

fn write_refuted(draft: &mut Draft, s: &Session, questions: u32)
    ensures { Appends (refuted_report s.now.n questions (length (steps_of s.now.steps)) (worlds_of s.now.worlds)) draft.old draft.new }
{
    draft.word(b"refuted\n");
    lines::figures(draft, s, questions);
    lines::worlds(draft, &s.worlds);
}

// Writes the report of a verdict or a refusal, and of the session that holds it, with so many questions.
#[tactic(auto, unfolding(text::specs::Text::refusal))]
pub fn write<E: Refused>(
    draft: &mut Draft,
    verdict: Result<Verdict, E>,
    s: &Session,
    questions: u32,
)
    ensures { Appends (report_with questions (told_with E.told_number E.told_place verdict) s.now) draft.old draft.new }
{
    match verdict {
        Ok(Verdict::Valid(_)) => write_valid(draft, s, questions),
        Ok(Verdict::Refuted(_)) => write_refuted(draft, s, questions),
        Err(refusal) => {
            let number = refusal.number();
            let place = refusal.place().unwrap_or(0);
            draft.refusal(number, (number == 3).then_some(place));
        }
    }
}

// Writes the report of a settled text and returns its length; 0 where it does not fit.
pub fn report(settled: &Settled, output: &mut [u8]) -> usize
    ensures { Reported (report_of settled.now) output.old output.new result }
{
    let mut buffer = [0u8; text::DRAFT];
    let mut draft = Draft::new(&mut buffer);
    let session = &settled.session;
    let questions = session.work_of(ipl::PROGRAM).questions;
    write(&mut draft, settled.verdict, session, questions);
    let n = draft.len();
    text::hand_over(&buffer, n, output)
}
