// One function on bytes, with a task: what the library for C and Rust exports. Its parts serve the programs too.
#![tactic(auto)]

ghost use Rattle.std.specs.Prelude.{List, ◌≡◌, ℕ, length};
ghost use Rattle.syntax.specs.Judge.{judge};
ghost use Rattle.clausify.specs.Calls.{SettledAs};
ghost use Rattle.text.specs.Output.{Gives};
ghost use Rattle.report.specs.Printed.{printed, sheet};
ghost use Rattle.zestanchor.specs.Tasks.{TaskOf, certified, Done};

use clausify::Settled;
use refusal::Refusal;

#[derive(Clone, Copy, Debug, PartialEq, Eq, Hash)]
enum Task {
    // The report of a text,
    Settle,
    // the sheet of its verdict or its refusal,
    Certify,
    // the report of a checked sheet,
    Check,
    // how long what `Certify` gives is,
    Length,
    // the screen of a text.
    Screen,
}

// A number that is no task's.
#[derive(Clone, Copy, Debug, PartialEq, Eq, Hash)]
struct NoTask;

impl TryFrom<u8> for Task {
    type Error = NoTask;

    ghost try_from_gives = { TaskOf };

    fn try_from(number: u8) -> Result<Task, NoTask> {
        match number {
            0 => Ok(Task::Settle),
            1 => Ok(Task::Certify),
            2 => Ok(Task::Check),
            3 => Ok(Task::Length),
            4 => Ok(Task::Screen),
            _ => Err(NoTask),
        }
    }
}

// What any other task returns.
const NO_TASK: usize = usize::MAX;

// How many bytes of each output were written.
#[derive(Clone, Copy, Debug, PartialEq, Eq)]
pub struct Lengths {
    pub report: usize,
    pub sheet: usize,
}

// Settles a text and writes its report.
fn settle(text: &[u8], report: &mut [u8]) -> usize
    ensures { Gives (printed text.now) report.old report.new result }
{
    report::report(&clausify::settle(text), report)
}

// Settles a text and writes its report and the sheet of its verdict; no byte of a sheet where there is no verdict.
pub fn settle_with_sheet(text: &[u8], report: &mut [u8], certificate: &mut [u8]) -> Lengths
    ensures { Gives (printed text.now) report.old report.new result.report
        × Gives (sheet text.now) certificate.old certificate.new result.sheet }
{
    let settled = clausify::settle(text);
    Lengths {
        report: report::report(&settled, report),
        sheet: certify::write(&settled.session, certificate).unwrap_or(0),
    }
}

// The sheet of a verdict; without one the report, which is the line of the refusal.
fn write_certified(settled: &Settled, output: &mut [u8]) -> usize
    ensures { (s : List ℕ) → SettledAs (judge s) settled.now → Gives (certified s) output.old output.new result }
{
    match certify::write(&settled.session, output) {
        Ok(n) => n,
        Err(e) => match e {
            Refusal::NoVerdict => report::report(settled, output),
            _ => 0,
        },
    }
}

fn certified_length(text: &[u8]) -> usize
    ensures { result ≡ length (certified text.now) }
{
    let settled = clausify::settle(text);
    match certify::length_told(&settled.session) {
        Ok(n) => n,
        Err(_) => report::report(&settled, &mut [0u8; text::DRAFT]),
    }
}

// Writes what the task gives at the start of the output, and returns its length; 0 where there is no room for it.
pub fn zestanchor(task: u8, input: &[u8], output: &mut [u8]) -> usize
    ensures { Done task input.now output.old output.new result }
{
    match Task::try_from(task) {
        Ok(Task::Settle) => settle(input, output),
        Ok(Task::Certify) => write_certified(&clausify::settle(input), output),
        Ok(Task::Check) => judgement::judge(input, 0, output),
        Ok(Task::Length) => certified_length(input),
        Ok(Task::Screen) => report::screenings::screen(input, output),
        Err(NoTask) => NO_TASK,
    }
}
