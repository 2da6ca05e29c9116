// Settles the formula on standard input and prints the verdict with its figures. With an argument, the name of a file, it also writes
// the verdict's answer sheet there.
#![tactic(auto)]

ghost use Rattle.std.specs.Prelude.{◌≡◌};
ghost use Rattle.text.specs.Output.{Gives};
ghost use Rattle.report.specs.Printed.{printed, sheet};
ghost use Rattle.settle.specs.Input.{formula};

use std::env::{Env, FillError};
use std::fs::Files;
use std::random::RandomSource;
use streams::Told;
use zestanchor::Lengths;

mod file;

// Whatever follows so many bytes, the formula is refused for its length.
const ENOUGH: usize = syntax::MOST_BYTES + 2;

// Without one final newline.
#[tactic(auto, unfolding(crate::specs::Input::formula_length))]
fn formula(input: &[u8]) -> &[u8]
    ensures { result.now ≡ formula input.now }
{
    match input {
        [formula @ .., b'\n'] => formula,
        _ => input,
    }
}

// From the input to what is printed and to the sheet.
fn settle(input: &[u8], report: &mut [u8], certificate: &mut [u8]) -> Lengths
    ensures { Gives (printed (formula input.now)) report.old report.new result.report
        × Gives (sheet (formula input.now)) certificate.old certificate.new result.sheet }
{
    zestanchor::settle_with_sheet(formula(input), report, certificate)
}

// Without a verdict there is no sheet, and the report says so; without a path none is saved.
fn print(
    rt: &(impl Print + Eprint + Files + RandomSource),
    input: &[u8],
    path: &[u8],
) -> Result<(), Told> {
    let mut report = [0u8; text::DRAFT];
    let mut certificate = [0u8; text::DRAFT];
    let lengths = settle(input, &mut report, &mut certificate);
    if 0 < lengths.sheet && !path.is_empty() {
        file::save(rt, path, &certificate[..lengths.sheet])?;
    }
    streams::write(rt, &report[..lengths.report])
}

fn is_name(path: &[u8]) -> bool {
    path.first().is_some_and(|first| *first != b'-')
}

// The one argument, empty where there is none; nothing where the arguments are wrong.
fn argument<'a>(rt: &impl Env, path: &'a mut [u8]) -> Option<&'a [u8]> {
    match rt.arg(1, path) {
        Err(FillError::NotPresent) => Some(&[]),
        Err(FillError::TooLong) => None,
        Ok(n) => {
            let name = &path[..n];
            if is_name(name) && !streams::has_argument(rt, 2) {
                Some(name)
            } else {
                None
            }
        }
    }
}

fn run(rt: &HostRuntime) -> Result<(), Told> {
    streams::check_open(rt, &mut rt.stdin(), &mut rt.stderr())?;
    let mut path = [0u8; file::PATH_MAX];
    let Some(path) = argument(rt, &mut path) else {
        let _ = eprintln!(rt;
            "usage: settle [FILE]\nreads a formula from standard input; FILE gets the answer sheet"
        );
        return Ok(());
    };
    let mut input = [0u8; ENOUGH];
    let n = streams::read(rt, &mut rt.stdin(), &mut input)?;
    print(rt, &input[..n], path)
}

fn main(rt: HostRuntime) {
    let _ = run(&rt);
}
