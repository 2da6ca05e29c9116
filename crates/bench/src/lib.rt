// For the benchmarks: the classical question, to be timed beside a copy in C, and lists of calls, to be timed beside scripts.
#![tactic(auto)]

ghost use Rattle.std.specs.Prelude.{◌≡◌, ◌/◌, ◌<◌, length};
ghost use Rattle.prover.specs.Told.{changed, number_in};
ghost use Rattle.prover.specs.Calls.{flat_of, Opened};
ghost use Rattle.bench.specs.Exported.{Asked};
ghost use Rattle.bench.specs.Calls.{one_if_refused, QuestionPut, act, act_at, Called, refusals};

use atoms::AtomSet;
use prover::{Implication, Session};
use refusal::Refusal;

// sat::ask with sets as one-row tables: true where proved; else the model is written to row 0 of `model`.
#[unsafe(no_mangle)]
pub extern "C" fn zestanchor_ask(
    left: &[u64],
    right: &[u64],
    count: usize,
    n: u8,
    given: &[u64],
    asked: u8,
    model: &mut [u64],
) -> bool
    ensures { Asked left.now right.now count n given.now asked result model.old model.new }
{
    match sat::ask(left, right, count, n, atoms::row(given, 0), asked) {
        None => true,
        Some(m) => {
            atoms::set_row(model, 0, m);
            false
        }
    }
}

fn one_if_refused(r: Result<(), Refusal>) -> u64
    ensures { result ≡ one_if_refused (number_in r) }
{
    u64::from(r.is_err())
}

fn open(s: &mut Session, n: u8) -> Result<(), Refusal>
    ensures { Opened n (changed result s.new) }
{
    let opening = Session::open(n);
    *s = opening.session;
    opening.opened
}

fn ask(s: &mut Session, goal: u8) -> Result<(), Refusal>
    ensures { QuestionPut s.old goal (changed result s.new) }
{
    s.ask(ipl::PROGRAM, goal)?;
    Ok(())
}

// Kind 0 opens a session of a atoms, 1 adds the flat clause, 2 the implication; any other asks for a.
fn call(
    s: &mut Session,
    kind: u8,
    a: u8,
    b: u8,
    c: u8,
    left: AtomSet,
    right: AtomSet,
) -> Result<(), Refusal>
    ensures { Called s.old (act kind a b c (flat_of left right)) (changed result s.new) }
{
    match kind {
        0 => open(s, a),
        1 => s.add_flat(left, right),
        2 => s.add_implication(Implication { a, b, c }),
        _ => ask(s, a),
    }
}

// Call i of a list: four bytes of `calls`, its kind and three numbers, and two rows of `sets`.
fn call_at(s: &mut Session, calls: &[u8], sets: &[u64], i: usize) -> Result<(), Refusal>
    requires { i < length calls.now / 4 }
    ensures { Called s.old (act_at calls.now sets.now i) (changed result s.new) }
{
    let left = atoms::row(sets, 2 * i);
    let right = atoms::row(sets, 2 * i + 1);
    let at = 4 * i;
    call(
        s,
        calls[at],
        calls[at + 1],
        calls[at + 2],
        calls[at + 3],
        left,
        right,
    )
}

// Makes the calls, each on the session that the last one left, and counts those refused.
#[unsafe(no_mangle)]
pub extern "C" fn zestanchor_calls(calls: &[u8], sets: &[u64]) -> u64
    ensures { result ≡ refusals calls.now sets.now }
{
    let mut s = Session::new();
    let mut refused = 0;
    for i in 0..calls.len() / 4 {
        refused += one_if_refused(call_at(&mut s, calls, sets, i));
    }
    refused
}
