// Reads a script of calls from standard input and prints the answer to each.
#![tactic(auto)]

ghost use Rattle.std.specs.Prelude.{true, ◌≡◌, ◌≤◌, length};
ghost use Rattle.script.specs.Run.{output_room, LinesAnswered, Through};

use prover::Session;
use script::Pending;
use std::io::Read;

// A script is read in pieces of at most so many bytes.
const PIECE: usize = 65536;

// Answers are held while there is room for one more: up to 32 KiB of them.
const ANSWERS: usize = script::OUTPUT + 32768;

// A script that is being read: its session, the line that has begun, and that line's number.
#[derive(Drop)]
struct Script {
    session: Session,
    pending: Pending,
    number: u64,
}

fn write(rt: &(impl Print + Eprint), output: &[u8]) -> bool {
    output.is_empty() || streams::write(rt, output).is_ok()
}

// Whether the answers can wait for that to the next line, by what is left of the piece: there is room for it, and it is no question and
// no page, which can take long. Who sends a full piece ahead does not wait for a single answer.
fn can_wait(rest: &[u8], full: bool, room: usize) -> bool
    ensures { result ≡ true → output_room ≤ room }
{
    if room < script::OUTPUT {
        return false;
    }
    full || !matches!(rest, [b'a' | b'p' | b' ', ..])
}

// Answers lines of a piece, one behind the other in the output, while the answers can wait: what is left of the piece, and how many bytes
// of the output the answers are.
fn answer_lines<'a>(
    script: &mut Script,
    piece: &'a [u8],
    full: bool,
    line: &mut [u8],
    output: &mut [u8],
) -> (&'a [u8], usize)
    requires { output_room ≤ length output.old }
    ensures { LinesAnswered piece.now script.old.session script.old.number line.old script.old.pending
        result.0.now script.new.session script.new.number line.new script.new.pending output.new result.1 }
{
    let mut rest = piece;
    let mut held = 0;
    while !rest.is_empty() {
        let Some(next) = script::gather(rest, line, &mut script.pending) else {
            return (&[], held);
        };
        held += script::answer_line(
            &mut script.session,
            script.number,
            line,
            script.pending,
            &mut output[held..],
        );
        script.number = script::number_after(script.number);
        script.pending = Pending::NONE;
        rest = next;
        if !can_wait(rest, full, output.len() - held) {
            return (rest, held);
        }
    }
    (rest, held)
}

// Answers the lines that end in a piece, and returns whether that was written.
fn answer(
    rt: &(impl Print + Eprint),
    script: &mut Script,
    piece: &[u8],
    line: &mut [u8],
    output: &mut [u8],
) -> bool
    requires { output_room ≤ length output.old }
    ensures { result ≡ true → Through script.old.session script.old.number line.old script.old.pending piece.now
        script.new.session script.new.number line.new script.new.pending }
{
    let full = piece.len() == PIECE;
    let mut rest = piece;
    while !rest.is_empty() {
        let (next, n) = answer_lines(script, rest, full, line, output);
        if !write(rt, &output[..n]) {
            return false;
        }
        rest = next;
    }
    true
}

// Answers the last line.
fn end(rt: &(impl Print + Eprint), script: &mut Script, line: &[u8], output: &mut [u8]) {
    let n = script::answer_line(
        &mut script.session,
        script.number,
        line,
        script.pending,
        output,
    );
    write(rt, &output[..n]);
}

// Reads a piece and answers the lines that end in it; at the end of the input the last line. Returns whether there is more to do: no
// input or output failed, and the input has not ended.
fn read(
    rt: &(impl Print + Eprint),
    from: &mut impl Read,
    script: &mut Script,
    piece: &mut [u8],
    line: &mut [u8],
    output: &mut [u8],
) -> bool
    requires { output_room ≤ length output.old }
{
    let Ok(n) = streams::read_some(rt, from, piece) else {
        return false;
    };
    if n == 0 {
        end(rt, script, line, output);
        return false;
    }
    answer(rt, script, &piece[..n], line, output)
}

fn start() -> Script {
    Script {
        session: Session::new(),
        pending: Pending::NONE,
        number: 1,
    }
}

// No input has so many pieces that the count of them ends it.
fn run(
    rt: &(impl Print + Eprint),
    from: &mut impl Read,
    piece: &mut [u8],
    line: &mut [u8],
    output: &mut [u8],
)
    requires { output_room ≤ length output.old }
{
    let mut script = start();
    for _ in 0..u64::MAX {
        if !read(rt, from, &mut script, piece, line, output) {
            return;
        }
    }
}

// The other buffers lie in this frame: the checker reckons with one large array at a time.
fn run_within(rt: &(impl Print + Eprint), from: &mut impl Read, output: &mut [u8; ANSWERS]) {
    let mut piece = [0u8; PIECE];
    let mut line = [0u8; script::LINE];
    run(rt, from, &mut piece, &mut line, output);
}

fn main(rt: HostRuntime) {
    if streams::check_open(&rt, &mut rt.stdin(), &mut rt.stderr()).is_err() {
        return;
    }
    if streams::has_argument(&rt, 1) {
        let _ = eprintln!(rt; "usage: session\nreads a script of calls from standard input");
        return;
    }
    let mut output = [0u8; ANSWERS];
    run_within(&rt, &mut rt.stdin(), &mut output);
}
