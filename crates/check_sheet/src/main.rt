// Reads a certificate (document 01: an answer sheet) from standard input and says whether it is accepted.
#![tactic(auto)]

use streams::Told;

// Room for every certificate in range; of a longer one the beginning and the length decide.
const BEGINNING: usize = 16384;

// Starts and lengths have 32 bits: bytes after so many break the layout.
const MOST: usize = 1 << 34;

// Room for what is printed.
const LINE: usize = 64;

fn run(rt: &HostRuntime) -> Result<(), Told> {
    streams::check_open(rt, &mut rt.stdin(), &mut rt.stderr())?;
    let mut sheet = [0u8; BEGINNING];
    let n = streams::read(rt, &mut rt.stdin(), &mut sheet)?;

    // What follows a full buffer is counted.
    let more = if n < BEGINNING {
        0
    } else {
        streams::count(rt, &mut rt.stdin(), MOST)?
    };
    let mut line = [0u8; LINE];
    let length = judgement::judge(&sheet[..n], more, &mut line);
    streams::write(rt, &line[..length])
}

fn main(rt: HostRuntime) {
    let _ = run(&rt);
}
