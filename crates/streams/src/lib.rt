// Standard input and output of the programs. No contract can say what is read or written; every failure is told on standard error.
#![tactic(auto)]

ghost use Rattle.std.specs.Io.{ReadsAtMost};
ghost use Rattle.streams.specs.Input.{Within, AtMost};

use std::env::{Env, FillError};
use std::fs::{Files, OpenOptions};
use std::io::{Error, ErrorKind, Read, Write};
use std::{io, mem};

// A failure, told on standard error.
#[derive(Clone, Copy, Debug, PartialEq, Eq)]
pub struct Told;

// Tells what failed on a line of standard error; where that fails too, nobody is left to tell.
pub fn tell(rt: &impl Eprint, what: &str, error: Error) -> Told {
    let _ = eprintln!(rt; "{what}: {error}");
    Told
}

// One read, tried again where a signal interrupts it.
fn read_retrying(from: &mut impl Read, buffer: &mut [u8]) -> io::Result<usize>
    ensures { ReadsAtMost result buffer.new }
{
    for _ in 0..u64::MAX {
        match from.read(buffer) {
            Err(error) if error.kind() == ErrorKind::Interrupted => {}
            got => return got,
        }
    }
    Err(Error::from(ErrorKind::Interrupted))
}

// One read of standard input; 0 bytes at its end.
pub fn read_some(rt: &impl Eprint, from: &mut impl Read, buffer: &mut [u8]) -> Result<usize, Told>
    ensures { Within result buffer.new }
{
    read_retrying(from, buffer).map_err(|error| tell(rt, "standard input", error))
}

// Reads standard input until it ends or the buffer is full.
pub fn read(rt: &impl Eprint, from: &mut impl Read, buffer: &mut [u8]) -> Result<usize, Told>
    ensures { Within result buffer.new }
{
    let mut done = 0;
    while done < buffer.len() {
        match read_some(rt, from, &mut buffer[done..])? {
            0 => break,
            n => done += n,
        }
    }
    Ok(done)
}

// Reads on and counts what comes, until the input ends or `most` bytes came.
pub fn count(rt: &impl Eprint, from: &mut impl Read, most: usize) -> Result<usize, Told>
    ensures { AtMost result most }
{
    let mut space = [0u8; 4096];
    let mut counted = 0;
    while counted < most {
        match read_some(rt, from, &mut space)? {
            0 => break,
            n => counted += n.min(most - counted),
        }
    }
    Ok(counted)
}

// Writes to standard output.
pub fn write(rt: &(impl Print + Eprint), bytes: &[u8]) -> Result<(), Told> {
    rt.write_all(bytes)
        .map_err(|error| tell(rt, "standard output", error))
}

// Fails where standard input or output is not open. A file that is opened gets the lowest free descriptor, so this is tested first,
// and where standard error is closed its place is taken by the null device: no message can then land in a file.
pub fn check_open(
    rt: &(impl Print + Eprint + Files),
    input: &mut impl Read,
    errors: &mut impl Write,
) -> Result<(), Told> {
    input
        .read(&mut [])
        .map_err(|error| tell(rt, "standard input", error))?;
    rt.write_some(&[])
        .map_err(|error| tell(rt, "standard output", error))?;
    if errors.write(&[]).is_err() {
        // Where this fails, nobody is left to tell.
        take_place(rt).map_err(|_| Told)?;
    }
    Ok(())
}

// Opens the null device for as long as the program runs.
fn take_place(files: &impl Files) -> io::Result<()> {
    mem::forget(OpenOptions::new().write(true).open(files, "/dev/null")?);
    Ok(())
}

// Whether the program was started with an argument of this number; its own name is number 0.
pub fn has_argument(rt: &impl Env, number: usize) -> bool {
    !matches!(rt.arg(number, &mut []), Err(FillError::NotPresent))
}
