// Writes the table of implications of the four-tipped fork's 17 sets, worked out from the definition: line a has those of a and each set.
#![tactic(auto)]

ghost use Rattle.std.specs.Prelude.{◌++◌, ◌≡◌};
ghost use Rattle.fork.specs.Algebra.{meet, within, is_implication, implication};
ghost use Rattle.text.specs.Text.{decimal};
ghost use Rattle.text.specs.Output.{Appends, Gives};
ghost use Rattle.fork_table.specs.Table.{row_text, table_text};

use fork::{SETS, WHOLE, sets};
use text::Draft;

// Every number has at most two digits, and one byte follows it.
const ROOM: usize = SETS * SETS * 3;

#[tactic(auto, unfolding(fork::specs::Algebra::within))]
fn within(a: u8, b: u8) -> bool
    ensures { result ≡ within a b }
{
    sets::meet(a, b) == a
}

// The common part of c and a lies within b.
fn common_within(c: u8, a: u8, b: u8) -> bool
    ensures { result ≡ within (meet c a) b }
{
    within(sets::meet(c, a), b)
}

fn is_implication(a: u8, b: u8, c: u8) -> bool
    ensures { result ≡ is_implication a b c }
{
    if !common_within(c, a, b) {
        return false;
    }
    for d in 0..=WHOLE {
        if common_within(d, a, b) && !within(d, c) {
            return false;
        }
    }
    true
}

// From the whole downward; 0 where no other set passes.
fn implication(a: u8, b: u8) -> u8
    ensures { result ≡ implication a b }
{
    for c in (1..=WHOLE).rev() {
        if is_implication(a, b, c) {
            return c;
        }
    }
    0
}

// The implication of a and b, and what follows it.
fn write_entry(draft: &mut Draft, a: u8, b: u8, after: &[u8])
    ensures { Appends (decimal (implication a b) ++ after.now) draft.old draft.new }
{
    draft.figure(b"", u64::from(implication(a, b)));
    draft.word(after);
}

fn write_row(draft: &mut Draft, a: u8)
    ensures { Appends (row_text a) draft.old draft.new }
{
    for b in 0..WHOLE {
        write_entry(draft, a, b, b" ");
    }
    write_entry(draft, a, WHOLE, b"\n");
}

fn write_rows(draft: &mut Draft)
    ensures { Appends table_text draft.old draft.new }
{
    for a in 0..=WHOLE {
        write_row(draft, a);
    }
}

fn write_table(output: &mut [u8]) -> usize
    ensures { Gives table_text output.old output.new result }
{
    let mut buffer = [0u8; text::DRAFT];
    let mut draft = Draft::new(&mut buffer);
    write_rows(&mut draft);
    draft.hand_over(output)
}

fn main(rt: HostRuntime) {
    if streams::check_open(&rt, &mut rt.stdin(), &mut rt.stderr()).is_err() {
        return;
    }
    let mut table = [0u8; ROOM];
    let n = write_table(&mut table);
    let _ = streams::write(&rt, &table[..n]);
}
