// The lines of a report.
ghost use Rattle.std.specs.Prelude.{◌≡◌};
ghost use Rattle.atoms.specs.Words.{num};
ghost use Rattle.prover.specs.State.{byte_at, steps_of, worlds_of};
ghost use Rattle.certificate.specs.Format.{each};
ghost use Rattle.report.specs.Report.{figures, step_line, world_line};
ghost use Rattle.text.specs.Output.{Appends};

use atoms::AtomSet;
use prover::{Session, Steps, Worlds};
use text::Draft;

// Atoms, questions and learned steps.
pub fn figures(draft: &mut Draft, s: &Session, questions: u32)
    ensures { Appends (figures s.now.n questions s.now.steps.count) draft.old draft.new }
{
    draft.figure(b"atoms ", u64::from(s.n));
    draft.figure(b" questions ", u64::from(questions));
    draft.figure(b" learned ", s.steps.count as u64);
    draft.word(b"\n");
}

fn step(draft: &mut Draft, number: u8, assumed: AtomSet)
    ensures { Appends (step_line (record { number = number; assumed = num assumed })) draft.old draft.new }
{
    draft.figure(b"step ", u64::from(number));
    draft.labelled(b" ", assumed);
    draft.word(b"\n");
}

fn world(draft: &mut Draft, set: AtomSet)
    ensures { Appends (world_line (num set)) draft.old draft.new }
{
    draft.labelled(b"world ", set);
    draft.word(b"\n");
}

// Past the table's end 0.
fn byte_at(table: &[u8], i: usize) -> u8
    ensures { result ≡ byte_at table.now i }
{
    table.get(i).copied().unwrap_or(0)
}

// A line for each step; none once the draft is full.
pub fn steps(draft: &mut Draft, table: &Steps)
    ensures { Appends (each step_line (steps_of table.now)) draft.old draft.new }
{
    for i in 0..table.count {
        if draft.is_full() {
            return;
        }
        let number = byte_at(&table.numbers, i);
        step(draft, number, atoms::row(&table.assumed, i));
    }
}

// A line for each world; none once the draft is full.
pub fn worlds(draft: &mut Draft, table: &Worlds)
    ensures { Appends (each world_line (worlds_of table.now)) draft.old draft.new }
{
    for i in 0..table.count {
        if draft.is_full() {
            return;
        }
        world(draft, atoms::row(&table.sets, i));
    }
}
