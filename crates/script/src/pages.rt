// The answer to a page: a record for each goal, and what is printed of them.
ghost use Rattle.std.specs.Prelude.{◌++◌, ◌≡◌, ◌≤◌, length, take, drop};
ghost use Rattle.std.proofs.Math.Option.{some};
ghost use Rattle.ipl.specs.Book.{page};
ghost use Rattle.prover.specs.Page.{goals_of};
ghost use Rattle.text.specs.Text.{ascii, decimal, labelled};
ghost use Rattle.text.specs.Output.{Appends};
ghost use Rattle.script.specs.Command.{call_book, GoalList, page_in};
ghost use Rattle.script.specs.Words.{words_of};
ghost use Rattle.script.specs.Reading.{goal_room};
ghost use Rattle.script.specs.Answer.{record_lines, records_lines, CommandDone, Adds};

use super::reading;
use super::reading::Goals;
use prover::{GoalAnswer, GoalRecord, Session, Worlds};
use text::Draft;

fn unanswered(goal: u8) -> GoalRecord
    ensures { result.goal ≡ goal }
{
    GoalRecord {
        goal,
        answer: GoalAnswer::Open,
        worlds: Worlds {
            count: 0,
            sets: [0; ipl::WORLDS * atoms::WORDS],
        },
    }
}

// A record for each goal, and for each row past them one of atom 0.
fn records_of(goals: &Goals) -> [GoalRecord; ipl::GOALS + 1]
    requires { goals.now.count ≤ goal_room }
    ensures { goals_of (take goals.now.count result) ≡ take goals.now.count goals.now.rows }
{
    let mut records = [unanswered(0); ipl::GOALS + 1];
    for i in 0..goals.count {
        records[i].goal = goals.rows[i];
    }
    records
}

// The line of the goal at a place, with a figure.
fn figured(draft: &mut Draft, place: usize, label: &[u8], figure: usize)
    ensures { Appends ((labelled "goal " place ++ (label.now ++ decimal figure)) ++ ascii "\n") draft.old draft.new }
{
    draft.figure(b"goal ", place as u64);
    draft.figure(label, figure as u64);
    draft.word(b"\n");
}

fn write_record(draft: &mut Draft, place: usize, r: &GoalRecord)
    ensures { Appends (record_lines place r.now) draft.old draft.new }
{
    match r.answer {
        GoalAnswer::Open => {}
        GoalAnswer::Valid(steps) => figured(draft, place, b" valid ", steps),
        GoalAnswer::Refuted(count) => {
            figured(draft, place, b" refuted ", count);
            report::worlds(draft, &r.worlds);
        }
        GoalAnswer::RefutedBy(other) => figured(draft, place, b" refuted by ", other),
        GoalAnswer::Refused(refusal) => {
            figured(draft, place, b" refused ", usize::from(refusal.number()))
        }
    }
}

fn write_records(records: &[GoalRecord], draft: &mut Draft)
    ensures { Appends (records_lines 0 records.now) draft.old draft.new }
{
    for (i, record) in records.iter().enumerate() {
        write_record(draft, i, record);
    }
}

// The words are the goals and their author.
pub fn page(s: &mut Session, words: &[u8], draft: &mut Draft)
    requires { (p : GoalList) × (page_in (words_of words.now) ≡ Some p) }
    ensures { (p : GoalList) → page_in (words_of words.now) ≡ Some p
        → Adds (CommandDone s.old (call_book (page p.author p.goals))) draft.old draft.new s.new }
{
    let goals = reading::read_goals(words).unwrap();
    let mut records = records_of(&goals);
    let records = &mut records[..goals.count];
    match s.page(records, goals.author) {
        Ok(()) => write_records(records, draft),
        Err(refusal) => draft.refusal(refusal.number(), None),
    }
}
