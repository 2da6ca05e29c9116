// The answer to a line: what the call makes of the session, and what is printed of it.
ghost use Rattle.std.specs.Prelude.{List, ◌++◌, ℕ, ◌≤◌, length};
ghost use Rattle.ipl.specs.Book.{add_flat, add_implication, add, question, set_mark, return_to};
ghost use Rattle.prover.specs.Calls.{flat_of, mean_told};
ghost use Rattle.prover.specs.Told.{number_in, place_in};
ghost use Rattle.certificate.specs.Judge.{judge};
ghost use Rattle.certify.specs.Written.{length_told};
ghost use Rattle.text.specs.Text.{decimal};
ghost use Rattle.text.specs.Output.{Appends};
ghost use Rattle.judgement.specs.Report.{check_report};
ghost use Rattle.report.specs.Screening.{screen_line};
ghost use Rattle.script.specs.Numbers.{paired};
ghost use Rattle.script.specs.Command.{open_session, read_text, call_book};
ghost use Rattle.script.specs.State.{changed_line, length_line, mean_line, digits_line};
ghost use Rattle.script.specs.Reading.{meaning, Inside, as_call};
ghost use Rattle.script.specs.Answer.{clausified_line, held_line, CommandDone, LineDone, Adds, line_room};
ghost use Rattle.script.specs.Pieces.{Answered, Answers};

use super::reading::Call;
use super::{Pending, numbers, pages};
use atoms::AtomSet;
use prover::{Implication, Session};
use refusal::Refusal;
use text::Draft;

// The calls that need large tables, of a reader, of records or of a sheet: their frame is not that of every line's answer.
#[derive(Clone, Copy)]
enum Large<'a> {
    Text(&'a [u8]),
    Page(&'a [u8]),
    Sheet,
    Check(&'a [u8]),
    Screen(&'a [u8]),
}

// A number between two words.
fn numbered(draft: &mut Draft, label: &[u8], x: u64, rest: &[u8])
    ensures { Appends ((label.now ++ decimal x) ++ rest.now) draft.old draft.new }
{
    draft.figure(label, x);
    draft.word(rest);
}

fn write_changed(changed: Result<(), Refusal>, draft: &mut Draft)
    ensures { Appends (changed_line (number_in changed)) draft.old draft.new }
{
    match changed {
        Ok(()) => draft.word(b"done\n"),
        Err(refusal) => draft.refusal(refusal.number(), None),
    }
}

fn write_clausified(read: Result<(), Refusal>, goal: u8, draft: &mut Draft)
    ensures { Appends (clausified_line (number_in read) (place_in read) goal) draft.old draft.new }
{
    match read {
        Ok(()) => numbered(draft, b"goal ", u64::from(goal), b"\n"),
        Err(refusal) => draft.refusal(refusal.number(), refusal.place()),
    }
}

fn write_length(s: &Session, draft: &mut Draft)
    ensures { Appends (length_line (length_told s.now)) draft.old draft.new }
{
    match certify::length_told(s) {
        Ok(size) => numbered(draft, b"length ", size as u64, b"\n"),
        Err(refusal) => draft.refusal(refusal.number(), None),
    }
}

fn write_mean(s: &Session, author: u8, draft: &mut Draft)
    ensures { Appends (mean_line (mean_told s.now author)) draft.old draft.new }
{
    match s.mean(author) {
        Ok(mean) => {
            draft.figure(b"mean ", u64::from(mean.whole));
            draft.figure(b" remainder ", u64::from(mean.remainder));
            draft.word(b"\n");
        }
        Err(refusal) => draft.refusal(refusal.number(), None),
    }
}

fn write_digits(sheet: &[u8], draft: &mut Draft)
    ensures { Appends (digits_line sheet.now) draft.old draft.new }
{
    draft.word(b"sheet ");
    draft.hex(sheet);
    draft.word(b"\n");
}

// Every sheet fits a draft.
fn write_sheet(s: &Session, draft: &mut Draft)
    ensures { Appends (held_line s.now) draft.old draft.new }
{
    let mut sheet = [0u8; text::DRAFT];
    match certify::write(s, &mut sheet) {
        Ok(size) => write_digits(&sheet[..size], draft),
        Err(refusal) => draft.refusal(refusal.number(), None),
    }
}

// The bytes of the digits fit a draft.
fn check(digits: &[u8], draft: &mut Draft)
    requires { length digits.now ≤ line_room }
    ensures { Appends (check_report (judge (paired digits.now))) draft.old draft.new }
{
    let mut buffer = [0u8; text::DRAFT];
    let mut sheet = Draft::new(&mut buffer);
    numbers::unhex(digits, &mut sheet);
    judgement::write(draft, certificate::check(sheet.written()));
}

fn screen(text: &[u8], draft: &mut Draft)
    ensures { Appends (screen_line text.now) draft.old draft.new }
{
    report::screenings::write(draft, fork::screen(text));
}

fn open(s: &mut Session, n: u8, draft: &mut Draft)
    ensures { (any : Session) → Adds (CommandDone any (open_session n)) draft.old draft.new s.new }
{
    let opening = Session::open(n);
    *s = opening.session;
    write_changed(opening.opened, draft);
}

fn read_text(s: &mut Session, text: &[u8], draft: &mut Draft)
    ensures { (any : Session) → Adds (CommandDone any (read_text text.now)) draft.old draft.new s.new }
{
    let clausified = clausify::clausify(text);
    *s = clausified.session;
    write_clausified(clausified.read, clausified.goal, draft);
}

fn add_flat(s: &mut Session, left: AtomSet, right: AtomSet, draft: &mut Draft)
    ensures { Adds (CommandDone s.old (call_book (add (add_flat (flat_of left right))))) draft.old draft.new s.new }
{
    write_changed(s.add_flat(left, right), draft);
}

fn add_implication(s: &mut Session, a: u8, b: u8, c: u8, draft: &mut Draft)
    ensures { Adds (CommandDone s.old (call_book (add (add_implication (record { a = a; b = b; c = c }))))) draft.old draft.new s.new }
{
    write_changed(s.add_implication(Implication { a, b, c }), draft);
}

fn ask(s: &mut Session, author: u8, goal: u8, draft: &mut Draft)
    ensures { Adds (CommandDone s.old (call_book (question author goal))) draft.old draft.new s.new }
{
    let verdict = s.ask(author, goal);
    let questions = s.work_of(author).questions;
    report::write(draft, verdict, s, questions);
}

fn set_mark(s: &mut Session, mark: u8, draft: &mut Draft)
    ensures { Adds (CommandDone s.old (call_book (set_mark mark))) draft.old draft.new s.new }
{
    write_changed(s.set_mark(mark), draft);
}

fn return_to(s: &mut Session, mark: u8, draft: &mut Draft)
    ensures { Adds (CommandDone s.old (call_book (return_to mark))) draft.old draft.new s.new }
{
    write_changed(s.return_to(mark), draft);
}

// Makes a call with large tables and writes what is printed of it.
fn answer_large(s: &mut Session, call: Large, draft: &mut Draft)
    requires { (line : List ℕ) × Inside line (as_call call) × (length line ≤ line_room) }
    ensures { (number : ℕ) → Adds (LineDone s.old number (meaning (as_call call.entry))) draft.old draft.new s.new }
{
    match call {
        Large::Text(text) => read_text(s, text, draft),
        Large::Page(words) => pages::page(s, words, draft),
        Large::Sheet => write_sheet(s, draft),
        Large::Check(digits) => check(digits, draft),
        Large::Screen(text) => screen(text, draft),
    }
}

// Makes the call of the line of this number and writes what is printed of it.
#[inline]
fn make_call(s: &mut Session, number: u64, line: &[u8], p: Pending, draft: &mut Draft)
    ensures { Answered s.old number line.now p draft.old draft.new s.new }
{
    let n = p.length.min(line.len()).min(super::LINE);
    match super::kept_call(&line[..n], p.blank) {
        Call::Silent => {}
        Call::NoCall => numbered(draft, b"line ", number, b" is no call\n"),
        Call::Open(n) => open(s, n, draft),
        Call::Text(text) => answer_large(s, Large::Text(text), draft),
        Call::Flat(left, right) => add_flat(s, left, right, draft),
        Call::Implication(a, b, c) => add_implication(s, a, b, c, draft),
        Call::Ask(author, goal) => ask(s, author, goal, draft),
        Call::Page(words) => answer_large(s, Large::Page(words), draft),
        Call::Mark(number) => set_mark(s, number, draft),
        Call::Return(number) => return_to(s, number, draft),
        Call::Length => write_length(s, draft),
        Call::Sheet => answer_large(s, Large::Sheet, draft),
        Call::Check(digits) => answer_large(s, Large::Check(digits), draft),
        Call::Mean(author) => write_mean(s, author, draft),
        Call::Screen(text) => answer_large(s, Large::Screen(text), draft),
    }
}

// Answers the line of this number: makes its call and writes what is printed of it; returns how many bytes were written.
pub fn answer_line(
    s: &mut Session,
    number: u64,
    line: &[u8],
    p: Pending,
    output: &mut [u8],
) -> usize
    ensures { Answers s.old number line.now p output.old output.new (record { session = s.new; length = result }) }
{
    let mut draft = Draft::new(output);
    make_call(s, number, line, p, &mut draft);
    draft.len()
}
