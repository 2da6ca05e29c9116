// From a line's bytes to a call.
ghost use Rattle.std.specs.Prelude.{List, [], ◌∷◌, ◌++◌, ◌≡◌, ℕ, length, drop, Some, None, MatchOption};
ghost use Rattle.script.specs.Words.{words_of};
ghost use Rattle.script.specs.Numbers.{number_below};
ghost use Rattle.script.specs.Command.{only_byte, author_in, page_in, verb_of};
ghost use Rattle.script.specs.Parts.{first_of, Argument, no_word};
ghost use Rattle.script.specs.Reading.{GoalsAre, GoalsRead, Completes, Arguments, ReadAs};

use super::numbers::Number;
use super::{bytes, numbers, words};
use atoms::AtomSet;

// The most bytes of a call, without the byte 10 that ends its line.
pub const MOST_BYTES: usize = 32768;

#[derive(Clone, Copy)]
pub enum Verb {
    Open,
    Text,
    Flat,
    Implication,
    Ask,
    Page,
    Mark,
    Return,
    Length,
    Sheet,
    Check,
    Mean,
    Screen,
    Other,
}

// The goals of a page and its author: as many goals as there are rows, one more than a page may have.
#[derive(Clone, Copy)]
pub struct Goals {
    pub author: u8,
    pub count: usize,
    pub rows: [u8; ipl::GOALS + 1],
}

// What a line asks for: of a question the author stands first; of a page and of a sheet, the words that are its goals and its digits.
#[derive(Clone, Copy)]
pub enum Call<'a> {
    Silent,
    NoCall,
    Open(u8),
    Text(&'a [u8]),
    Flat(AtomSet, AtomSet),
    Implication(u8, u8, u8),
    Ask(u8, u8),
    Page(&'a [u8]),
    Mark(u8),
    Return(u8),
    Length,
    Sheet,
    Check(&'a [u8]),
    Mean(u8),
    Screen(&'a [u8]),
}

fn verb_of(word: &[u8]) -> Verb
    ensures { result ≡ verb_of word.now }
{
    if bytes::same(word, b"open") {
        return Verb::Open;
    }
    if bytes::same(word, b"text") {
        return Verb::Text;
    }
    if bytes::same(word, b"flat") {
        return Verb::Flat;
    }
    if bytes::same(word, b"implication") {
        return Verb::Implication;
    }
    if bytes::same(word, b"ask") {
        return Verb::Ask;
    }
    if bytes::same(word, b"page") {
        return Verb::Page;
    }
    if bytes::same(word, b"mark") {
        return Verb::Mark;
    }
    if bytes::same(word, b"return") {
        return Verb::Return;
    }
    if bytes::same(word, b"length") {
        return Verb::Length;
    }
    if bytes::same(word, b"sheet") {
        return Verb::Sheet;
    }
    if bytes::same(word, b"check") {
        return Verb::Check;
    }
    if bytes::same(word, b"mean") {
        return Verb::Mean;
    }
    if bytes::same(word, b"screen") {
        return Verb::Screen;
    }
    Verb::Other
}

// An argument that is a number, and what follows it.
fn argument<N: Number>(line: &[u8]) -> Option<(N, &[u8])>
    ensures { MatchOption result (first_of (number_below N.bound) (words_of line.now) ≡ None)
        (λ a. Argument (number_below N.bound) line.now (N.value a.0) a.1.now) }
{
    let (word, rest) = words::split_first(line)?;
    Some((numbers::number_in(word)?, rest))
}

// Whether no word follows.
fn is_last(line: &[u8]) -> bool
    ensures { result ≡ no_word (words_of line.now) }
{
    words::split_first(line).is_none()
}

// The call where no word follows.
fn if_last<'a>(line: &[u8], call: Call<'a>) -> Option<Call<'a>>
    ensures { Completes line.now call.entry result }
{
    is_last(line).then_some(call)
}

// The byte that is the only argument, if it is.
fn only_byte(line: &[u8]) -> Option<u8>
    ensures { result ≡ only_byte (words_of line.now) }
{
    let (x, rest) = argument(line)?;
    is_last(rest).then_some(x)
}

// What follows one space, if there is anything.
fn behind_space(line: &[u8]) -> &[u8]
    ensures { result.now ≡ drop 1 line.now }
{
    match line {
        [_, text @ ..] => text,
        [] => line,
    }
}

fn flat(line: &[u8]) -> Option<Call<'_>>
    ensures { Arguments Verb.Flat line.now result }
{
    let (left, rest) = argument(line)?;
    let (right, rest) = argument(rest)?;
    if_last(rest, Call::Flat(left, right))
}

fn implication(line: &[u8]) -> Option<Call<'_>>
    ensures { Arguments Verb.Implication line.now result }
{
    let (a, rest) = argument(line)?;
    let (b, rest) = argument(rest)?;
    let (c, rest) = argument(rest)?;
    if_last(rest, Call::Implication(a, b, c))
}

// The author whom the rest of the line names; the program, where there is no word.
fn author(line: &[u8]) -> Option<u8>
    ensures { result ≡ author_in (words_of line.now) }
{
    let Some((word, rest)) = words::split_first(line) else {
        return Some(ipl::PROGRAM);
    };
    if bytes::same(word, b"by") {
        only_byte(rest)
    } else {
        None
    }
}

fn ask(line: &[u8]) -> Option<Call<'_>>
    ensures { Arguments Verb.Ask line.now result }
{
    let (goal, rest) = argument(line)?;
    Some(Call::Ask(author(rest)?, goal))
}

impl Goals {
    // One goal more, where there is a row for it.
    fn push(&mut self, goal: u8)
        ensures { (gs : List ℕ) → GoalsAre gs self.old → GoalsAre (gs ++ (goal ∷ [])) self.new }
    {
        if self.count < ipl::GOALS + 1 {
            self.rows[self.count] = goal;
            self.count += 1;
        }
    }
}

// The goals that the words of a line are, and their author.
pub fn read_goals(line: &[u8]) -> Option<Goals>
    ensures { GoalsRead (page_in (words_of line.now)) result }
{
    let mut goals = Goals {
        author: ipl::PROGRAM,
        count: 0,
        rows: [0; ipl::GOALS + 1],
    };
    let mut rest = line;
    while let Some((goal, further)) = argument(rest) {
        goals.push(goal);
        rest = further;
    }
    let author = author(rest)?;
    Some(Goals { author, ..goals })
}

// No word is the empty sheet.
fn check_sheet(line: &[u8]) -> Option<Call<'_>>
    ensures { Arguments Verb.Check line.now result }
{
    let Some((digits, rest)) = words::split_first(line) else {
        return Some(Call::Check(&[]));
    };
    if !numbers::is_hex(digits) {
        return None;
    }
    if_last(rest, Call::Check(digits))
}

// The call of a verb, by what follows its word.
fn call_of(verb: Verb, line: &[u8]) -> Option<Call<'_>>
    ensures { Arguments verb line.now result }
{
    match verb {
        Verb::Open => Some(Call::Open(only_byte(line)?)),
        Verb::Text => Some(Call::Text(behind_space(line))),
        Verb::Flat => flat(line),
        Verb::Implication => implication(line),
        Verb::Ask => ask(line),
        Verb::Page => read_goals(line).is_some().then_some(Call::Page(line)),
        Verb::Mark => Some(Call::Mark(only_byte(line)?)),
        Verb::Return => Some(Call::Return(only_byte(line)?)),
        Verb::Length => if_last(line, Call::Length),
        Verb::Sheet => if_last(line, Call::Sheet),
        Verb::Check => check_sheet(line),
        Verb::Mean => Some(Call::Mean(only_byte(line)?)),
        Verb::Screen => Some(Call::Screen(behind_space(line))),
        Verb::Other => None,
    }
}

pub fn read(line: &[u8]) -> Call<'_>
    ensures { ReadAs line.now result }
{
    let Some((verb, rest)) = words::split_first(line) else {
        return Call::Silent;
    };
    if line[0] == b'#' {
        return Call::Silent;
    }
    if MOST_BYTES < line.len() {
        return Call::NoCall;
    }
    call_of(verb_of(verb), rest).unwrap_or(Call::NoCall)
}
