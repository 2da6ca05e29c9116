// Classical questions: do the clauses of a table and a set of atoms prove an atom? If not, the smallest model that says so.
#![tactic(auto)]

ghost use Rattle.std.specs.Prelude.{◌≡◌, min};
ghost use Rattle.atoms.specs.Sets.{limit};
ghost use Rattle.atoms.specs.Words.{num};
ghost use Rattle.ipl.specs.Question.{ask};
ghost use Rattle.ipl.specs.Search.{is_none};
ghost use Rattle.sat.specs.Table.{clauses, all_hold};
ghost use Rattle.sat.specs.Answer.{answer_of, Countering, Attempted, AskedKeeping, ProvedKeeping};

use atoms::AtomSet;

mod clauses;
mod known;
mod learning;
mod longer;
mod propagation;
mod search;

use clauses::Clauses;
use known::Partial;
use search::Found;

// How many conflicts a question may meet before it learns from them.
const PATIENCE: u64 = 8;

// The answer, and how many rows are then kept. None is yes; no is the smallest model that has the atoms given and lacks the atom asked
// for.
#[derive(Clone, Copy)]
pub struct Asked {
    pub answer: Option<AtomSet>,
    pub kept: usize,
}

// Whether it is proved, and how many rows are then kept.
#[derive(Clone, Copy)]
pub struct Proof {
    pub proved: bool,
    pub kept: usize,
}

// What a model that counters must have and lack: nothing from n on, and not the atom asked. None where it is to have an atom that it
// is to lack.
fn countering(n: u8, given: AtomSet, asked: u8) -> Option<Partial>
    ensures { Countering n (num given) asked result }
{
    let past = AtomSet::below(n).complement();
    let lacked = past.join(AtomSet::single(asked));
    if given.meets(lacked) {
        return None;
    }
    given.bounded();
    lacked.bounded();
    Some(Partial {
        has: given,
        lacks: lacked,
    })
}

// The answer of a search that meets few conflicts; else what a model that counters must have and lack.
fn attempt(t: Clauses, n: u8, given: AtomSet, asked: u8) -> Result<Option<AtomSet>, Partial>
    ensures { Attempted n (num given) asked (ask (min n limit) (clauses t.entry.left.now t.entry.right.now t.entry.count) (num given) asked) result }
{
    let Some(base) = countering(n, given, asked) else {
        return Ok(None);
    };
    match search::least(&t, base, PATIENCE) {
        Found::Least(m) => Ok(Some(m)),
        Found::Blocked(_) => Ok(None),
        Found::GaveUp => Err(base),
    }
}

// Do the first `count` clauses of the table, over atoms below n, and the atoms `given` prove the atom `asked`? ⊥ is `ipl::BOTTOM`.
pub fn ask(
    left: &[u64],
    right: &[u64],
    count: usize,
    n: u8,
    given: AtomSet,
    asked: u8,
) -> Option<AtomSet>
    ensures { answer_of result ≡ ask (min n limit) (clauses left.now right.now count) (num given) asked }
{
    let mut kept = [0u64; 2 * atoms::WORDS];
    ask_keeping(left, right, count, n, given, asked, &mut kept, 0).answer
}

// The same question. The first `rows` rows kept in the table lent, each in two of its rows, are taken for rows that follow from the
// clauses; where they do, so do those that it keeps then, as many as is said.
pub fn ask_keeping(
    left: &[u64],
    right: &[u64],
    count: usize,
    n: u8,
    given: AtomSet,
    asked: u8,
    kept: &mut [u64],
    rows: usize,
) -> Asked
    ensures { AskedKeeping left.now right.now count kept.old rows
        (ask (min n limit) (clauses left.now right.now count) (num given) asked) kept.new result }
{
    let t = Clauses { left, right, count };
    match attempt(t, n, given, asked) {
        Ok(answer) => Asked { answer, kept: rows },
        Err(base) => longer::settle(t, base, true, kept, rows),
    }
}

// The same question, answered by yes or no.
pub fn proves(
    left: &[u64],
    right: &[u64],
    count: usize,
    n: u8,
    given: AtomSet,
    asked: u8,
    kept: &mut [u64],
    rows: usize,
) -> Proof
    ensures { ProvedKeeping left.now right.now count kept.old rows
        (ask (min n limit) (clauses left.now right.now count) (num given) asked) kept.new result }
{
    let t = Clauses { left, right, count };
    match attempt(t, n, given, asked) {
        Ok(answer) => Proof {
            proved: answer.is_none(),
            kept: rows,
        },
        Err(base) => {
            let r = longer::settle(t, base, false, kept, rows);
            Proof {
                proved: r.answer.is_none(),
                kept: r.kept,
            }
        }
    }
}

// Whether the first `count` clauses are all true at m.
pub fn all_hold(left: &[u64], right: &[u64], count: usize, m: AtomSet) -> bool
    ensures { result ≡ all_hold left.now right.now (num m) count }
{
    propagation::each_holds(Clauses { left, right, count }, m)
}
