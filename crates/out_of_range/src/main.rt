// Executed cases that no script can say: sessions and verdicts that no call gives, the ends of an author's counts, buffers of every
// length, records that hold something.
// `stdout` was worked out apart from this code.
#![tactic(auto)]

ghost use Rattle.std.specs.Prelude.{◌≤◌};

use atoms::AtomSet;
use prover::{
    Flats, GoalAnswer, GoalRecord, Held, Implication, Implications, Mark, Marks, Mean, Session,
    Steps, Verdict, Work, Worlds,
};
use refusal::Refusal;
use std::fmt;

// The sessions have atoms 0 to 2; this is the set of atom 3.
const OUTSIDE: u64 = 8;

const MOST_ATOMS: u8 = 64;

// The last author, who asks wherever no other is named.
const AUTHOR: u8 = 15;

// Where an author's counts stay.
const MOST: u32 = u32::MAX;

// What a buffer is filled with; no certificate begins with it.
const UNWRITTEN: u8 = 238;

// What a call gave, as it is printed.
#[derive(Drop)]
struct Shown<T>(T);

impl fmt::Display for Shown<Result<usize, Refusal>> {
    fn fmt<W: fmt::Write>(&self, f: &mut fmt::Formatter<W>) -> fmt::Result {
        match self.0 {
            Ok(n) => write!(f, " {n}"),
            Err(refusal) => write!(f, " refused {}", refusal.number()),
        }
    }
}

// The number of the refusal, or 0.
impl fmt::Display for Shown<Result<(), Refusal>> {
    fn fmt<W: fmt::Write>(&self, f: &mut fmt::Formatter<W>) -> fmt::Result {
        match self.0 {
            Ok(()) => f.write_str(" 0"),
            Err(refusal) => write!(f, " {}", refusal.number()),
        }
    }
}

impl fmt::Display for Shown<Result<Verdict, Refusal>> {
    fn fmt<W: fmt::Write>(&self, f: &mut fmt::Formatter<W>) -> fmt::Result {
        match self.0 {
            Ok(Verdict::Valid(steps)) => write!(f, " valid by {steps}"),
            Ok(Verdict::Refuted(worlds)) => write!(f, " refuted by {worlds}"),
            Err(refusal) => write!(
                f,
                " refused {} at {}",
                refusal.number(),
                refusal.place().unwrap_or(0)
            ),
        }
    }
}

impl fmt::Display for Shown<Result<Mean, Refusal>> {
    fn fmt<W: fmt::Write>(&self, f: &mut fmt::Formatter<W>) -> fmt::Result {
        match self.0 {
            Ok(mean) => write!(f, " {} remainder {}", mean.whole, mean.remainder),
            Err(refusal) => write!(f, " refused {}", refusal.number()),
        }
    }
}

impl fmt::Display for Shown<Held> {
    fn fmt<W: fmt::Write>(&self, f: &mut fmt::Formatter<W>) -> fmt::Result {
        match self.0 {
            Held::Nothing => f.write_str("nothing held"),
            Held::Valid(goal) => write!(f, "valid held of {goal}"),
            Held::Refuted(goal) => write!(f, "refuted held of {goal}"),
        }
    }
}

impl fmt::Display for Shown<&Session> {
    fn fmt<W: fmt::Write>(&self, f: &mut fmt::Formatter<W>) -> fmt::Result {
        let s = self.0;
        let work = s.work_of(AUTHOR);
        write!(
            f,
            "n {}, flats {}, implications {}, steps {}, worlds {}",
            s.n, s.flats.count, s.implications.count, s.steps.count, s.worlds.count
        )?;
        write!(
            f,
            ", questions {} in {}, {}",
            work.questions,
            work.verdicts,
            Shown(s.held)
        )
    }
}

impl fmt::Display for Shown<GoalAnswer> {
    fn fmt<W: fmt::Write>(&self, f: &mut fmt::Formatter<W>) -> fmt::Result {
        match self.0 {
            GoalAnswer::Open => f.write_str(" open"),
            GoalAnswer::Valid(steps) => write!(f, " valid by {steps}"),
            GoalAnswer::Refuted(worlds) => write!(f, " refuted by {worlds}"),
            GoalAnswer::RefutedBy(place) => write!(f, " refuted by the model of {place}"),
            GoalAnswer::Refused(refusal) => write!(f, " refused {}", refusal.number()),
        }
    }
}

impl fmt::Display for Shown<&GoalRecord> {
    fn fmt<W: fmt::Write>(&self, f: &mut fmt::Formatter<W>) -> fmt::Result {
        let r = self.0;
        write!(
            f,
            "goal {}{} with {} from {}",
            r.goal,
            Shown(r.answer),
            r.worlds.count,
            r.worlds.sets[0]
        )
    }
}

// The answers to a flat clause, an implication and a question, each put to the session that the last one left; then that session.
fn print_calls(rt: &impl Print, s: &Session) {
    let mut t = *s;
    let c = AtomSet::single(2);
    let flat = t.add_flat(c, c);
    let implication = t.add_implication(Implication { a: 2, b: 2, c: 2 });
    let question = t.ask(AUTHOR, 1);
    let _ = println!(rt;
        "; flat{}, implication{}, question{}; {}",
        Shown(flat),
        Shown(implication),
        Shown(question),
        Shown(&t)
    );
}

// What is told and written of a session, and the first and the last byte of the buffer then; and what the calls answer.
fn show(rt: &impl Print, what: &str, s: &Session, buffer: &mut [u8]) {
    let told = certify::length_told(s);
    let written = certify::write(s, buffer);
    let _ = print!(rt;
        "{what}: told{}, written{}, buffer",
        Shown(told),
        Shown(written)
    );
    if let (Some(first), Some(last)) = (buffer.first(), buffer.last()) {
        let _ = print!(rt; " {first}..{last}");
    }
    print_calls(rt, s);
}

// Into 90 bytes, more than the certificate has.
fn tried(rt: &impl Print, what: &str, s: &Session) {
    show(rt, what, s, &mut [UNWRITTEN; 90]);
}

fn opened() -> Session {
    Session::open(3).session
}

// Atom 0 gives 1; (0 → 1) → 2. That 2 holds is learned as a step, and 0 is refuted by the world of 2 alone.
fn asked() -> Session {
    let mut s = opened();
    let _ = s.add_flat(AtomSet::single(0), AtomSet::single(1));
    let _ = s.add_implication(Implication { a: 0, b: 1, c: 2 });
    let _ = s.ask(AUTHOR, 2);
    let _ = s.ask(AUTHOR, 0);
    s
}

// The session after a change that no call makes.
fn with<F: FnOnce(&mut Session)>(s: &Session, change: F) -> Session
    requires { F.IsAlwaysCallable change }
{
    let mut t = *s;
    change(&mut t);
    t
}

fn with_held(s: &Session, held: Held) -> Session {
    Session { held, ..*s }
}

fn wrong_flats(rt: &impl Print, s: &Session) {
    let many = with(s, |t| t.flats.count = ipl::FLATS + 1);
    tried(rt, "513 flat clauses", &many);
    let left = with(s, |t| t.flats.left[0] = OUTSIDE);
    tried(rt, "atom 3 on a left", &left);
    let right = with(s, |t| t.flats.right[atoms::WORDS] = OUTSIDE);
    tried(rt, "atom 3 on a right", &right);
    let unused = with(s, |t| t.flats.left[2 * atoms::WORDS] = OUTSIDE);
    tried(rt, "atom 3 in an unused row", &unused);
}

fn wrong_implications(rt: &impl Print, s: &Session) {
    let many = with(s, |t| t.implications.count = ipl::IMPLICATIONS + 1);
    tried(rt, "129 implications", &many);
    let a = with(s, |t| t.implications.rows[0].a = ipl::BOTTOM);
    tried(rt, "a is 255", &a);
    let b = with(s, |t| t.implications.rows[0].b = 3);
    tried(rt, "b is 3", &b);
    let c = with(s, |t| t.implications.rows[0].c = 254);
    tried(rt, "c is 254", &c);
}

fn wrong_steps(rt: &impl Print, s: &Session) {
    let many = with(s, |t| t.steps.count = ipl::STEPS + 1);
    tried(rt, "513 steps", &many);
    let number = with(s, |t| t.steps.numbers[0] = 1);
    tried(rt, "step of implication 1", &number);
    let assumed = with(s, |t| t.steps.assumed[0] = OUTSIDE);
    tried(rt, "step assumes atom 3", &assumed);
}

fn wrong_worlds(rt: &impl Print, s: &Session) {
    let many = with(s, |t| t.worlds.count = ipl::WORLDS + 1);
    tried(rt, "257 worlds", &many);
    let sets = with(s, |t| t.worlds.sets[0] = OUTSIDE);
    tried(rt, "world with atom 3", &sets);
}

// The answers to setting mark 1, a return to mark 0 and a question, each put to the session that the last one left; then that session.
fn print_marks(rt: &impl Print, what: &str, s: &Session) {
    let mut t = *s;
    let set = t.set_mark(1);
    let back = t.return_to(0);
    let question = t.ask(AUTHOR, 2);
    let _ = println!(rt;
        "{what}: mark{}, return{}, question{}; marks {}; {}",
        Shown(set),
        Shown(back),
        Shown(question),
        t.marks.count,
        Shown(&t)
    );
}

// So many marks, the first of which is this one, and the others are that.
fn with_marks(s: &Session, count: usize, first: Mark, other: Mark) -> Session {
    let mut rows = [other; ipl::MARKS + 1];
    rows[0] = first;
    Session {
        marks: Marks { count, rows },
        ..*s
    }
}

fn mark(number: u8, flats: usize, implications: usize, steps: usize) -> Mark {
    Mark {
        number,
        flats,
        implications,
        steps,
    }
}

fn wrong_marks(rt: &impl Print, s: &Session) {
    let now = mark(0, 2, 1, 1);
    let wrong = mark(8, 3, 2, 2);
    print_marks(rt, "one mark", &with_marks(s, 1, now, now));
    let unused = with_marks(s, 1, now, wrong);
    print_marks(rt, "wrong mark in an unused row", &unused);
    print_marks(rt, "nine marks", &with_marks(s, 9, now, now));
    let eighth = with_marks(s, 1, mark(8, 2, 1, 1), now);
    print_marks(rt, "mark 8", &eighth);
    let flats = with_marks(s, 1, mark(0, 3, 1, 1), now);
    print_marks(rt, "mark of 3 flat clauses", &flats);
    let implications = with_marks(s, 1, mark(0, 2, 2, 1), now);
    print_marks(rt, "mark of 2 implications", &implications);
    let steps = with_marks(s, 1, mark(0, 2, 1, 2), now);
    print_marks(rt, "mark of 2 steps", &steps);
}

// In range, but no calls lead there.
fn unreached_marks(rt: &impl Print, s: &Session) {
    let start = mark(0, 0, 0, 0);
    let now = mark(0, 2, 1, 1);
    print_marks(rt, "mark 0 twice", &with_marks(s, 2, start, now));
    print_marks(rt, "mark 0 eight times", &with_marks(s, 8, now, now));
    let falling = with_marks(s, 2, mark(2, 2, 1, 1), start);
    print_marks(rt, "marks that fall", &falling);
    let later = with_marks(s, 1, mark(0, 2, 0, 1), now);
    print_marks(rt, "marked step of a later implication", &later);
}

fn with_work(s: &Session, questions: u32, verdicts: u32) -> Session {
    with(s, |t| {
        t.authors.rows[usize::from(AUTHOR)] = Work {
            questions,
            verdicts,
        };
    })
}

fn print_question(rt: &impl Print, what: &str, s: &Session, author: u8, goal: u8) {
    let mut t = *s;
    let question = t.ask(author, goal);
    let _ = println!(rt; "{what}: question{}; {}", Shown(question), Shown(&t));
}

fn print_mean(rt: &impl Print, what: &str, s: &Session, author: u8) {
    let _ = println!(rt; "{what}: mean{}", Shown(s.mean(author)));
}

fn means(rt: &impl Print, s: &Session) {
    print_mean(rt, "of the author", s, AUTHOR);
    print_mean(rt, "of another", s, 0);
    print_mean(rt, "of author 16", s, AUTHOR + 1);
    print_mean(rt, "of author 255", s, 255);
    print_mean(rt, "7 in 3", &with_work(s, 7, 3), AUTHOR);
    print_mean(rt, "7 in none", &with_work(s, 7, 0), AUTHOR);
    print_mean(rt, "none in 3", &with_work(s, 0, 3), AUTHOR);
    print_mean(rt, "most in one", &with_work(s, MOST, 1), AUTHOR);
    let short = with_work(s, MOST, MOST - 1);
    print_mean(rt, "most in one short of that", &short, AUTHOR);
    let most = with_work(s, MOST - 1, MOST);
    print_mean(rt, "one short of that in most", &most, AUTHOR);
    let none = Session {
        n: 0,
        ..with_work(s, 7, 0)
    };
    print_mean(rt, "n 0 and no verdict", &none, AUTHOR);
    print_mean(rt, "n 0 and author 16", &none, AUTHOR + 1);
}

fn authors(rt: &impl Print, s: &Session) {
    print_question(rt, "author 0", s, 0, 0);
    print_question(rt, "author 15", s, AUTHOR, 0);
    print_question(rt, "author 16", s, AUTHOR + 1, 0);
    print_question(rt, "author 255 and goal 3", s, 255, 3);
    print_question(rt, "goal 3", s, AUTHOR, 3);
    let none = Session { n: 0, ..*s };
    print_question(rt, "n 0 and author 16", &none, AUTHOR + 1, 0);
    let short = with_work(s, MOST - 1, MOST - 1);
    tried(rt, "counts one short of their end", &short);
    tried(rt, "counts at their end", &with_work(s, MOST, MOST));
    tried(rt, "questions at their end", &with_work(s, MOST, 0));
    means(rt, s);
}

fn atom_counts(rt: &impl Print, s: &Session) {
    tried(rt, "n 0", &Session { n: 0, ..*s });
    let many = Session {
        n: MOST_ATOMS + 1,
        ..*s
    };
    tried(rt, "n 65", &many);
}

fn verdicts(rt: &impl Print, s: &Session) {
    tried(rt, "valid of 2", &with_held(s, Held::Valid(2)));
    tried(rt, "valid of 3", &with_held(s, Held::Valid(3)));
    tried(rt, "refuted of 254", &with_held(s, Held::Refuted(254)));
    let bottom = with_held(s, Held::Refuted(ipl::BOTTOM));
    tried(rt, "refuted of 255", &bottom);
    let empty = opened();
    let valid = with_held(&empty, Held::Valid(1));
    tried(rt, "valid without steps", &valid);
    let refuted = with_held(&empty, Held::Refuted(1));
    tried(rt, "refuted without worlds", &refuted);
}

// Around the 82 bytes of the certificate; no verdict comes before no room, and a session out of range before both.
fn buffers(rt: &impl Print, s: &Session) {
    show(rt, "exactly long enough", s, &mut [UNWRITTEN; 82]);
    show(rt, "one byte short", s, &mut [UNWRITTEN; 81]);
    show(rt, "no byte", s, &mut []);
    let t = with_held(s, Held::Nothing);
    show(rt, "no verdict, no byte", &t, &mut []);
    show(
        rt,
        "n 0, no verdict, no byte",
        &Session { n: 0, ..t },
        &mut [],
    )
}

// Every table full that a certificate of steps has.
fn full(s: &Session) -> Session {
    Session {
        held: Held::Valid(0),
        flats: Flats {
            count: ipl::FLATS,
            left: [1; ipl::FLATS * atoms::WORDS],
            right: [1; ipl::FLATS * atoms::WORDS],
        },
        implications: Implications {
            count: ipl::IMPLICATIONS,
            rows: [Implication {
                a: 0,
                b: ipl::BOTTOM,
                c: ipl::BOTTOM,
            }; ipl::IMPLICATIONS],
        },
        steps: Steps {
            count: ipl::STEPS,
            numbers: [127; ipl::STEPS],
            assumed: [1; ipl::STEPS * atoms::WORDS],
        },
        ..*s
    }
}

fn longest(rt: &impl Print, s: &Session) {
    show(rt, "full tables", s, &mut [UNWRITTEN; 13223]);
    show(
        rt,
        "full tables, one byte short",
        s,
        &mut [UNWRITTEN; 13222],
    )
}

// With an answer and worlds that no page has written.
fn written(goal: u8) -> GoalRecord {
    GoalRecord {
        goal,
        answer: GoalAnswer::Valid(7),
        worlds: Worlds {
            count: 9,
            sets: [u64::from(UNWRITTEN); ipl::WORLDS * atoms::WORDS],
        },
    }
}

// An author's page of so many records, the first with one goal and the others with another; what the first two of all then hold, and the
// session.
fn print_page(
    rt: &impl Print,
    what: &str,
    s: &Session,
    author: u8,
    count: usize,
    first: u8,
    other: u8,
)
    requires { count ≤ 66 }
{
    let mut t = *s;
    let mut records = [written(other); ipl::GOALS + 2];
    records[0] = written(first);
    let page = t.page(&mut records[..count], author);
    let _ = print!(rt; "{what}: page{} of {count}", Shown(page));
    for r in &records[..2] {
        let _ = print!(rt; "; {}", Shown(r));
    }
    let _ = println!(rt; "; {}", Shown(&t));
}

fn pages(rt: &impl Print, s: &Session) {
    print_page(rt, "no goal", s, AUTHOR, 0, 0, 0);
    print_page(rt, "one goal", s, AUTHOR, 1, 2, 0);
    print_page(rt, "two goals", s, AUTHOR, 2, 0, ipl::BOTTOM);
    print_page(rt, "64 goals", s, AUTHOR, 64, 0, 2);
    print_page(rt, "65 goals", s, AUTHOR, 65, 0, 2);
    print_page(rt, "more goals than rows", s, AUTHOR, 66, 0, 2);
    print_page(rt, "goal 3 behind another", s, AUTHOR, 2, 0, 3);
    print_page(rt, "65 goals, one of them 3", s, AUTHOR, 65, 3, 0);
    print_page(rt, "page of author 0", s, 0, 2, 0, 0);
    print_page(rt, "page of author 16", s, AUTHOR + 1, 1, 0, 0);
    print_page(rt, "page of author 16, 65 goals", s, AUTHOR + 1, 65, 0, 0);
    print_page(rt, "page of author 255, goal 3", s, 255, 1, 3, 0);
    let most = with_work(s, MOST, MOST - 1);
    print_page(rt, "questions at their end", &most, AUTHOR, 2, 0, 0);
    let none = Session { n: 0, ..*s };
    print_page(rt, "n 0 and 65 goals", &none, AUTHOR, 65, 0, 0);
    print_page(rt, "n 0 and author 16", &none, AUTHOR + 1, 1, 0, 0);
}

fn run(rt: &impl Print) {
    let s = asked();
    tried(rt, "in range", &s);
    atom_counts(rt, &s);
    wrong_flats(rt, &s);
    wrong_implications(rt, &s);
    wrong_steps(rt, &s);
    wrong_worlds(rt, &s);
    wrong_marks(rt, &s);
    unreached_marks(rt, &s);
    verdicts(rt, &s);
    buffers(rt, &s);
    longest(rt, &full(&s));
    authors(rt, &s);
    pages(rt, &s);
}

fn main(rt: HostRuntime) {
    run(&rt);
}
