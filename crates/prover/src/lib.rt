// A session: it holds clauses, decides whether they force a goal, keeps what it learned, comes back to marks, and counts for whom it worked.
#![tactic(auto)]

ghost use Rattle.std.specs.Prelude.{◌≡◌, OnErr};
ghost use Rattle.prover.specs.Told.{changed, answered};
ghost use Rattle.prover.specs.PerVerdict.{per_verdict};
ghost use Rattle.prover.specs.Calls.{Opened, FlatAdded, ImplicationAdded, Asked, MarkSet, MarkReturned, mean_told};
ghost use Rattle.prover.specs.Work.{work_at, works_of};

use atoms::AtomSet;
use refusal::Refusal;

mod additions;
mod counting;
mod marking;
mod paging;
mod question;
mod range;
mod realization;
mod settling;
mod working;

#[derive(Clone, Copy)]
pub struct Flats {
    pub count: usize,
    pub left: [u64; ipl::FLATS * atoms::WORDS],
    pub right: [u64; ipl::FLATS * atoms::WORDS],
}

// (a → b) → c.
#[derive(Clone, Copy, Debug, PartialEq, Eq)]
pub struct Implication {
    pub a: u8,
    pub b: u8,
    pub c: u8,
}

#[derive(Clone, Copy)]
pub struct Implications {
    pub count: usize,
    pub rows: [Implication; ipl::IMPLICATIONS],
}

// Learned steps: an implication's number and the set assumed.
#[derive(Clone, Copy)]
pub struct Steps {
    pub count: usize,
    pub numbers: [u8; ipl::STEPS],
    pub assumed: [u64; ipl::STEPS * atoms::WORDS],
}

#[derive(Clone, Copy)]
pub struct Worlds {
    pub count: usize,
    pub sets: [u64; ipl::WORLDS * atoms::WORDS],
}

// A mark's number, and how many flat clauses, implications and steps it remembers.
#[derive(Clone, Copy)]
pub struct Mark {
    pub number: u8,
    pub flats: usize,
    pub implications: usize,
    pub steps: usize,
}

// In the order in which they were last set. There is a row more than there are numbers, so that one more always has room.
#[derive(Clone, Copy)]
pub struct Marks {
    pub count: usize,
    pub rows: [Mark; ipl::MARKS + 1],
}

// The classical questions of an author's goals that were decided, and how many goals these were.
#[derive(Clone, Copy, Debug, PartialEq, Eq)]
pub struct Work {
    pub questions: u32,
    pub verdicts: u32,
}

// A row for each author.
#[derive(Clone, Copy)]
pub struct Authors {
    pub rows: [Work; ipl::AUTHORS],
}

// The last verdict with its goal, until a clause is added or a mark returned to.
#[derive(Clone, Copy, Debug, PartialEq, Eq)]
pub enum Held {
    Nothing,
    Valid(u8),
    Refuted(u8),
}

// Unused rows of the tables are never looked at.
#[derive(Clone, Copy)]
pub struct Session {
    pub n: u8,
    pub flats: Flats,
    pub implications: Implications,
    pub steps: Steps,
    pub worlds: Worlds,
    pub held: Held,
    pub marks: Marks,
    pub authors: Authors,
}

// What an opening gave: a session in any case, so that the caller's own stays.
#[derive(Clone, Copy)]
pub struct Opening {
    pub opened: Result<(), Refusal>,
    pub session: Session,
}

// Valid, with the count of steps held; or refuted, with the count of worlds.
#[derive(Clone, Copy, Debug, PartialEq, Eq)]
pub enum Verdict {
    Valid(usize),
    Refuted(usize),
}

// Whole questions per verdict, and the remainder.
#[derive(Clone, Copy, Debug, PartialEq, Eq)]
pub struct Mean {
    pub whole: u32,
    pub remainder: u32,
}

// What a page says of a goal: valid, with the count of steps held; refuted by its own search, with the count of worlds, or by the
// model of an earlier goal, with that goal's place; or refused. No page leaves a goal open.
#[derive(Clone, Copy, Debug, PartialEq, Eq)]
pub enum GoalAnswer {
    Open,
    Valid(usize),
    Refuted(usize),
    RefutedBy(usize),
    Refused(Refusal),
}

// A goal of a page, the place for its answer, and beside it the worlds of its own search.
#[derive(Clone, Copy)]
pub struct GoalRecord {
    pub goal: u8,
    pub answer: GoalAnswer,
    pub worlds: Worlds,
}

impl Session {
    // The empty session of one atom.
    pub fn new() -> Session
        ensures { Opened 1 (record { refusal = 0; session = result }) }
    {
        additions::empty(1)
    }

    // The empty session of n atoms. Refused 5: that of one atom.
    pub fn open(n: u8) -> Opening
        ensures { Opened n (changed result.opened result.session) }
    {
        if !ipl::count_in_range(n) {
            return Opening {
                opened: Err(Refusal::Range),
                session: additions::empty(1),
            };
        }
        Opening {
            opened: Ok(()),
            session: additions::empty(n),
        }
    }

    // Adds a flat clause. Refused 5, 6, 7: the session stays as it was.
    pub fn add_flat(&mut self, left: AtomSet, right: AtomSet) -> Result<(), Refusal>
        ensures added { FlatAdded self.old left right (changed result self.new) }
        ensures unchanged { OnErr result (self.new ≡ self.old) }
    {
        self.check_flat(left, right)?;
        self.push_flat(left, right);
        Ok(())
    }

    // Adds the implication and its closing clause. Refused 5, 6, 7, 8: the session stays as it was.
    pub fn add_implication(&mut self, i: Implication) -> Result<(), Refusal>
        ensures added { ImplicationAdded self.old i.a i.b i.c (changed result self.new) }
        ensures unchanged { OnErr result (self.new ≡ self.old) }
    {
        self.check_implication(i)?;
        self.push_implication(i);
        Ok(())
    }

    // Do the clauses force the goal? An author asks. Refused 5, 20, 6, 11, 12: the session stays as it was.
    pub fn ask(&mut self, author: u8, goal: u8) -> Result<Verdict, Refusal>
        ensures asked { Asked self.old author goal (answered result self.new) }
        ensures unchanged { OnErr result (self.new ≡ self.old) }
    {
        self.check_question(author, goal)?;
        settling::settle(self, author, goal)
    }

    // Sets a mark: what is held now can be come back to. Refused 5, 17: the session stays as it was.
    pub fn set_mark(&mut self, mark: u8) -> Result<(), Refusal>
        ensures marked { MarkSet self.old mark (changed result self.new) }
        ensures unchanged { OnErr result (self.new ≡ self.old) }
    {
        self.check_mark(mark)?;
        self.mark_now(mark);
        Ok(())
    }

    // Comes back to a mark: what was added since is dropped, and so is the verdict. Refused 5, 17, 18: the session stays as it was.
    pub fn return_to(&mut self, mark: u8) -> Result<(), Refusal>
        ensures returned { MarkReturned self.old mark (changed result self.new) }
        ensures unchanged { OnErr result (self.new ≡ self.old) }
    {
        let place = self.place_of_mark(mark)?;
        self.cut_to(place);
        Ok(())
    }

    // An author's work; none where there is no such author.
    pub fn work_of(&self, author: u8) -> Work
        ensures { result ≡ work_at (works_of self.now.authors) author }
    {
        self.authors.work_of(author)
    }

    // How many questions an author's verdicts took, in the mean. Refused 5, 20, 21.
    pub fn mean(&self, author: u8) -> Result<Mean, Refusal>
        ensures { per_verdict result ≡ mean_told self.now author }
    {
        let work = self.work_for_mean(author)?;
        Ok(work.mean())
    }
}
