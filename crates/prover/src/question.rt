// A question: turns of the fixed search over its working tables, until it ends.
ghost use Rattle.std.specs.Prelude.{◌<◌, ℕ};
ghost use Rattle.atoms.specs.Words.{num};
ghost use Rattle.ipl.specs.Search.{most_turns, search};
ghost use Rattle.prover.specs.State.{implications_of, steps_of};
ghost use Rattle.prover.specs.Search.{Askable, AskedIn, Working, Began, Grew, LearnFits, Learned, TurnRight, Fresh, Laid, flats_in, Ended};
ghost use Rattle.prover.specs.Working.{Usable, StepsKnown};

use super::realization::{self, Pair};
use super::working::{Kept, Known};
use super::{Flats, Implications, Steps, Worlds};
use atoms::AtomSet;
use refusal::Refusal;

// The working tables and where the search stands in them: the clauses known, of which so many are flat clauses of the problem, the
// steps and the worlds, the pair to look at next, the rows kept, and the questions so far.
#[derive(Drop)]
pub struct Search {
    pub known: Known,
    pub flats: usize,
    pub steps: Steps,
    pub worlds: Worlds,
    pub pair: Pair,
    pub kept: Kept,
    pub questions: usize,
}

// How a search ends that is not refused.
#[derive(Clone, Copy)]
pub enum End {
    Valid,
    Refuted,
}

impl Search {
    // Before the first turn.
    pub fn new(flats: &Flats, steps: &Steps, worlds: &Worlds, x: &Implications) -> Search
        requires { StepsKnown flats.now steps.now x.now }
        ensures { (n : ℕ) → Usable n x.now → Laid flats.now steps.now x.now result }
    {
        Search {
            known: Known::of(flats, steps, x),
            flats: flats.count,
            steps: *steps,
            worlds: Worlds {
                count: 0,
                ..*worlds
            },
            pair: Pair::FIRST,
            kept: Kept::none(),
            questions: 0,
        }
    }

    // Puts a question to all clauses known.
    fn ask(&mut self, n: u8, given: AtomSet, asked: u8) -> Option<AtomSet>
        requires { Askable self.old }
        ensures { AskedIn n (num given) asked self.old self.new result }
    {
        let count = self.flats + self.steps.count;
        self.questions += 1;
        self.known.ask(count, n, given, asked, &mut self.kept)
    }

    // Point 1: valid, or the one world.
    fn begin(&mut self, n: u8, goal: u8) -> Option<End>
        requires { Askable self.old }
        ensures { Began n goal self.old self.new result }
    {
        match self.ask(n, AtomSet::EMPTY, goal) {
            None => Some(End::Valid),
            Some(m) => {
                atoms::set_row(&mut self.worlds.sets, 0, m);
                self.worlds.count = 1;
                self.pair = Pair::FIRST;
                None
            }
        }
    }

    // Point 3: one world more.
    fn grow(&mut self, pair: Pair, m: AtomSet) -> Result<(), Refusal>
        ensures { Grew pair (num m) self.old self.new result }
    {
        let at = self.worlds.count;
        if ipl::WORLDS <= at {
            return Err(Refusal::WorldsFull);
        }
        atoms::set_row(&mut self.worlds.sets, at, m);
        self.worlds.count = at + 1;
        self.pair = pair;
        Ok(())
    }

    // Point 4: the step learned at implication i from the set `given`, with its clause.
    fn learn(&mut self, n: u8, x: &Implications, i: usize, given: AtomSet) -> Result<(), Refusal>
        requires { LearnFits n i self.old }
        ensures { Learned n x.now i (num given) self.old self.new result }
    {
        let at = self.steps.count;
        if ipl::STEPS <= at {
            return Err(Refusal::StepsFull);
        }
        let implication = x.rows[i];
        let count = self.flats + at;
        let assumed = self
            .known
            .drop_atoms(count, n, given, implication.b, &mut self.kept);
        self.known.write_learned(count, implication, assumed);
        self.steps.numbers[at] = i as u8;
        atoms::set_row(&mut self.steps.assumed, at, assumed);
        self.steps.count = at + 1;
        self.worlds.count = 0;
        self.pair = Pair::FIRST;
        Ok(())
    }

    // One turn of the fixed search.
    fn turn(&mut self, n: u8, goal: u8, x: &Implications) -> Result<Option<End>, Refusal>
        requires { Usable n x.now × Working x.now self.old × (self.old.questions < most_turns) }
        ensures { TurnRight n goal x.now self.old self.new result }
    {
        if self.worlds.count == 0 {
            return Ok(self.begin(n, goal));
        }
        let Some(pair) = realization::next_pair(&self.worlds, x, self.pair) else {
            return Ok(Some(End::Refuted));
        };
        let i = x.rows[pair.implication];
        let given = atoms::row(&self.worlds.sets, pair.world).join(AtomSet::single(i.a));
        match self.ask(n, given, i.b) {
            Some(m) => self.grow(pair, m)?,
            None => self.learn(n, x, pair.implication, given)?,
        }
        Ok(None)
    }

    // Turns, until the search ends.
    pub fn proceed(&mut self, n: u8, goal: u8, x: &Implications) -> Result<End, Refusal>
        requires { Usable n x.now × Fresh x.now self.old }
        ensures { Ended (search n (flats_in self.old) (implications_of x.now) goal (steps_of self.old.steps)) self.new result }
    {
        loop {
            if let Some(end) = self.turn(n, goal, x)? {
                return Ok(end);
            }
        }
    }
}
