// A first screen: a formula of at most three letters is worked out on the four-tipped fork, where most wrong conjectures already fall.
#![tactic(auto)]

mod algebra;
mod assignments;
mod implications;
mod rows;
mod screening;
pub mod sets;

pub use screening::screen;

// The whole, and how many sets there are.
pub const WHOLE: u8 = 16;

pub const SETS: usize = WHOLE as usize + 1;

pub const MOST_LETTERS: u8 = 3;

// The sets of a formula's letters, in order of first standing; of more letters than there are sets, all sets.
#[derive(Clone, Copy)]
pub struct LetterSets {
    pub sets: [u8; MOST_LETTERS as usize],
    pub letters: u8,
}

impl LetterSets {
    ghost use Rattle.std.specs.Prelude.{◌≡◌};
    ghost use Rattle.fork.specs.Answer.{sets_of};

    pub fn as_slice(&self) -> &[u8]
        ensures { result.now ≡ sets_of self.now }
    {
        let told = self.letters.min(MOST_LETTERS);
        &self.sets[..usize::from(told)]
    }
}

// Whether a formula gets the whole under every assignment; where it falls, the first sets of its letters for which it does not.
#[derive(Clone, Copy)]
pub enum Screened {
    Passes,
    Falls(LetterSets),
}
