// Texts made up in a draft and handed over whole.
#![tactic(auto)]

ghost use Rattle.std.specs.Prelude.{List, ◌≡◌, ℕ, length};
ghost use Rattle.text.specs.Output.{draft, Begins, Reported};

mod draft;

pub use draft::Draft;

// The bytes of a draft.
pub const DRAFT: usize = 16384;

// Copies the text that n bytes of a buffer begin, where they are all of it and fit the output; returns its length, else 0.
pub fn hand_over(text: &[u8], n: usize, output: &mut [u8]) -> usize
    ensures { (T : List ℕ) → Begins T text.now n → length text.now ≡ draft → Reported T output.old output.new result }
{
    if text.len() <= n {
        return 0;
    }
    if output.len() < n {
        return 0;
    }
    output[..n].copy_from_slice(&text[..n]);
    n
}
