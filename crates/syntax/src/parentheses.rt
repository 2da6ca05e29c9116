// Refusal 2: too many parentheses are open.
ghost use Rattle.std.specs.Prelude.{◌≤◌, length};
ghost use Rattle.syntax.specs.Refusal.{most_bytes, TooDeep, Decides};

// How many parentheses may be open.
const MOST_OPEN: usize = 64;

// Some beginning has too many more opening than closing parentheses. The reader has judged the length.
pub fn too_deep(s: &[u8]) -> bool
    requires { length s.now ≤ most_bytes }
    ensures { Decides result (TooDeep s.now) }
{
    let mut opened: usize = 0;
    let mut closed: usize = 0;
    for b in s {
        opened += usize::from(*b == b'(');
        closed += usize::from(*b == b')');
        if MOST_OPEN + closed < opened {
            return true;
        }
    }
    false
}
