// The fork's upward closed sets by their numbers: 0 to 15 are sets of tips, and 16 is the whole.
ghost use Rattle.std.specs.Prelude.{◌≡◌};
ghost use Rattle.fork.specs.Algebra.{meet, join};

use super::WHOLE;

pub fn meet(a: u8, b: u8) -> u8
    ensures { result ≡ meet a b }
{
    if a == WHOLE {
        return b;
    }
    if b == WHOLE {
        return a;
    }
    a & b
}

pub fn join(a: u8, b: u8) -> u8
    ensures { result ≡ join a b }
{
    if a == WHOLE {
        return WHOLE;
    }
    if b == WHOLE {
        return WHOLE;
    }
    a | b
}
