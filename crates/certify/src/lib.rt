// Writes the certificate (document 01: answer sheet) of the verdict that a session holds.
#![tactic(auto)]

ghost use Rattle.std.specs.Prelude.{◌≡◌};
ghost use Rattle.certify.specs.Written.{length_told, Written};

use prover::{Held, Session};
use refusal::Refusal;

mod rows;
mod sheet;

// The length of the certificate of the verdict held. Refused 5, 9.
pub fn length_told(s: &Session) -> Result<usize, Refusal>
    ensures { result ≡ length_told s.now }
{
    if s.in_range() {
        sheet::told(s)
    } else {
        Err(Refusal::Range)
    }
}

// Writes the certificate of the verdict held at the start of the buffer, and gives its length. Refused 5, 9, 10: nothing is written.
pub fn write(s: &Session, buffer: &mut [u8]) -> Result<usize, Refusal>
    ensures { Written s.now buffer.old result buffer.new }
{
    if !s.in_range() {
        return Err(Refusal::Range);
    }
    match s.held {
        Held::Nothing => Err(Refusal::NoVerdict),
        Held::Valid(goal) => sheet::write(s, goal, false, buffer),
        Held::Refuted(goal) => sheet::write(s, goal, true, buffer),
    }
}
