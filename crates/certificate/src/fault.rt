// Why a certificate is refused (document 01: refusals 13 to 16).
ghost use Rattle.std.specs.Prelude.{◌≡◌};
ghost use Rattle.certificate.specs.Faults.{number_of, place_of};

use refusal::Refused;

#[derive(Clone, Copy, Debug, PartialEq, Eq, Hash)]
pub enum Fault {
    // The bytes break the layout,
    Layout,
    // a number or a count is out of range,
    Range,
    // a closing clause is missing,
    NotClosed,
    // a step or a world is wrong; the number of steps, where only the goal fails.
    Wrong(usize),
}

impl Fault {
    pub fn number(self) -> u8
        ensures { result ≡ number_of self }
    {
        match self {
            Fault::Layout => 13,
            Fault::Range => 14,
            Fault::NotClosed => 15,
            Fault::Wrong(_) => 16,
        }
    }

    // The place that is told with 16; no other refusal has one.
    pub fn place(self) -> Option<usize>
        ensures { result ≡ place_of self }
    {
        match self {
            Fault::Wrong(place) => Some(place),
            _ => None,
        }
    }
}

impl Refused for Fault {
    ghost told_number = { number_of };

    ghost told_place = { place_of };

    fn number(self) -> u8 {
        Fault::number(self)
    }

    fn place(self) -> Option<usize> {
        Fault::place(self)
    }
}
