// The refusals of a text and of a call, by their numbers in documents 01 and 02.
#![tactic(auto)]

ghost use Rattle.std.specs.Prelude.{◌≡◌, ℕ, Option};
ghost use Rattle.refusal.specs.Numbers.{number_of, place_of};

// What can be printed as a refusal: it tells a number, and a place where it has one.
pub trait Refused: Copy {
    ghost told_number: { Self → ℕ };

    ghost told_place: { Self → Option ℕ };

    fn number(self) -> u8
        ensures { result ≡ told_number self };

    fn place(self) -> Option<usize>
        ensures { result ≡ told_place self };
}

#[derive(Clone, Copy, Debug, PartialEq, Eq, Hash)]
pub enum Refusal {
    // The author of a text: it is empty or too long,
    Length,
    // it opens too many parentheses,
    Depth,
    // no formula begins with more of it than so many bytes,
    Form(usize),
    // it has too many letters and names.
    Names,
    // The caller: a number of atoms, or a session, is out of range,
    Range,
    // an atom is,
    Atom,
    // the table of flat clauses is full,
    FlatsFull,
    // that of implications is,
    ImplicationsFull,
    // no verdict is held,
    NoVerdict,
    // the bytes lent are too few.
    NoRoom,
    // The problem: the search needs a world too many,
    WorldsFull,
    // or a step.
    StepsFull,
    // The caller again: there is no such mark,
    NoMark,
    // it was never set or is lost,
    MarkLost,
    // a page has too many goals,
    PageFull,
    // there is no such author,
    NoAuthor,
    // who has no verdict for a mean.
    NoMean,
    // The author of a text that is screened: it has too many letters.
    Letters,
}

impl Refusal {
    pub fn number(self) -> u8
        ensures { result ≡ number_of self }
    {
        match self {
            Refusal::Length => 1,
            Refusal::Depth => 2,
            Refusal::Form(_) => 3,
            Refusal::Names => 4,
            Refusal::Range => 5,
            Refusal::Atom => 6,
            Refusal::FlatsFull => 7,
            Refusal::ImplicationsFull => 8,
            Refusal::NoVerdict => 9,
            Refusal::NoRoom => 10,
            Refusal::WorldsFull => 11,
            Refusal::StepsFull => 12,
            Refusal::NoMark => 17,
            Refusal::MarkLost => 18,
            Refusal::PageFull => 19,
            Refusal::NoAuthor => 20,
            Refusal::NoMean => 21,
            Refusal::Letters => 22,
        }
    }

    // The place that is told with 3; no other refusal has one.
    pub fn place(self) -> Option<usize>
        ensures { result ≡ place_of self }
    {
        match self {
            Refusal::Form(place) => Some(place),
            _ => None,
        }
    }
}

impl Refused for Refusal {
    ghost told_number = { number_of };

    ghost told_place = { place_of };

    fn number(self) -> u8 {
        Refusal::number(self)
    }

    fn place(self) -> Option<usize> {
        Refusal::place(self)
    }
}

// A refusal by any number.
#[derive(Clone, Copy, Debug, PartialEq, Eq)]
pub struct Numbered {
    pub number: u8,
    pub place: Option<usize>,
}

impl Refused for Numbered {
    ghost told_number = { λ r. r.number };

    ghost told_place = { λ r. r.place };

    fn number(self) -> u8 {
        self.number
    }

    fn place(self) -> Option<usize> {
        self.place
    }
}
