// The numbers and the bytes that words stand for.
ghost use Rattle.std.specs.Prelude.{◌&&◌, ◌≡◌, ℕ, ◌+◌, ◌-◌, ◌*◌, ◌%◌, ◌^◌, ◌<◌, ◌≤◌, true, false, eqb, length, MatchOption, option_map};
ghost use Rattle.atoms.specs.Sets.{limit};
ghost use Rattle.atoms.specs.Words.{num};
ghost use Rattle.std.specs.List.{list_all};
ghost use Rattle.text.specs.Output.{Appends};
ghost use Rattle.script.specs.Numbers.{is_digit, is_hex_digit, hex_value, number_below, paired};

use atoms::AtomSet;
use text::Draft;

// What a word of digits can stand for: a byte, or a set.
pub trait Number: Copy {
    ghost value: { Self → ℕ };

    ghost bound: { ℕ };

    fn zero() -> Self
        ensures { (value result ≡ 0) × (0 < bound) };

    // The number with a digit behind its digits, where there is room for it.
    fn longer(self, digit: u8) -> Option<Self>
        ensures { MatchOption result (bound ≤ 10 * value self + digit) (λ r. (value r ≡ 10 * value self + digit) × (value r < bound)) };
}

impl Number for u8 {
    ghost value = { λ x. x };

    ghost bound = { 256 };

    fn zero() -> u8 {
        0
    }

    fn longer(self, digit: u8) -> Option<u8> {
        self.checked_mul(10)?.checked_add(digit)
    }
}

impl Number for AtomSet {
    ghost value = { num };

    ghost bound = { 2 ^ limit };

    fn zero() -> AtomSet {
        AtomSet::EMPTY
    }

    fn longer(self, digit: u8) -> Option<AtomSet> {
        self.with_digit(digit)
    }
}

#[tactic(auto, unfolding(crate::specs::Numbers::is_digit))]
fn digit(b: u8) -> Option<u8>
    ensures { MatchOption result (is_digit b ≡ false) (λ d. (is_digit b ≡ true) × (d ≡ b - 48)) }
{
    match b {
        b'0'..=b'9' => Some(b - b'0'),
        _ => None,
    }
}

// The number that the digits of a word are, if they are one.
pub fn number_in<N: Number>(word: &[u8]) -> Option<N>
    ensures { option_map N.value result ≡ number_below N.bound word.now }
{
    let mut number = N::zero();
    for b in word {
        number = number.longer(digit(*b)?)?;
    }
    Some(number)
}

#[tactic(auto, unfolding(crate::specs::Numbers::is_digit, crate::specs::Numbers::is_hex_letter, crate::specs::Numbers::is_hex_digit))]
fn is_hex_digit(b: u8) -> bool
    ensures { result ≡ is_hex_digit b }
{
    matches!(b, b'0'..=b'9' | b'a'..=b'f')
}

// The digits of whole bytes.
pub fn is_hex(word: &[u8]) -> bool
    ensures { result ≡ (list_all is_hex_digit word.now && eqb (length word.now % 2) 0) }
{
    word.iter().all(|b| is_hex_digit(*b)) && word.len() % 2 == 0
}

#[tactic(auto, unfolding(crate::specs::Numbers::is_digit, crate::specs::Numbers::is_hex_letter, crate::specs::Numbers::hex_value))]
fn hex_value(b: u8) -> u8
    ensures { (result ≡ hex_value b) × (result < 16) }
{
    match b {
        b'0'..=b'9' => b - b'0',
        b'a'..=b'f' => 10 + (b - b'a'),
        _ => 0,
    }
}

// Appends the bytes of two digits each.
pub fn unhex(word: &[u8], sheet: &mut Draft)
    ensures { Appends (paired word.now) sheet.old sheet.new }
{
    let mut rest = word;
    while let [high, low, further @ ..] = rest {
        sheet.word(&[16 * hex_value(*high) + hex_value(*low)]);
        rest = further;
    }
}
