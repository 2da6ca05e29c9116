// A text that is made up in a buffer. Bytes for which there is no room are dropped.
ghost use Rattle.std.specs.Prelude.{◌≡◌, ◌≤◌, ◌<◌, length};
ghost use Rattle.text.specs.Text.{hex_digit};

use atoms::AtomSet;

#[derive(Drop)]
pub struct Draft<'a> {
    text: &'a mut [u8],
    len: usize,
    ghost inside: { len ≤ length text.now },
}

fn hex_digit(d: u8) -> u8
    requires { d < 16 }
    ensures { result ≡ hex_digit d }
{
    match d {
        0..=9 => b'0' + d,
        _ => b'a' + (d - 10),
    }
}

impl<'a> Draft<'a> {
    ghost use Rattle.std.specs.Prelude.{List, ℕ, ◌++◌, eqb, min, take};
    ghost use Rattle.atoms.specs.Words.{num};
    ghost use Rattle.text.specs.Text.{decimal, hex, refusal_told};
    ghost use Rattle.text.specs.Output.{draft, Holds, Appends, Reported};

    // Nothing stands in it yet.
    pub fn new(text: &'a mut [u8]) -> Draft<'a>
        ensures same_reference { result.text.ghost_name ≡ text.entry.ghost_name }
        ensures same { result.text.now ≡ text.old }
        ensures empty { result.len ≡ 0 }
    {
        Draft { text, len: 0 }
    }

    // The first bytes of the buffer stand in it.
    pub fn resume(text: &'a mut [u8], len: usize) -> Draft<'a>
        ensures same_reference { result.text.ghost_name ≡ text.entry.ghost_name }
        ensures same { result.text.now ≡ text.old }
        ensures resumed { result.len ≡ min len (length text.old) }
    {
        let len = len.min(text.len());
        Draft { text, len }
    }

    pub fn len(&self) -> usize
        ensures { result ≡ self.now.len }
    {
        self.len
    }

    // There is no room for another byte.
    pub fn is_full(&self) -> bool
        ensures { result ≡ eqb self.now.len (length self.now.text.now) }
    {
        self.len == self.text.len()
    }

    pub fn written(&self) -> &[u8]
        ensures { result.now ≡ take self.now.len self.now.text.now }
    {
        &self.text[..self.len]
    }

    pub fn word(&mut self, bytes: &[u8])
        ensures { Appends bytes.now self.old self.new }
    {
        let n = bytes.len().min(self.text.len() - self.len);
        let end = self.len + n;
        self.text[self.len..end].copy_from_slice(&bytes[..n]);
        self.len = end;
    }

    // Bytes in base sixteen, two digits each.
    pub fn hex(&mut self, bytes: &[u8])
        ensures { Appends (hex bytes.now) self.old self.new }
    {
        for &b in bytes {
            self.word(&[hex_digit(b / 16), hex_digit(b % 16)]);
        }
    }

    // A set's number in base ten.
    fn set(&mut self, s: AtomSet)
        ensures { Appends (decimal (num s)) self.old self.new }
    {
        let tenth = s.tenth();
        if !tenth.rest.is_empty() {
            self.set(tenth.rest);
        }
        self.word(&[b'0' + tenth.digit]);
    }

    // A set's number after a label.
    pub fn labelled(&mut self, label: &[u8], s: AtomSet)
        ensures { Appends (label.now ++ decimal (num s)) self.old self.new }
    {
        self.word(label);
        self.set(s);
    }

    // A number after a label.
    pub fn figure(&mut self, label: &[u8], x: u64)
        ensures { Appends (label.now ++ decimal x) self.old self.new }
    {
        self.labelled(label, AtomSet::numbered(x));
    }

    // The line of a refusal, with its place where it has one.
    pub fn refusal(&mut self, number: u8, place: Option<usize>)
        ensures { Appends (refusal_told number place) self.old self.new }
    {
        self.figure(b"refused ", u64::from(number));
        if let Some(place) = place {
            self.figure(b" at ", place as u64);
        }
        self.word(b"\n");
    }

    // Copies the text to the output, where it is all of it and fits; returns its length, else 0.
    pub fn hand_over(&self, output: &mut [u8]) -> usize
        ensures { (T : List ℕ) → Holds T self.now → length self.now.text.now ≡ draft → Reported T output.old output.new result }
    {
        super::hand_over(self.text, self.len, output)
    }
}
