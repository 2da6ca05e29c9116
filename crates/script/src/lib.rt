// Scripts of calls: from a line's bytes to a call, and from a session and a line to the next session and the bytes printed. A script
// is read in pieces; of the line that has begun as many bytes are kept as a call can have.
#![tactic(auto)]

ghost use Rattle.std.specs.Prelude.{◌≡◌, option_copied};
ghost use Rattle.script.specs.Command.{is_blank};
ghost use Rattle.script.specs.Transcript.{number_after};
ghost use Rattle.script.specs.Pieces.{Longer, CallIs, GatheredWithin};

use reading::Call;
use text::Draft;

mod answers;
mod bytes;
mod numbers;
mod pages;
mod reading;
mod words;

pub use answers::answer_line;

// Room for a line: a longer one than a call can be fills it.
pub const LINE: usize = reading::MOST_BYTES + 1;

// Room for every answer.
pub const OUTPUT: usize = 524288;

// The line that has begun: how many of its bytes are kept, and whether all that came are spaces.
#[derive(Clone, Copy)]
pub struct Pending {
    pub length: usize,
    pub blank: bool,
}

impl Pending {
    // No byte has come yet.
    pub const NONE: Pending = Pending {
        length: 0,
        blank: true,
    };

    // Bytes that end no line join the one that has begun.
    fn join(&mut self, bytes: &[u8], line: &mut [u8])
        ensures { Longer bytes.now line.old self.old line.new self.new }
    {
        let mut kept = Draft::resume(line, self.length);
        kept.word(bytes);
        self.length = kept.len();
        self.blank = self.blank && is_blank(bytes);
    }
}

// The number of the next line.
pub fn number_after(number: u64) -> u64
    ensures { result ≡ number_after number }
{
    number.saturating_add(1)
}

#[tactic(auto, unfolding(crate::specs::Command::is_blank))]
fn is_blank(bytes: &[u8]) -> bool
    ensures { result ≡ is_blank bytes.now }
{
    bytes.iter().all(|b| *b == b' ')
}

// The call that the line is; of one that is too long, whether it is blank or a comment.
fn kept_call(line: &[u8], blank: bool) -> Call<'_>
    ensures { CallIs line.now blank result }
{
    if blank {
        return Call::Silent;
    }
    if line.len() <= reading::MOST_BYTES {
        return reading::read(line);
    }
    if line[0] == b'#' {
        Call::Silent
    } else {
        Call::NoCall
    }
}

// Goes on in a piece to the end of the line that has begun, and returns what follows it; where no line ends in the piece, all of it
// joins the line. The buffer of a line has `LINE` bytes.
pub fn gather<'a>(piece: &'a [u8], line: &mut [u8], pending: &mut Pending) -> Option<&'a [u8]>
    ensures { GatheredWithin piece.now line.old pending.old line.new pending.new (option_copied result) }
{
    let end = bytes::find(piece, b'\n');
    pending.join(&piece[..end], line);
    if end == piece.len() {
        return None;
    }
    Some(&piece[end + 1..])
}
