// The contents, entry by entry: a cursor over the bytes.
ghost use Rattle.std.specs.Prelude.{◌≡◌, ◌<◌};
ghost use Rattle.certificate.specs.Reading.{entry_at, TakenRead};
ghost use Rattle.certificate.specs.Kinds.{byte_of};
ghost use Rattle.certificate.specs.Checked.{RowsRead};

use super::bytes_at::byte;
use super::places::{ENTRY_BYTES, Kind};
use atoms::little_endian::number;

// One entry of the contents.
#[derive(Clone, Copy)]
pub struct Entry {
    pub kind: u8,
    pub start: u32,
    pub size: u32,
}

// The lent bytes and a position.
#[derive(Clone, Copy)]
pub struct Reader<'a> {
    pub src: &'a [u8],
    pub at: usize,
}

// The entry at `at`; nothing where fewer bytes than it has are left.
fn entry_at(bytes: &[u8], at: usize) -> Option<Entry>
    ensures { result ≡ entry_at bytes.now at }
{
    let last = bytes.len().checked_sub(ENTRY_BYTES)?;
    if last < at {
        return None;
    }
    Some(Entry {
        kind: byte(bytes, at),
        start: number(bytes, at + 1, 4) as u32,
        size: number(bytes, at + 5, 4) as u32,
    })
}

impl<'a> Reader<'a> {
    // Takes the entry at the position and moves past it; where none is left, it stays.
    pub fn take(&mut self) -> Option<Entry>
        ensures { TakenRead self.old self.new result }
    {
        let entry = entry_at(self.src, self.at)?;
        self.at += ENTRY_BYTES;
        Some(entry)
    }

    // Takes an entry that must be of this kind and start: the rows of a width in its body after `extra` bytes.
    pub fn rows(&mut self, kind: Kind, start: usize, extra: usize, width: usize) -> Option<u32>
        requires { 0 < width }
        ensures { RowsRead self.old (byte_of kind) start extra width self.new result }
    {
        let entry = self.take()?;
        let body = (entry.size as usize).checked_sub(extra)?;
        if entry.kind != kind.byte() || entry.start as usize != start || body % width != 0 {
            return None;
        }
        Some((body / width) as u32)
    }
}
