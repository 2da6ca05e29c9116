// The words of a line: what stands between spaces.
ghost use Rattle.std.specs.Prelude.{[], ◌≡◌, MatchOption};
ghost use Rattle.script.specs.Words.{unindented};
ghost use Rattle.script.specs.Parts.{FirstWord};

use super::bytes;

const SPACE: u8 = b' ';

// The line from its first word on.
fn unindented(line: &[u8]) -> &[u8]
    ensures { result.now ≡ unindented line.now }
{
    let start = line.iter().position(|b| *b != SPACE).unwrap_or(line.len());
    &line[start..]
}

// The first word and what follows it, where there is a word.
pub fn split_first(line: &[u8]) -> Option<(&[u8], &[u8])>
    ensures { MatchOption result (unindented line.now ≡ []) (λ s. FirstWord line.now s.0.now s.1.now) }
{
    let rest = unindented(line);
    let end = bytes::find(rest, SPACE);
    if end == 0 {
        return None;
    }
    Some(rest.split_at(end))
}
