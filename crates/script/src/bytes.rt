// Bytes compared, and a byte looked for.
ghost use Rattle.std.specs.Prelude.{true, ◌≡◌, ◌≤◌, length};
ghost use Rattle.script.specs.Parts.{index_of};

pub fn same(a: &[u8], b: &[u8]) -> bool
    ensures equal { result ≡ true → a.now ≡ b.now }
    ensures told { a.now ≡ b.now → result ≡ true }
{
    a == b
}

// The place of the first byte b; where there is none, the length.
pub fn find(bytes: &[u8], b: u8) -> usize
    ensures inside { result ≤ length bytes.now }
    ensures first { result ≡ index_of b bytes.now }
{
    bytes.iter().position(|x| *x == b).unwrap_or(bytes.len())
}
