// One byte at a place; past the end 0.
ghost use Rattle.std.specs.Prelude.{◌≡◌, get_or};

pub fn byte(bytes: &[u8], at: usize) -> u8
    ensures { result ≡ get_or bytes.now at 0 }
{
    bytes.get(at).copied().unwrap_or(0)
}
