// Numbers in bytes, the lowest byte first. Bytes past the end count nothing.
ghost use Rattle.std.specs.Prelude.{◌≡◌, ◌++◌, ◌+◌, min, ◌≤◌, ◌<◌, length, get_or, take, drop};
ghost use Rattle.atoms.specs.Bytes.{digits, NumberRead, put_at};

// Byte i from `at` on; past the end 0.
fn byte(bytes: &[u8], at: usize, i: usize) -> u64
    ensures { (result ≡ get_or (drop at bytes.now) i 0) × (result < 256) }
{
    if at < bytes.len() && i < bytes.len() - at {
        u64::from(bytes[at + i])
    } else {
        0
    }
}

// The number in the `width` bytes at `at`; at most 8 bytes are taken.
pub fn number(bytes: &[u8], at: usize, width: usize) -> u64
    ensures { NumberRead bytes.now at (min width 8) result }
{
    let mut sum = 0;
    for i in (0..width.min(8)).rev() {
        sum = sum * 256 + byte(bytes, at, i);
    }
    sum
}

// Puts a number into the `width` bytes at `at`, at most 8; where they do not fit, nothing is written.
pub fn put(buffer: &mut [u8], at: usize, width: usize, x: u64)
    ensures { buffer.new ≡ put_at buffer.old at (digits (min width 8) x) }
{
    let count = width.min(8);
    if count <= buffer.len() && at <= buffer.len() - count {
        put_digits(buffer, at, count, x);
    }
}

// `put` meets the bound.
fn put_digits(buffer: &mut [u8], at: usize, count: usize, x: u64)
    requires { at + count ≤ length buffer.old }
    ensures { buffer.new ≡ take at buffer.old ++ digits count x ++ drop (at + count) buffer.old }
{
    let mut rest = x;
    for i in 0..count {
        buffer[at + i] = (rest % 256) as u8;
        rest /= 256;
    }
}
