// The numbers in the head of a record, each of ten decimal digits at a fixed place.
ghost use Rattle.std.specs.Prelude.{◌≤◌, ◌<◌};

// The decimal digit at a place; 0 where none stands there.
fn digit(bytes: &[u8], at: usize) -> u64
    ensures { result < 10 }
{
    match bytes.get(at) {
        Some(&b @ b'0'..=b'9') => u64::from(b - b'0'),
        _ => 0,
    }
}

// The number of ten digits at a place.
pub fn number_at(bytes: &[u8], at: usize) -> u64
    requires { at ≤ 4294967296 }
    ensures { result < 10000000000 }
{
    let mut n = 0;
    for i in 0..10 {
        n = n % 1000000000 * 10 + digit(bytes, at + i);
    }
    n
}

// Number k of a list of numbers that begins at a place: each has a space before it.
pub fn field(bytes: &[u8], at: usize, k: usize) -> usize
    requires at_bound { at ≤ 2147483648 }
    requires k_bound { k ≤ 65536 }
    ensures { result < 10000000000 }
{
    number_at(bytes, at + k * 11 + 1) as usize
}

// The same as a word of four bytes; the largest word for a larger number.
pub fn word(bytes: &[u8], at: usize, k: usize) -> u32
    requires at_bound { at ≤ 2147483648 }
    requires k_bound { k ≤ 65536 }
{
    u32::try_from(field(bytes, at, k)).unwrap_or(u32::MAX)
}

// The same, at most so much.
pub fn cut(bytes: &[u8], at: usize, k: usize, most: usize) -> usize
    requires at_bound { at ≤ 2147483648 }
    requires k_bound { k ≤ 65536 }
    ensures { result ≤ most }
{
    field(bytes, at, k).min(most)
}
