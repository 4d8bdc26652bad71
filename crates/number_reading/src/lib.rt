// The numbers of a text read (document 01, "Mesh text"): decimal numbers, the bits of a binary64 in hexadecimal digits, and the binary64 of
// such bits.
// Not here: what a number of a text is (`text_numbers`), the writing of numbers (`mesh_answers`), the lines of a mesh text (`mesh_lines`).
// Contracts: `bits`, `decimal`, `float`. Definitions: `Numbers` of `text_numbers`.
#![tactic(auto)]

ghost use Rattle.std.specs.Prelude.{◌≡◌, ◌≤◌, ◌<◌, length};
ghost use Rattle.text_numbers.specs.Numbers.{bits, decimal_from, decimal, float};
ghost use Rattle.text_numbers.specs.Answers.{number};

use text_numbers::{byte, digit_below};

// 16 hexadecimal digits: the bits of a binary64.
pub fn bits(s: &[u8], at: usize) -> Option<(u64, usize)>
    requires { at ≤ length s.now }
    ensures { result ≡ number (bits s.now at) }
{
    let mut v: u64 = 0;
    for k in 0..16 {
        v = v * 16 + digit_below(byte(s, at + k), 16)?;
    }
    Some((v, at + 16))
}

// The digits from a place on, after a first digit.
fn decimal_from(s: &[u8], at: usize, first: u64) -> Option<(u64, usize)>
    requires { (at ≤ length s.now) × (first < 10) }
    ensures { result ≡ number (decimal_from s.now first at) }
{
    let mut v = first;
    let mut i = at;
    while v < 4294967296 {
        let Some(d) = digit_below(byte(s, i), 10) else {
            return Some((v, i));
        };
        v = v * 10 + d;
        i += 1;
    }
    None
}

// A decimal number below 4,294,967,296 with no leading zero.
pub fn decimal(s: &[u8], at: usize) -> Option<(u64, usize)>
    requires { at ≤ length s.now }
    ensures { result ≡ number (decimal s.now at) }
{
    let first = digit_below(byte(s, at), 10)?;
    if first == 0 {
        return Some((0, at + 1));
    }
    decimal_from(s, at + 1, first)
}

// The binary64 of a bit pattern, the NaN for the pattern of one.
pub fn float(b: u64) -> f64
    ensures { result ≡ float b }
{
    if 0x7ff0000000000000 < b % 0x8000000000000000 {
        return 0.0 / 0.0;
    }
    f64::from_bits(b)
}
