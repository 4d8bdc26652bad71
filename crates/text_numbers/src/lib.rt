// The numbers of a text (document 01, "Mesh text") as definitions: decimal numbers, and the bits of a binary64 in hexadecimal digits; the
// bytes and the digits of a text.
// Not here: the reading of numbers (`number_reading`), their writing (`mesh_answers`), the lines of a mesh text (`mesh_lines`).
// Contracts: `byte`, `stands`, `digit_value`, `digit_below`. Definitions: `specs/Form.antt` (forms of text), `specs/Numbers.antt` (numbers).
// Laws for callers: `proofs/Laws.antt` (how far a form goes), `proofs/Turns.antt` (one turn of a repeated form).
#![tactic(auto)]

ghost use Rattle.std.specs.Prelude.{◌≡◌, ◌≤◌, length, get_or};
ghost use Rattle.text_numbers.specs.Form.{stands};
ghost use Rattle.text_numbers.specs.Numbers.{digit_value};
ghost use Rattle.text_numbers.specs.Answers.{digit_below};

// The byte at a place, 0 past the end.
pub fn byte(s: &[u8], at: usize) -> u8
    ensures { result ≡ get_or s.now at 0 }
{
    if at < s.len() { s[at] } else { 0 }
}

// Whether the bytes of t stand from a place on.
pub fn stands(s: &[u8], at: usize, t: &[u8]) -> bool
    requires { at ≤ length s.now }
    ensures { result ≡ stands s.now at t.now }
{
    for i in 0..t.len() {
        if byte(s, at + i) != t[i] {
            return false;
        }
    }
    true
}

// The value of a lower-case hexadecimal digit, 16 for any other byte.
#[tactic(auto, unfolding(crate::specs::Numbers::digit_value))]
pub fn digit_value(b: u8) -> u64
    ensures { result ≡ digit_value b }
{
    match b {
        48..=57 => u64::from(b) - 48,
        97..=102 => u64::from(b) - 87,
        _ => 16,
    }
}

// The value of a byte that is a digit of a base, none of any other byte.
pub fn digit_below(b: u8, base: u64) -> Option<u64>
    ensures { result ≡ digit_below base (digit_value b) }
{
    let value = digit_value(b);
    if value < base { Some(value) } else { None }
}
