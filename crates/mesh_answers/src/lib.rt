// The lines of an answer (document 01, "Mesh text") as definitions: `[mesh 8 12 6]`, `[step 26 48 24]`, `[at 0 H H H]`, `[refused N]`; their
// numbers written.
// Not here: the lines written (`answer_lines`), the reading of texts (`text_reading`).
// Contracts: `write`, `write_decimal`, `write_number`, `write_bits`. Definitions: `specs/Lines.antt`. Laws for callers: `proofs/Laws.antt`.
#![tactic(auto)]

ghost use Rattle.std.specs.Prelude.{◌≡◌, ◌+◌, ◌≤◌, ◌<◌, length};
ghost use Rattle.mesh_answers.specs.Lines.{decimal_digits, hex_byte, hex_bytes, number_field, bits_field};
ghost use Rattle.mesh_answers.specs.Writing.{Written};

// Writes the bytes of t from a place on, and answers the place after them.
pub fn write(out: &mut [u8], at: usize, t: &[u8]) -> usize
    requires { at + length t.now ≤ length out.old }
    ensures { Written out.old at t.now result out.new }
{
    let end = at + t.len();
    out[at..end].copy_from_slice(t);
    end
}

// A byte of a number below 256.
fn byte_of(n: u64) -> u8
    requires { n < 256 }
    ensures { result ≡ n }
{
    n as u8
}

// The byte of a hexadecimal digit.
fn hex_byte(d: u64) -> u8
    requires { d < 16 }
    ensures { result ≡ hex_byte d }
{
    if d < 10 {
        return byte_of(48 + d);
    }
    byte_of(87 + d)
}

// Writes a number in at most k decimal digits, and answers the place after it.
pub fn write_decimal(out: &mut [u8], at: usize, n: u64, k: usize) -> usize
    requires { at + length (decimal_digits k n) ≤ length out.old }
    ensures { Written out.old at (decimal_digits k n) result out.new }
{
    if k == 0 {
        return at;
    }
    if n < 10 {
        out[at] = byte_of(48 + n);
        return at + 1;
    }
    let i = write_decimal(out, at, n / 10, k - 1);
    out[i] = byte_of(48 + n % 10);
    i + 1
}

// Writes a number in k hexadecimal digits, and answers the place after it.
fn write_hex(out: &mut [u8], at: usize, n: u64, k: usize) -> usize
    requires { at + k ≤ length out.old }
    ensures { Written out.old at (hex_bytes k n) result out.new }
{
    if k == 0 {
        return at;
    }
    let i = write_hex(out, at, n / 16, k - 1);
    out[i] = hex_byte(n % 16);
    i + 1
}

// Writes a space and a number.
pub fn write_number(out: &mut [u8], at: usize, n: u64) -> usize
    requires { at + length (number_field n) ≤ length out.old }
    ensures { Written out.old at (number_field n) result out.new }
{
    let i = write(out, at, b" ");
    write_decimal(out, i, n, 20)
}

// Writes a space and the bits of a binary64.
pub fn write_bits(out: &mut [u8], at: usize, b: u64) -> usize
    requires { at + 17 ≤ length out.old }
    ensures { Written out.old at (bits_field b) result out.new }
{
    let i = write(out, at, b" ");
    write_hex(out, i, b, 16)
}
