// What the program `mend` writes for the bytes that it reads (document 02, §8): the text mended, or the line of one ground alone.
// Not here: reading and writing (`mend`), the mender (`text_mending`).
// Contract: `mend`. Definition: `specs/Output.antt`. Claim: `specs/Claims.antt`, proved in `proofs/Laws.antt`.
#![tactic(auto)]

ghost use Rattle.std.specs.Prelude.{◌≡◌, ◌≤◌, length, take};
ghost use Rattle.mend_outputs.specs.Output.{mend_output};

use answer_lines::write_refused;
use station_mending::mend_text_told;

// The most bytes of a text that are taken.
pub const MEND_BYTES: usize = 1048576;

// The most bytes of the line of a ground.
pub const LINE_BYTES: usize = 31;

// Mends the text of n bytes at the front of a buffer, and leaves the output there: answers how many bytes it has.
pub fn mend(buffer: &mut [u8], n: usize) -> usize
    requires n_in_bounds { n ≤ length buffer.old }
    requires in_bounds { 31 ≤ length buffer.old }
    ensures upper_bound { result ≤ length buffer.new }
    ensures buffer_after { take result buffer.new ≡ mend_output (take n buffer.old) }
{
    if MEND_BYTES < n {
        return write_refused(buffer, 0, 2);
    }
    let answer = mend_text_told(&mut buffer[..n]);
    if answer == 0 {
        return n;
    }
    write_refused(buffer, 0, answer as u64)
}
