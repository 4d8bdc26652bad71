// The program `mend` (document 02, §8): reads a mesh text of version 2 from standard input, and writes it to standard output with
// the faces turned round that were listed the other way, or the line of one ground.
// What is written is `mend_output` of `mend_outputs`, specs/Output.antt. No contract can say what is read and written;
// a read or a write that fails is said on standard error (`streams`).
#![tactic(auto)]

ghost use Rattle.std.specs.Prelude.{◌≤◌, length};

use mend_outputs::{MEND_BYTES, mend};
use std::io;
use streams::{read_input, write_output};

// Reads a text into the buffer, mends it there, and writes the output. It is no part of `main`: what is proved here is of a buffer of any
// length, and not of a million zeros.
fn mend_input(rt: HostRuntime, buffer: &mut [u8]) -> io::Result<()>
    requires { 31 ≤ length buffer.old }
{
    let n = read_input(rt, b"mend", buffer)?;
    let k = mend(buffer, n);
    write_output(rt, b"mend", &buffer[..k])
}

fn main(rt: HostRuntime) -> io::Result<()> {
    // One byte more than the limit. More need not be read: the output for every longer text is the same (`LongText` of `mend_outputs`).
    let mut text = [0; MEND_BYTES + 1];
    mend_input(rt, &mut text)
}
