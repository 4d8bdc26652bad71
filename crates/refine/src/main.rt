// The program `refine` (document 01, "Mesh text"): reads a mesh text from standard input, builds the mesh and refines it once, and
// writes its lines to standard output.
// What is written is `output` of `refine_outputs`, specs/Output.antt. No contract can say what is read and written;
// a read or a write that fails is said on standard error (`streams`).
#![tactic(auto)]

use crate::refine_text::{OUTPUT_BYTES, refine};
use std::io;
use streams::{read_input, write_output};
use text_answers::REFINE_BYTES;

mod refine_text;

// `handover` has a main of the same four calls: one function for both would take two buffers, the name and a closure with a clause on how many
// bytes it puts, and be no plainer.
fn main(rt: HostRuntime) -> io::Result<()> {
    // One byte more than the limit. More need not be read: the output for every longer text is the same (`LongText` of `refine_outputs`).
    let mut text = [0; REFINE_BYTES + 1];
    let n = read_input(rt, b"refine", &mut text)?;
    let mut out = [0; OUTPUT_BYTES];
    let k = refine(&text[..n], &mut out);
    write_output(rt, b"refine", &out[..k])
}
