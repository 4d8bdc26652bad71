// The program `handover` (document 02, §1): reads a mesh text from standard input, builds the mesh and refines it once, and writes
// its listing to standard output.
// What is written is `handover_output` of `handover_outputs`, specs/Output.antt. No contract can say what is read and
// written; a read or a write that fails is said on standard error (`streams`).
#![tactic(auto)]

use crate::handover_text::handover;
use std::io;
use streams::{read_input, write_output};
use text_answers::REFINE_BYTES;

mod handover_text;

// A listing of 256 points of at most 69 bytes, 512 edges of 56 and 256 faces of 55 has less.
const LISTING_BYTES: usize = 65536;

// `refine` has a main of the same four calls; why each has its own stands there.
fn main(rt: HostRuntime) -> io::Result<()> {
    // One byte more than the limit. More need not be read: the output for every longer text is the same (`LongText` of `handover_outputs`).
    let mut text = [0u8; REFINE_BYTES + 1];
    let n = read_input(rt, b"handover", &mut text)?;
    let mut out = [0u8; LISTING_BYTES];
    let k = handover(&text[..n], &mut out);
    write_output(rt, b"handover", &out[..k])
}
