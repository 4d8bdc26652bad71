// The program `explain`: reads what `refine` reads, or a handover listing, from standard input, and writes in words what becomes of it: accepted,
// with its counts, or the ground, where it is met, and what it means.
// The answer is that of `text_answer` or `listing_answer` (`explain_answers`), the place that of `text_place` (`text_places`), the points of an edge
// and the face that runs it before those of `text_edge` (`text_edges`), the words are those of `explain_words`. No contract can say what is read and
// written. A read or a write that fails is said on standard error (`streams`).
#![tactic(auto)]

use answer_numbers::ground_number;
use building_tests::Bounds;
use explain_answers::{listing_answer, text_answer};
use explain_words::{say_accepted, say_edge, say_face, say_not_text, say_reading, say_whole};
use std::io;
use streams::{read_input, say_output_lost};
use text_edges::text_edge;
use text_meshes::TextRefusal;
use text_places::{NOWHERE, text_place};

// The listings that `handover` writes have less, and texts that are longer than `refine` takes are refused all the same.
const INPUT_BYTES: usize = 65536;

// Says a refusal of a text by the ground n, with its place.
fn explain_refused(rt: &impl Print, text: &[u8], n: u32) -> io::Result<()> {
    let place = text_place(text, Bounds::Refine);
    if place.line == NOWHERE {
        return say_whole(rt, n);
    }
    if place.edge == NOWHERE {
        return say_face(rt, n, place.line, place.face);
    }
    let edge = text_edge(text, Bounds::Refine, place.face, place.edge);
    say_edge(rt, n, place.line, place.face, place.edge, edge)
}

// Says what becomes of a mesh text.
fn explain_text(rt: &impl Print, text: &[u8]) -> io::Result<()> {
    match text_answer(text) {
        Ok(c) => say_accepted(rt, c),
        Err(TextRefusal::NotText) => say_not_text(rt),
        Err(TextRefusal::Refused(g)) => explain_refused(rt, text, ground_number(g)),
    }
}

// Says what becomes of the bytes that were read.
fn explain(rt: &impl Print, text: &[u8]) -> io::Result<()> {
    if text.starts_with(b"[mesh 3]") {
        say_reading(rt, listing_answer(text))
    } else {
        explain_text(rt, text)
    }
}

fn main(rt: HostRuntime) -> io::Result<()> {
    let mut text = [0; INPUT_BYTES + 1];
    let n = read_input(rt, b"explain", &mut text)?;
    explain(&rt, &text[..n]).inspect_err(|_| say_output_lost(rt, b"explain"))
}
