// The words of the program `explain`, written to standard output: what is accepted, and what a ground means and where it is met.
// Not here: the answer (`explain_answers`), the place (`text_places`), the points of an edge (`text_edges`).
// No contract can say what is written: each function answers whether it could be written, and else the error.
#![tactic(auto)]

use listings::ListingRefusal;
use std::io;
use tables::Counts;
use told_edges::ToldEdge;

// What a ground of a face means, by its number.
fn face_words(n: u32) -> &'static str {
    match n {
        10 => "has fewer than 3 or more than 64 points",
        11 => "lists a point that is no point",
        12 => "lists a point twice",
        43 => "has a side whose first point is not the point listed last before it",
        _ => "has opposite sides whose intervals do not sum up alike",
    }
}

// What a ground of the text or of the whole means, by its number.
fn whole_words(n: u32) -> &'static str {
    match n {
        1 => "the text is not of the form of a mesh text",
        2 => "more than 16384 bytes, 64 points, 64 faces or 256 listed points",
        3 => "a number that is not finite, or an interval with the sign bit set",
        20 => "an edge with one face: the surface has a hole",
        21 => "a point with no edge",
        _ => "the walk about a point misses an edge: surfaces that meet in one point",
    }
}

// Says that a text is not of the form.
pub fn say_not_text(rt: &impl Print) -> io::Result<()> {
    say_whole(rt, 1)
}

// Says that the text or the whole is refused by the ground n.
pub fn say_whole(rt: &impl Print, n: u32) -> io::Result<()> {
    println!(rt; "refused {n}: {}", whole_words(n))
}

// Says that face f is refused by the ground n.
pub fn say_face(rt: &impl Print, n: u32, line: usize, f: usize) -> io::Result<()> {
    println!(rt; "refused {n} at line {line}: face {f} {}", face_words(n))
}

// Says that the edge i of face f is refused by the ground n, with its points: an edge that is refused by 15 is always told with the face
// that runs it the same way, one that is refused by 14 with its points (`specs/Claims.antt` of `explained_edges`).
pub fn say_edge(
    rt: &impl Print,
    n: u32,
    line: usize,
    f: usize,
    i: usize,
    edge: ToldEdge,
) -> io::Result<()> {
    print!(rt; "refused {n} at line {line}: face {f}, edge {i}")?;
    match edge {
        ToldEdge::Missing => println!(rt; ""),
        ToldEdge::Again(p, q, g) if n != 14 => {
            println!(rt; " from point {p} to point {q} runs the same way as in face {g}")
        }
        ToldEdge::First(p, q) | ToldEdge::Again(p, q, _) => {
            println!(rt; " from point {p} to point {q} has two faces already")
        }
    }
}

// Says the counts of what is accepted.
pub fn say_accepted(rt: &impl Print, c: Counts) -> io::Result<()> {
    println!(rt;
        "accepted: {} points, {} edges, {} faces",
        c.points, c.edges, c.faces
    )
}

// Says what reading a listing answers.
pub fn say_reading(rt: &impl Print, reading: Result<Counts, ListingRefusal>) -> io::Result<()> {
    let words = match reading {
        Ok(c) => return say_accepted(rt, c),
        Err(ListingRefusal::NotListing) => "40: the text is not of the form of a handover listing",
        Err(ListingRefusal::OverCeilings) => {
            "2: the listing has more than 65536 points, 131072 edges or 65536 faces"
        }
        Err(ListingRefusal::NoRoom) => {
            "4: the listing has more than 256 points, 512 edges or 256 faces"
        }
        Err(ListingRefusal::NotClosed) => "30: what is listed is no closed mesh",
    };
    println!(rt; "refused {words}")
}
