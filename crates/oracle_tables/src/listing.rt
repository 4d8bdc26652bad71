// The text `[mesh 3]` of a mesh in tables (document 02, section 1), as the oracle writes it.
// It goes to the output, or its bytes are read as the digits of a number and only a remainder of that is written.
ghost use Rattle.std.specs.Prelude.{◌≤◌};

use crate::held::Tables;
use positions::is_finite;
use std::io;
use std::io::Write;
use tables::{Counts, EDGE_WIDTH, FACE_WIDTH, POINT_WIDTH, POSITION_WIDTH, Y_NUMBER, Z_NUMBER};

// What is left of a listing whose bytes are read as digits: 2^55 - 55, a prime.
const PRIME: u64 = 36028797018963913;

// How many points, edges or faces are listed at most.
pub const MOST_LINES: usize = 65536;

// Where bytes go: to an output, or into the remainder of all bytes so far.
#[derive(Drop)]
pub enum Sink<'a, P: Print> {
    Output(&'a P),
    Remainder(u64),
}

// The remainder with one more byte: the bytes, each one more, are digits in base 257.
fn mixed(remainder: u64, b: u8) -> u64 {
    remainder % PRIME * 257 + u64::from(b) + 1
}

impl<P: Print> Write for Sink<'_, P> {
    fn write(&mut self, t: &[u8]) -> io::Result<usize> {
        match self {
            Sink::Output(output) => output.write_all(t)?,
            Sink::Remainder(left) => *left = t.iter().fold(*left, |r, &b| mixed(r, b)),
        }
        Ok(t.len())
    }

    fn flush(&mut self) -> io::Result<()> {
        Ok(())
    }
}

// The bits of a number that is finite; the pattern of a NaN for any other.
pub fn bits_of(x: f64) -> u64 {
    if is_finite(x) {
        f64::to_bits(x)
    } else {
        0x7ff8000000000000
    }
}

// A space and the bits of the number at a place; those of 0 past the end.
fn put_bits<P: Print>(s: &mut Sink<'_, P>, numbers: &[f64], at: usize) -> io::Result<()> {
    let bits = numbers.get(at).map_or(0, |&x| bits_of(x));
    write!(s, " {bits:016x}")
}

// So many words from a place on, each after a space; 0 past the end.
fn put_words<P: Print>(s: &mut Sink<'_, P>, words: &[u32], from: usize, n: usize) -> io::Result<()>
    requires from_bound { from ≤ 4294967296 }
    requires n_bound { n ≤ 8 }
{
    for i in from..from + n {
        let word = words.get(i).copied().unwrap_or(0);
        write!(s, " {word}")?;
    }
    Ok(())
}

// The line of a point.
fn put_point<P: Print>(
    s: &mut Sink<'_, P>,
    positions: &[f64],
    points: &[u32],
    p: usize,
) -> io::Result<()>
    requires { p ≤ 65536 }
{
    let b = p * POSITION_WIDTH;
    write!(s, "[point")?;
    put_bits(s, positions, b)?;
    put_bits(s, positions, b + Y_NUMBER)?;
    put_bits(s, positions, b + Z_NUMBER)?;
    put_words(s, points, p * POINT_WIDTH, POINT_WIDTH)?;
    writeln!(s, "]")
}

// The line of an edge.
fn put_edge<P: Print>(
    s: &mut Sink<'_, P>,
    edges: &[u32],
    intervals: &[f64],
    e: usize,
) -> io::Result<()>
    requires { e ≤ 65536 }
{
    write!(s, "[edge")?;
    put_words(s, edges, e * EDGE_WIDTH, EDGE_WIDTH)?;
    put_bits(s, intervals, e)?;
    writeln!(s, "]")
}

// The line of a face.
fn put_face<P: Print>(s: &mut Sink<'_, P>, faces: &[u32], f: usize) -> io::Result<()>
    requires { f ≤ 65536 }
{
    write!(s, "[face")?;
    put_words(s, faces, f * FACE_WIDTH, FACE_WIDTH)?;
    writeln!(s, "]")
}

// The whole listing.
fn put_mesh<P: Print>(
    s: &mut Sink<'_, P>,
    positions: &[f64],
    points: &[u32],
    edges: &[u32],
    intervals: &[f64],
    faces: &[u32],
    counts: Counts,
) -> io::Result<()> {
    writeln!(s, "[mesh 3]")?;
    for p in 0..counts.points.min(MOST_LINES) {
        put_point(s, positions, points, p)?;
    }
    for e in 0..counts.edges.min(MOST_LINES) {
        put_edge(s, edges, intervals, e)?;
    }
    for f in 0..counts.faces.min(MOST_LINES) {
        put_face(s, faces, f)?;
    }
    writeln!(s, "[end]")
}

// The line before a stage.
pub fn tell_stage(rt: &impl Print, k: usize) -> io::Result<()> {
    println!(rt; "[stage {k}]")
}

// The line of a refusal.
pub fn tell_refused(rt: &impl Print, n: u32) -> io::Result<()> {
    println!(rt; "[refused {n}]")
}

// Writes the listing of a mesh, or, of a mesh that is not listed, how many points, edges and faces it has, and the remainder of its listing.
pub fn tell_mesh(rt: &impl Print, t: Tables, counts: Counts, told: bool) -> io::Result<()> {
    let mut s = if told {
        Sink::Output(rt)
    } else {
        Sink::Remainder(0)
    };
    put_mesh(
        &mut s,
        &t.positions,
        &t.points,
        &t.edges,
        &t.intervals,
        &t.faces,
        counts,
    )?;
    let Sink::Remainder(r) = s else {
        return Ok(());
    };
    let left = r % PRIME;
    println!(rt;
        "[listing {} {} {} {left}]",
        counts.points, counts.edges, counts.faces
    )
}
