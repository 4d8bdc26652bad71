// The face lines of a mesh text (document 01, "Mesh text"), written from the lists that a text stands for.
// Not here: the printing of a whole text and the faces of lists as definitions (`mesh_printing`), the reading of texts (`text_reading`).
// Contract: `write_face_lines`. Definitions: `Printing` and `Faces` of `mesh_printing`. Laws: `proofs/Laws.antt` (lines from their parts).
#![tactic(auto)]

ghost use Rattle.std.specs.Prelude.{◌≡◌, true, [], ◌+◌, ◌≤◌, ◌<◌, length, get_or};
ghost use Rattle.std.specs.Float.{nan};
ghost use Rattle.std.specs.Float.Ieee.Scale.{finite};
ghost use Rattle.mesh_lines.specs.Grammar.{flat};
ghost use Rattle.built_meshes.specs.declared.Version.TheVariants.{Two};
ghost use Rattle.building_tests.specs.Lent.{lists_in};
ghost use Rattle.mesh_answers.specs.Writing.{Written};
ghost use Rattle.mesh_printing.specs.Printing.{listed_part, side_part, text_face_line};
ghost use Rattle.mesh_printing.specs.Faces.{listed_pair_at, listed_from, side_at, face_in, faces_in, PrintingRoom, PrintingRooms, FiniteIntervals};

use building_tests::faces::face_size;
use listing_printing::wide;
use mesh_answers::{write, write_bits, write_decimal};
use tables::index;

// Writes the listed point i with its interval, and answers the place after it.
fn write_listed(out: &mut [u8], at: usize, listed: &[u32], beside: &[f64], i: usize) -> usize
    requires i_in_bounds { i < length listed.now }
    requires i_in_bounds_2 { i < length beside.now }
    requires nan_value { finite (get_or beside.now i nan) ≡ true }
    requires i_in_bounds_3 { at + length (listed_part (listed_pair_at (lists_in Two [] [] [] listed.now beside.now) i)) ≤ length out.old }
    ensures { Written out.old at (listed_part (listed_pair_at (lists_in Two [] [] [] listed.now beside.now) i)) result
        out.new }
{
    let p = wide(listed[i]);
    let v = f64::to_bits(beside[i]);
    let j = write(out, at, b" [");
    let k = write_decimal(out, j, p, 20);
    let m = write_bits(out, k, v);
    write(out, m, b"]")
}

// Writes n listed points from a on, and answers the place after them.
fn write_points(
    out: &mut [u8],
    at: usize,
    listed: &[u32],
    beside: &[f64],
    a: usize,
    n: usize,
) -> usize
    requires n_in_bounds { a + n ≤ length listed.now }
    requires beside_len { length beside.now ≡ length listed.now }
    requires finite_intervals { FiniteIntervals beside.now }
    requires n_in_bounds_2 { at + length (flat listed_part (listed_from (lists_in Two [] [] [] listed.now beside.now) a n)) ≤ length out.old }
    ensures { Written out.old at (flat listed_part (listed_from (lists_in Two [] [] [] listed.now beside.now) a n))
        result out.new }
{
    let mut j = at;
    for i in 0..n {
        j = write_listed(out, j, listed, beside, a + i);
    }
    j
}

// Writes a side of the first point p and n listed points from a on, and answers the place after it.
fn write_side(
    out: &mut [u8],
    at: usize,
    p: u32,
    listed: &[u32],
    beside: &[f64],
    a: usize,
    n: usize,
) -> usize
    requires n_in_bounds { a + n ≤ length listed.now }
    requires beside_len { length beside.now ≡ length listed.now }
    requires finite_intervals { FiniteIntervals beside.now }
    requires n_in_bounds_2 { at + length (side_part (side_at (lists_in Two [] [] [] listed.now beside.now) p a n)) ≤ length out.old }
    ensures { Written out.old at (side_part (side_at (lists_in Two [] [] [] listed.now beside.now) p a n)) result
        out.new }
{
    let first = wide(p);
    let i = write(out, at, b" [");
    let j = write_decimal(out, i, first, 20);
    let k = write_points(out, j, listed, beside, a, n);
    write(out, k, b"]")
}

// Writes the four sides of face f, whose listed points stand from a on, and answers the place after them.
fn write_sides(
    out: &mut [u8],
    at: usize,
    sides: &[u32],
    firsts: &[u32],
    listed: &[u32],
    beside: &[f64],
    f: usize,
    a: usize,
) -> usize
    requires printing_room { PrintingRoom sides.now firsts.now listed.now beside.now f a }
    requires f_in_bounds { at + length (flat side_part (face_in (lists_in Two [] sides.now firsts.now listed.now beside.now) f)) ≤ length out.old }
    ensures { Written out.old at (flat side_part (face_in (lists_in Two [] sides.now firsts.now
        listed.now beside.now) f)) result out.new }
{
    let mut i = at;
    let mut b = a;
    for k in 0..4 {
        let p = firsts[f * 4 + k];
        let n = index(sides[f * 4 + k]);
        i = write_side(out, i, p, listed, beside, b, n);
        b = b + n;
    }
    i
}

// Writes the line of face f, whose listed points stand from a on, and answers the place after it.
fn write_face(
    out: &mut [u8],
    at: usize,
    sides: &[u32],
    firsts: &[u32],
    listed: &[u32],
    beside: &[f64],
    f: usize,
    a: usize,
) -> usize
    requires printing_room { PrintingRoom sides.now firsts.now listed.now beside.now f a }
    requires f_in_bounds { at + length (text_face_line (face_in (lists_in Two [] sides.now firsts.now listed.now beside.now) f)) ≤ length out.old }
    ensures { Written out.old at (text_face_line (face_in (lists_in Two [] sides.now firsts.now
        listed.now beside.now) f)) result out.new }
{
    let i = write(out, at, b"[face");
    let j = write_sides(out, i, sides, firsts, listed, beside, f, a);
    write(out, j, b"]\n")
}

// Writes the lines of all faces, and answers the place after them.
pub fn write_face_lines(
    out: &mut [u8],
    at: usize,
    sides: &[u32],
    firsts: &[u32],
    listed: &[u32],
    beside: &[f64],
) -> usize
    requires printing_rooms { PrintingRooms sides.now firsts.now listed.now beside.now }
    requires beside_in_bounds { at + length (flat text_face_line (faces_in (lists_in Two [] sides.now firsts.now listed.now beside.now))) ≤ length out.old }
    ensures { Written out.old at (flat text_face_line (faces_in (lists_in Two [] sides.now firsts.now
        listed.now beside.now))) result out.new }
{
    let nf = sides.len() / 4;
    let mut i = at;
    let mut a: usize = 0;
    for f in 0..nf {
        i = write_face(out, i, sides, firsts, listed, beside, f, a);
        a = a + face_size(sides, f);
    }
    i
}
