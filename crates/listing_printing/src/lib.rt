// The lines of a handover listing (document 02, §1), written from the rows of the tables; and how long a listing is.
// Not here: the whole listing and its grounds (`listing_writing`).
// Contracts: `wide`, `write_points`, `write_edges`, `write_faces`, `listing_length`. Definitions: `listings`, specs/Handing.antt; `specs/Fields.antt`.
// Laws: `proofs/Laws.antt` (fields and lines one after another), `proofs/Lengths.antt` (how long they are).
#![tactic(auto)]

ghost use Rattle.std.specs.Prelude.{◌≡◌, true, [], ℕ, ◌+◌, ◌*◌, ◌≤◌, ◌<◌, length, get_or};
ghost use Rattle.std.specs.Float.{nan};
ghost use Rattle.std.specs.Float.Ieee.Scale.{finite};
ghost use Rattle.tables.specs.Layout.{position_width, point_width, edge_width, face_width};
ghost use Rattle.tables.specs.Mesh.{mesh_of};
ghost use Rattle.mesh_lines.specs.Grammar.{flat};
ghost use Rattle.mesh_answers.specs.Lines.{decimal_digits};
ghost use Rattle.mesh_answers.specs.Writing.{Written};
ghost use Rattle.listings.specs.Printing.{point_line, edge_line, face_line};
ghost use Rattle.listings.specs.Handing.{up_to, point_line_row, edge_line_row, face_line_row};
ghost use Rattle.listing_printing.specs.Fields.{word_fields, number_fields};

use mesh_answers::{write, write_bits, write_number};
use tables::{EDGE_WIDTH, FACE_WIDTH, POINT_WIDTH, POSITION_WIDTH};

// A word of 32 bits as a number of 64.
pub fn wide(w: u32) -> u64
    ensures { result ≡ w }
{
    w as u64
}

// Writes k words from b on, each after a space, and answers the place after them.
fn write_words(out: &mut [u8], at: usize, words: &[u32], b: usize, k: usize) -> usize
    requires k_in_bounds { b + k ≤ length words.now }
    requires k_in_bounds_2 { at + length (word_fields words.now b k) ≤ length out.old }
    ensures { Written out.old at (word_fields words.now b k) result out.new }
{
    let mut i = at;
    for j in 0..k {
        let v = wide(words[b + j]);
        i = write_number(out, i, v);
    }
    i
}

// Writes the bits of k finite numbers from b on, each after a space, and answers the place after them.
fn write_numbers(out: &mut [u8], at: usize, numbers: &[f64], b: usize, k: usize) -> usize
    requires k_in_bounds { b + k ≤ length numbers.now }
    requires k_in_bounds_2 { at + length (number_fields numbers.now b k) ≤ length out.old }
    requires by_index { (i : ℕ) → i < b + k → finite (get_or numbers.now i nan) ≡ true }
    ensures { Written out.old at (number_fields numbers.now b k) result out.new }
{
    let mut i = at;
    for j in 0..k {
        let v = f64::to_bits(numbers[b + j]);
        i = write_bits(out, i, v);
    }
    i
}

// Writes the line of point p, and answers the place after it.
fn write_point(out: &mut [u8], at: usize, positions: &[f64], points: &[u32], p: usize) -> usize
    requires position_width_in_bounds { p * position_width + position_width ≤ length positions.now }
    requires point_width_in_bounds { p * point_width + point_width ≤ length points.now }
    requires p_in_bounds { at + length (point_line (point_line_row (mesh_of positions.now points.now [] [] []) p)) ≤ length out.old }
    requires by_index { (i : ℕ) → i < p * position_width + position_width → finite (get_or positions.now i nan) ≡ true }
    ensures { Written out.old at (point_line (point_line_row (mesh_of positions.now points.now [] [] []) p)) result out.new }
{
    let b = p * POINT_WIDTH;
    let i = write(out, at, b"[point");
    let j = write_numbers(out, i, positions, b, POSITION_WIDTH);
    let k = write_words(out, j, points, b, POINT_WIDTH);
    write(out, k, b"]\n")
}

// Writes the line of edge e, and answers the place after it.
fn write_edge(out: &mut [u8], at: usize, edges: &[u32], intervals: &[f64], e: usize) -> usize
    requires edge_width_in_bounds { e * edge_width + edge_width ≤ length edges.now }
    requires e_in_bounds { e + 1 ≤ length intervals.now }
    requires e_in_bounds_2 { at + length (edge_line (edge_line_row (mesh_of [] [] edges.now intervals.now []) e)) ≤ length out.old }
    requires by_index { (i : ℕ) → i < e + 1 → finite (get_or intervals.now i nan) ≡ true }
    ensures { Written out.old at (edge_line (edge_line_row (mesh_of [] [] edges.now intervals.now []) e)) result out.new }
{
    let b = e * EDGE_WIDTH;
    let i = write(out, at, b"[edge");
    let j = write_words(out, i, edges, b, EDGE_WIDTH);
    let k = write_numbers(out, j, intervals, e, 1);
    write(out, k, b"]\n")
}

// Writes the line of face f, and answers the place after it.
fn write_face(out: &mut [u8], at: usize, faces: &[u32], f: usize) -> usize
    requires face_width_in_bounds { f * face_width + face_width ≤ length faces.now }
    requires f_in_bounds { at + length (face_line (face_line_row (mesh_of [] [] [] [] faces.now) f)) ≤ length out.old }
    ensures { Written out.old at (face_line (face_line_row (mesh_of [] [] [] [] faces.now) f)) result out.new }
{
    let b = f * FACE_WIDTH;
    let i = write(out, at, b"[face");
    let j = write_words(out, i, faces, b, FACE_WIDTH);
    write(out, j, b"]\n")
}

// Writes the lines of the first n points, and answers the place after them.
pub fn write_points(out: &mut [u8], at: usize, positions: &[f64], points: &[u32], n: usize) -> usize
    requires position_width_in_bounds { n * position_width ≤ length positions.now }
    requires point_width_in_bounds { n * point_width ≤ length points.now }
    requires points_in_bounds { at + length (flat point_line (up_to n (point_line_row (mesh_of positions.now points.now [] [] [])))) ≤ length out.old }
    requires by_index { (i : ℕ) → i < n * position_width → finite (get_or positions.now i nan) ≡ true }
    ensures { Written out.old at (flat point_line (up_to n (point_line_row (mesh_of positions.now points.now [] [] [])))) result out.new }
{
    let mut i = at;
    for p in 0..n {
        i = write_point(out, i, positions, points, p);
    }
    i
}

// Writes the lines of the first n edges, and answers the place after them.
pub fn write_edges(out: &mut [u8], at: usize, edges: &[u32], intervals: &[f64], n: usize) -> usize
    requires edge_width_in_bounds { n * edge_width ≤ length edges.now }
    requires n_in_bounds { n ≤ length intervals.now }
    requires intervals_in_bounds { at + length (flat edge_line (up_to n (edge_line_row (mesh_of [] [] edges.now intervals.now [])))) ≤ length out.old }
    requires by_index { (i : ℕ) → i < n → finite (get_or intervals.now i nan) ≡ true }
    ensures { Written out.old at (flat edge_line (up_to n (edge_line_row (mesh_of [] [] edges.now intervals.now [])))) result out.new }
{
    let mut i = at;
    for e in 0..n {
        i = write_edge(out, i, edges, intervals, e);
    }
    i
}

// Writes the lines of the first n faces, and answers the place after them.
pub fn write_faces(out: &mut [u8], at: usize, faces: &[u32], n: usize) -> usize
    requires face_width_in_bounds { n * face_width ≤ length faces.now }
    requires faces_in_bounds { at + length (flat face_line (up_to n (face_line_row (mesh_of [] [] [] [] faces.now)))) ≤ length out.old }
    ensures { Written out.old at (flat face_line (up_to n (face_line_row (mesh_of [] [] [] [] faces.now)))) result out.new }
{
    let mut i = at;
    for f in 0..n {
        i = write_face(out, i, faces, f);
    }
    i
}

// How many digits a number has, at most k.
fn digits_length(n: u64, k: usize) -> usize
    ensures { result ≡ length (decimal_digits k n) }
{
    if k == 0 {
        return 0;
    }
    if n < 10 {
        return 1;
    }
    digits_length(n / 10, k - 1) + 1
}

// How long the first n words are, each with the space before it.
pub fn words_length(words: &[u32], n: usize) -> usize
    requires n_in_bounds { n ≤ length words.now }
    requires n_bound { n < 4294967296 }
    ensures { result ≡ length (word_fields words.now 0 n) }
{
    let mut r: usize = 0;
    for i in 0..n {
        let v = wide(words[i]);
        r = r + 1 + digits_length(v, 20);
    }
    r
}
