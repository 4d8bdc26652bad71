// The point lines of mesh texts 1 and 2, read into a list (document 01, "Mesh text"; document 02, §4).
// Not here: face lines (`face_lines`), the whole text and its limits (`mesh_text`).
// Contracts: `coordinates`, `count_points`, `store_points`. Definitions and laws: `mesh_lines`.
#![tactic(auto)]

ghost use Rattle.std.specs.Prelude.{◌≡◌, ◌≤◌, map, length, OnSome};
ghost use Rattle.text_numbers.specs.Form.{bytes, times, many};
ghost use Rattle.text_numbers.specs.Numbers.{float};
ghost use Rattle.text_numbers.specs.Answers.{number};
ghost use Rattle.mesh_lines.specs.Grammar.{coordinate_form, point_form, flat};
ghost use Rattle.mesh_lines.specs.Parts.{place_answer, run_answer, Parses, place_after, stored};

use mesh_lines::put;
use number_reading::{bits, float};
use text_numbers::stands;

// A space and a coordinate.
fn coordinate(s: &[u8], at: usize) -> Option<(u64, usize)>
    requires { at ≤ length s.now }
    ensures { result ≡ number (coordinate_form s.now at) }
{
    if !stands(s, at, b" ") {
        return None;
    }
    bits(s, at + 1)
}

// As many coordinates as w says, stored from n on, and the place after them.
pub fn coordinates(s: &[u8], at: usize, w: usize, xs: &mut [f64], n: usize) -> Option<usize>
    requires { (at ≤ length s.now) × (n ≤ at) }
    ensures place { result ≡ place_answer (times w (coordinate_form s.now) at) }
    ensures list { OnSome result (xs.new ≡ stored (map float) xs.old n (times w (coordinate_form s.now) at)) }
{
    let mut i = at;
    for k in 0..w {
        let (b, j) = coordinate(s, i)?;
        put(xs, n + k, float(b));
        i = j;
    }
    Some(i)
}

// A point line after `[point`, and the place after it.
fn point(s: &[u8], at: usize, xs: &mut [f64], n: usize) -> Option<usize>
    requires { (at ≤ length s.now) × (n ≤ at) }
    ensures place { result ≡ place_answer (point_form s.now at) }
    ensures list { OnSome result (xs.new ≡ stored (map float) xs.old n (point_form s.now at)) }
{
    let i = coordinates(s, at, 3, xs, n)?;
    if !stands(s, i, b"]\n") {
        return None;
    }
    Some(i + 2)
}

// The point lines: how many they are, and the place after them. Where one is not of the form, what stands in the list is left free here:
// `points` is not public, and `store_points` is for lines that are of the form.
fn points(s: &[u8], at: usize, xs: &mut [f64]) -> Option<(usize, usize)>
    requires { at ≤ length s.now }
    ensures run { result ≡ run_answer length (many s.now (bytes "[point") (point_form s.now) (length s.now) at) }
    ensures list { OnSome result (xs.new ≡ stored (flat (map float)) xs.old 0 (many s.now (bytes "[point")
        (point_form s.now) (length s.now) at)) }
{
    let mut i = at;
    let mut k: usize = 0;
    while stands(s, i, b"[point") {
        i = point(s, i + 6, xs, 3 * k)?;
        k += 1;
    }
    Some((k, i))
}

// How many point lines stand at a place, and the place after them. Their coordinates are stored nowhere.
pub fn count_points(s: &[u8], at: usize) -> Option<(usize, usize)>
    requires { at ≤ length s.now }
    ensures { result ≡ run_answer length (many s.now (bytes "[point") (point_form s.now) (length s.now) at) }
{
    points(s, at, &mut [])
}

// Stores the coordinates of the point lines at a place, as far as the list has rows, and gives the place after them.
pub fn store_points(s: &[u8], at: usize, xs: &mut [f64]) -> usize
    requires at_in_bounds { at ≤ length s.now }
    requires parses { Parses (many s.now (bytes "[point") (point_form s.now) (length s.now) at) }
    ensures place { result ≡ place_after (many s.now (bytes "[point") (point_form s.now) (length s.now) at) }
    ensures list { xs.new ≡ stored (flat (map float)) xs.old 0 (many s.now (bytes "[point")
        (point_form s.now) (length s.now) at) }
{
    match points(s, at, xs) {
        Some((_, i)) => i,
        None => 0,
    }
}
