// The face lines of mesh texts 1 and 2, read into lists (document 01, "Mesh text"; document 02, §4).
// Not here: the sides of a face (`face_sides`), point lines (`point_lines`), the whole text and its limits (`mesh_text`).
// Contracts: `count_faces`, `store_faces`. Definitions and laws: `mesh_lines`.
#![tactic(auto)]

ghost use Rattle.std.specs.Prelude.{◌≡◌, ◌≤◌, map, length, OnSome};
ghost use Rattle.text_numbers.specs.Form.{bytes, many};
ghost use Rattle.mesh_lines.specs.Grammar.{face_form, flat, side_first, side_points, side_intervals};
ghost use Rattle.mesh_lines.specs.Parts.{length_word, listed_in, run_answer, lines_answer, Parses, stored};

use face_sides::sides;
use mesh_lines::Lines;
use text_numbers::stands;

// A face line after `[face`, its four sides and the end of the line: how many points it lists, and the place after it.
fn face(
    s: &[u8],
    at: usize,
    ls: &mut [u32],
    qs: &mut [u32],
    f: usize,
    ps: &mut [u32],
    ds: &mut [f64],
    n: usize,
) -> Option<(usize, usize)>
    requires { (at ≤ length s.now) × ((f ≤ at) × (n ≤ at)) }
    ensures run { result ≡ run_answer listed_in (face_form s.now at) }
    ensures lengths { OnSome result (ls.new ≡ stored (map length_word) ls.old f (face_form s.now at)) }
    ensures firsts { OnSome result (qs.new ≡ stored (map side_first) qs.old f (face_form s.now at)) }
    ensures points { OnSome result (ps.new ≡ stored (flat side_points) ps.old n (face_form s.now at)) }
    ensures intervals { OnSome result (ds.new ≡ stored (flat side_intervals) ds.old n (face_form s.now at)) }
{
    let (c, i) = sides(s, at, ls, qs, f, ps, ds, n)?;
    if !stands(s, i, b"]\n") {
        return None;
    }
    Some((c, i + 2))
}

// The face lines, how many they are, and how many points they list. Where one is not of the form, what stands in the lists is left free
// here: `faces` is not public, and `store_faces` is for lines that are of the form.
fn faces(
    s: &[u8],
    at: usize,
    ls: &mut [u32],
    qs: &mut [u32],
    ps: &mut [u32],
    ds: &mut [f64],
) -> Option<Lines>
    requires { at ≤ length s.now }
    ensures faces { result ≡ lines_answer (many s.now (bytes "[face") (face_form s.now) (length s.now) at) }
    ensures lengths { OnSome result (ls.new ≡ stored (flat (map length_word)) ls.old 0 (many s.now (bytes "[face")
        (face_form s.now) (length s.now) at)) }
    ensures firsts { OnSome result (qs.new ≡ stored (flat (map side_first)) qs.old 0 (many s.now (bytes "[face")
        (face_form s.now) (length s.now) at)) }
    ensures points { OnSome result (ps.new ≡ stored (flat (flat side_points)) ps.old 0 (many s.now (bytes "[face")
        (face_form s.now) (length s.now) at)) }
    ensures intervals { OnSome result (ds.new ≡ stored (flat (flat side_intervals)) ds.old 0 (many s.now (bytes "[face")
        (face_form s.now) (length s.now) at)) }
{
    let mut i = at;
    let mut k: usize = 0;
    let mut c: usize = 0;
    while stands(s, i, b"[face") {
        let (m, j) = face(s, i + 5, ls, qs, 4 * k, ps, ds, c)?;
        i = j;
        k += 1;
        c += m;
    }
    Some(Lines {
        faces: k,
        listed: c,
        after: i,
    })
}

// How many face lines stand at a place, how many points they list, and the place after them. Their numbers are stored nowhere.
pub fn count_faces(s: &[u8], at: usize) -> Option<Lines>
    requires { at ≤ length s.now }
    ensures { result ≡ lines_answer (many s.now (bytes "[face") (face_form s.now) (length s.now) at) }
{
    faces(s, at, &mut [], &mut [], &mut [], &mut [])
}

// Stores the numbers of the face lines at a place, as far as the lists have rows: the lengths and the first points of their sides, the
// listed points and their intervals.
pub fn store_faces(
    s: &[u8],
    at: usize,
    ls: &mut [u32],
    qs: &mut [u32],
    ps: &mut [u32],
    ds: &mut [f64],
)
    requires at_in_bounds { at ≤ length s.now }
    requires parses { Parses (many s.now (bytes "[face") (face_form s.now) (length s.now) at) }
    ensures lengths { ls.new ≡ stored (flat (map length_word)) ls.old 0 (many s.now (bytes "[face")
        (face_form s.now) (length s.now) at) }
    ensures firsts { qs.new ≡ stored (flat (map side_first)) qs.old 0 (many s.now (bytes "[face")
        (face_form s.now) (length s.now) at) }
    ensures points { ps.new ≡ stored (flat (flat side_points)) ps.old 0 (many s.now (bytes "[face")
        (face_form s.now) (length s.now) at) }
    ensures intervals { ds.new ≡ stored (flat (flat side_intervals)) ds.old 0 (many s.now (bytes "[face")
        (face_form s.now) (length s.now) at) }
{
    faces(s, at, ls, qs, ps, ds);
}
