// The sides of a face line of mesh texts 1 and 2, read into lists (document 01, "Mesh text"; document 02, §4).
// Not here: the face lines that they stand in (`face_lines`), point lines (`point_lines`).
// Contract: `sides`. Definitions and laws: `mesh_lines`.
#![tactic(auto)]

ghost use Rattle.std.specs.Prelude.{◌≡◌, ◌≤◌, map, length, OnSome};
ghost use Rattle.text_numbers.specs.Form.{bytes, times, many};
ghost use Rattle.mesh_lines.specs.Grammar.{listed_form, side_form, flat};
ghost use Rattle.mesh_lines.specs.Grammar.{points_in, intervals_in, side_first, side_points, side_intervals};
ghost use Rattle.mesh_lines.specs.Parts.{length_word, listed_in, run_answer, listed_answer, side_answer, stored};

use mesh_lines::{ListedPoint, SideRead, put};
use number_reading::{bits, decimal, float};
use text_numbers::stands;

// A listed point after ` [`.
fn listed(s: &[u8], at: usize) -> Option<ListedPoint>
    requires { at ≤ length s.now }
    ensures { result ≡ listed_answer (listed_form s.now at) }
{
    let (p, i) = decimal(s, at)?;
    if !stands(s, i, b" ") {
        return None;
    }
    let (d, j) = bits(s, i + 1)?;
    if !stands(s, j, b"]") {
        return None;
    }
    Some(ListedPoint {
        point: p as u32,
        interval: d,
        after: j + 1,
    })
}

// The listed points of a side, stored from n on: how many they are, and the place after them.
fn listed_points(
    s: &[u8],
    at: usize,
    ps: &mut [u32],
    ds: &mut [f64],
    n: usize,
) -> Option<(usize, usize)>
    requires { (at ≤ length s.now) × (n ≤ at) }
    ensures run { result ≡ run_answer length (many s.now (bytes " [") (listed_form s.now) (length s.now) at) }
    ensures points { OnSome result (ps.new ≡ stored points_in ps.old n (many s.now (bytes " [") (listed_form s.now) (length s.now) at)) }
    ensures intervals { OnSome result
        (ds.new
        ≡ stored intervals_in ds.old n (many s.now (bytes " [") (listed_form s.now) (length s.now) at)) }
{
    let mut i = at;
    let mut k: usize = 0;
    while stands(s, i, b" [") {
        let read = listed(s, i + 2)?;
        put(ps, n + k, read.point);
        put(ds, n + k, float(read.interval));
        i = read.after;
        k += 1;
    }
    Some((k, i))
}

// A side: a space, its first point, and its listed points, stored from n on.
fn side(s: &[u8], at: usize, ps: &mut [u32], ds: &mut [f64], n: usize) -> Option<SideRead>
    requires { (at ≤ length s.now) × (n ≤ at) }
    ensures side { result ≡ side_answer (side_form s.now at) }
    ensures points { OnSome result (ps.new ≡ stored side_points ps.old n (side_form s.now at)) }
    ensures intervals { OnSome result (ds.new ≡ stored side_intervals ds.old n (side_form s.now at)) }
{
    if !stands(s, at, b" [") {
        return None;
    }
    let (p, i) = decimal(s, at + 2)?;
    let (k, j) = listed_points(s, i, ps, ds, n)?;
    if !stands(s, j, b"]") {
        return None;
    }
    Some(SideRead {
        first: p as u32,
        listed: k,
        after: j + 1,
    })
}

// The four sides of a face: their lengths and their first points stored from f on, their points and intervals from n on; how many points
// they list, and the place after them.
pub fn sides(
    s: &[u8],
    at: usize,
    ls: &mut [u32],
    qs: &mut [u32],
    f: usize,
    ps: &mut [u32],
    ds: &mut [f64],
    n: usize,
) -> Option<(usize, usize)>
    requires { (at ≤ length s.now) × ((f ≤ at) × (n ≤ at)) }
    ensures run { result ≡ run_answer listed_in (times 4 (side_form s.now) at) }
    ensures lengths { OnSome result (ls.new ≡ stored (map length_word) ls.old f (times 4 (side_form s.now) at)) }
    ensures firsts { OnSome result (qs.new ≡ stored (map side_first) qs.old f (times 4 (side_form s.now) at)) }
    ensures points { OnSome result (ps.new ≡ stored (flat side_points) ps.old n (times 4 (side_form s.now) at)) }
    ensures intervals { OnSome result (ds.new ≡ stored (flat side_intervals) ds.old n (times 4 (side_form s.now) at)) }
{
    let mut i = at;
    let mut c: usize = 0;
    for k in 0..4 {
        let read = side(s, i, ps, ds, n + c)?;
        put(ls, f + k, (read.listed % 4294967296) as u32);
        put(qs, f + k, read.first);
        i = read.after;
        c += read.listed;
    }
    Some((c, i))
}
