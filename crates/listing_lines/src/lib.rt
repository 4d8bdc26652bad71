// The lines of a handover listing (document 02, §1), counted, and read into the rows of tables, as far as these have rows.
// Not here: the grounds of a listing (`listing_reading`), the printing of lines (`listing_printing`).
// Contracts: `listing_sizes`, `store_rows`. Definitions: `listings`, specs/Grammar.antt (the lines); `specs/Parts.antt` (the answers).
// Laws: `proofs/Laws.antt` (how far a line goes), `proofs/Progress.antt` (one turn of a loop over lines), `proofs/Scanned.antt` (the whole).
#![tactic(auto)]

ghost use Rattle.std.specs.Prelude.{◌≡◌, ◌≤◌, length, OnSome};
ghost use Rattle.text_numbers.specs.Form.{bytes, times, many};
ghost use Rattle.text_numbers.specs.Answers.{number};
ghost use Rattle.mesh_lines.specs.Parts.{place_answer, run_answer, stored};
ghost use Rattle.listings.specs.Grammar.{word_form, point_row_form, edge_row_form, face_row_form, listing};
ghost use Rattle.listings.specs.Handing.{numbers_in, words_in};
ghost use Rattle.listing_lines.specs.Parts.{last_word, same, row_numbers, row_words, rows_total};
ghost use Rattle.listing_lines.specs.Parts.{Listing, positions_listed, points_listed, edges_listed, intervals_listed, faces_listed};

use mesh_lines::put;
use number_reading::decimal;
use point_lines::coordinates;
use tables::{Counts, EDGE_WIDTH, FACE_WIDTH, POINT_WIDTH, POSITION_WIDTH};
use text_ends::ends;
use text_numbers::stands;

// A space and a word.
fn word(s: &[u8], at: usize) -> Option<(u64, usize)>
    requires { at ≤ length s.now }
    ensures { result ≡ number (word_form s.now at) }
{
    if !stands(s, at, b" ") {
        return None;
    }
    decimal(s, at + 1)
}

// As many words as w says, stored from n on; the last of them, and the place after it.
fn words(s: &[u8], at: usize, w: usize, ws: &mut [u32], n: usize) -> Option<(u64, usize)>
    requires { (at ≤ length s.now) × (n ≤ at) }
    ensures last { result ≡ last_word 0 (times w (word_form s.now) at) }
    ensures list { OnSome result (ws.new ≡ stored same ws.old n (times w (word_form s.now) at)) }
{
    let mut i = at;
    let mut v: u64 = 0;
    for k in 0..w {
        (v, i) = word(s, i)?;
        put(ws, n + k, v as u32);
    }
    Some((v, i))
}

// A point line after `[point`, its coordinates and its words stored from n on.
fn point(s: &[u8], at: usize, xs: &mut [f64], ws: &mut [u32], n: usize) -> Option<usize>
    requires { (at ≤ length s.now) × (n ≤ at) }
    ensures place { result ≡ place_answer (point_row_form s.now at) }
    ensures numbers { OnSome result (xs.new ≡ stored row_numbers xs.old n (point_row_form s.now at)) }
    ensures words { OnSome result (ws.new ≡ stored row_words ws.old n (point_row_form s.now at)) }
{
    let i = coordinates(s, at, POSITION_WIDTH, xs, n)?;
    let (v, j) = words(s, i, POINT_WIDTH, ws, n)?;
    if 2 <= v {
        return None;
    }
    if !stands(s, j, b"]\n") {
        return None;
    }
    Some(j + 2)
}

// An edge line after `[edge`, its words stored from n on, its interval at m.
fn edge(s: &[u8], at: usize, ws: &mut [u32], n: usize, xs: &mut [f64], m: usize) -> Option<usize>
    requires { (at ≤ length s.now) × ((n ≤ at) × (m ≤ at)) }
    ensures place { result ≡ place_answer (edge_row_form s.now at) }
    ensures words { OnSome result (ws.new ≡ stored row_words ws.old n (edge_row_form s.now at)) }
    ensures numbers { OnSome result (xs.new ≡ stored row_numbers xs.old m (edge_row_form s.now at)) }
{
    let (_, i) = words(s, at, EDGE_WIDTH, ws, n)?;
    let j = coordinates(s, i, 1, xs, m)?;
    if !stands(s, j, b"]\n") {
        return None;
    }
    Some(j + 2)
}

// A face line after `[face`, its words stored from n on.
fn face(s: &[u8], at: usize, ws: &mut [u32], n: usize) -> Option<usize>
    requires { (at ≤ length s.now) × (n ≤ at) }
    ensures place { result ≡ place_answer (face_row_form s.now at) }
    ensures words { OnSome result (ws.new ≡ stored row_words ws.old n (face_row_form s.now at)) }
{
    let (_, i) = words(s, at, FACE_WIDTH, ws, n)?;
    if !stands(s, i, b"]\n") {
        return None;
    }
    Some(i + 2)
}

// The point lines, and how many they are. Where one is not of the form, the tables are left free here, in `edges`, `faces` and `scan`:
// none of these is public, and `store_rows` scans only what is a listing.
fn points(s: &[u8], at: usize, xs: &mut [f64], ws: &mut [u32]) -> Option<(usize, usize)>
    requires { at ≤ length s.now }
    ensures run { result ≡ run_answer length (many s.now (bytes "[point") (point_row_form s.now) (length s.now) at) }
    ensures numbers { OnSome result (xs.new ≡ stored numbers_in xs.old 0
        (many s.now (bytes "[point") (point_row_form s.now) (length s.now) at)) }
    ensures words { OnSome result (ws.new ≡ stored words_in ws.old 0
        (many s.now (bytes "[point") (point_row_form s.now) (length s.now) at)) }
{
    let mut i = at;
    let mut k: usize = 0;
    while stands(s, i, b"[point") {
        i = point(s, i + 6, xs, ws, k * POINT_WIDTH)?;
        k += 1;
    }
    Some((k, i))
}

// The edge lines, and how many they are.
fn edges(s: &[u8], at: usize, ws: &mut [u32], xs: &mut [f64]) -> Option<(usize, usize)>
    requires { at ≤ length s.now }
    ensures run { result ≡ run_answer length (many s.now (bytes "[edge") (edge_row_form s.now) (length s.now) at) }
    ensures words { OnSome result (ws.new ≡ stored words_in ws.old 0 (many s.now (bytes "[edge") (edge_row_form s.now) (length s.now) at)) }
    ensures numbers { OnSome result (xs.new ≡ stored numbers_in xs.old 0
        (many s.now (bytes "[edge") (edge_row_form s.now) (length s.now) at)) }
{
    let mut i = at;
    let mut k: usize = 0;
    while stands(s, i, b"[edge") {
        i = edge(s, i + 5, ws, k * EDGE_WIDTH, xs, k)?;
        k += 1;
    }
    Some((k, i))
}

// The face lines, and how many they are.
fn faces(s: &[u8], at: usize, ws: &mut [u32]) -> Option<(usize, usize)>
    requires { at ≤ length s.now }
    ensures run { result ≡ run_answer length (many s.now (bytes "[face") (face_row_form s.now) (length s.now) at) }
    ensures words { OnSome result (ws.new ≡ stored words_in ws.old 0 (many s.now (bytes "[face") (face_row_form s.now) (length s.now) at)) }
{
    let mut i = at;
    let mut k: usize = 0;
    while stands(s, i, b"[face") {
        i = face(s, i + 5, ws, k * FACE_WIDTH)?;
        k += 1;
    }
    Some((k, i))
}

// The whole listing, its rows stored in the tables as far as these have rows.
fn scan(
    s: &[u8],
    xs: &mut [f64],
    ps: &mut [u32],
    es: &mut [u32],
    ds: &mut [f64],
    fs: &mut [u32],
) -> Option<Counts>
    ensures sizes { result ≡ rows_total (listing s.now) }
    ensures positions { OnSome result (xs.new ≡ stored positions_listed xs.old 0 (listing s.now)) }
    ensures points { OnSome result (ps.new ≡ stored points_listed ps.old 0 (listing s.now)) }
    ensures edges { OnSome result (es.new ≡ stored edges_listed es.old 0 (listing s.now)) }
    ensures intervals { OnSome result (ds.new ≡ stored intervals_listed ds.old 0 (listing s.now)) }
    ensures faces { OnSome result (fs.new ≡ stored faces_listed fs.old 0 (listing s.now)) }
{
    if !stands(s, 0, b"[mesh 3]\n") {
        return None;
    }
    let (p, i) = points(s, 9, xs, ps)?;
    let (e, j) = edges(s, i, es, ds)?;
    let (f, k) = faces(s, j, fs)?;
    if !ends(s, k) {
        return None;
    }
    Some(Counts {
        points: p,
        edges: e,
        faces: f,
    })
}

// How many points, edges and faces a listing has. Its rows are stored nowhere.
pub fn listing_sizes(s: &[u8]) -> Option<Counts>
    ensures { result ≡ rows_total (listing s.now) }
{
    scan(s, &mut [], &mut [], &mut [], &mut [], &mut [])
}

// Stores the rows of a listing in the tables, as far as these have rows.
pub fn store_rows(
    s: &[u8],
    xs: &mut [f64],
    ps: &mut [u32],
    es: &mut [u32],
    ds: &mut [f64],
    fs: &mut [u32],
)
    requires { Listing s.now }
    ensures positions { xs.new ≡ stored positions_listed xs.old 0 (listing s.now) }
    ensures points { ps.new ≡ stored points_listed ps.old 0 (listing s.now) }
    ensures edges { es.new ≡ stored edges_listed es.old 0 (listing s.now) }
    ensures intervals { ds.new ≡ stored intervals_listed ds.old 0 (listing s.now) }
    ensures faces { fs.new ≡ stored faces_listed fs.old 0 (listing s.now) }
{
    scan(s, xs, ps, es, ds, fs);
}
