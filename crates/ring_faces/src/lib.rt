// The faces that a visit writes in the place of a face, and the row of the face point.
// Carries over the part of `global_subdivide`'s loop over the faces that makes faces (t_nurcc/mod.rs).
// Not here: the places of the perimeter (`ring_places`), the edges (`ring_edges`), the visit itself (`visiting`).
// Definitions: `refined_meshes`, specs/Ring.antt; `ring_rows`, specs/Rings.antt.
#![tactic(auto)]

ghost use Rattle.std.specs.Prelude.{◌≡◌, List, [], ℕ, ◌+◌, ◌-◌, ◌*◌, ◌≤◌, ◌<◌, length, get_or, Float};
ghost use Rattle.tables.specs.Layout.{point_width, edge_width, face_width};
ghost use Rattle.tables.specs.declared.Counts.{Counts};
ghost use Rattle.audited_meshes.specs.Walks.{first_point};
ghost use Rattle.tables.specs.Parts.{face_tables};
ghost use Rattle.refined_meshes.specs.Turns.{turns};
ghost use Rattle.refined_meshes.specs.State.{State};
ghost use Rattle.refined_meshes.specs.Ring.{face_row, put_new_face, put_face_point};
ghost use Rattle.splitting.specs.Scratch.{tables_of};
ghost use Rattle.ring_rows.specs.Rings.{ring, Small, EdgesThere};

use perimeters::prev_place;
use records::store_face;
use ring_rows::{RingRows, face_row, on_left};
use t_spline::TnurccFace;
use tables::{DEST_WORD, EDGE_WIDTH, LONGEST_PERIMETER, MARK_WORD, POINT_WIDTH, START_WORD, index};

// The point from which a walk about face f goes along the edge e.
fn first_point(edges: &[u32], f: usize, e: usize) -> u32
    requires { e * edge_width + edge_width ≤ length edges.now }
    ensures { result ≡ first_point (face_tables edges.now []) f e }
{
    if on_left(edges, f, e) {
        return edges[e * EDGE_WIDTH];
    }
    edges[e * EDGE_WIDTH + DEST_WORD]
}

// Stores the new face at place i.
fn put_new_face(
    edges: &[u32],
    newfaces: &mut [u32],
    perimeter: &[u32; LONGEST_PERIMETER],
    firsts: &[u32; LONGEST_PERIMETER],
    mids: &[u32; LONGEST_PERIMETER],
    rows: RingRows,
    i: usize,
)
    requires small { Small rows }
    requires i_lt_size { i < rows.size }
    requires edge_width_in_bounds { get_or perimeter.now i 0 * edge_width + edge_width ≤ length edges.now }
    requires face_width_in_bounds { face_row (ring rows [] [] [] [] []) i * face_width + face_width ≤ length newfaces.old }
    ensures { (gs ps es : List ℕ) (ds is : List Float) (c : Counts) →
        ◌≡◌ {A = State}
        (tables_of ps es is newfaces.new c)
        (put_new_face (face_tables edges.now []) (ring rows perimeter.now firsts.now gs mids.now ds) i
        (tables_of ps es is newfaces.old c)) }
{
    let prev = prev_place(rows.size, i);
    let p = first_point(edges, rows.face, index(perimeter[i]));
    let f = face_row(rows, i);
    let face = TnurccFace {
        edge: firsts[i],
        corners: [rows.centre as u32, mids[prev], p, mids[i]],
    };
    store_face(newfaces, f as usize, face);
}

// Stores the new faces.
pub fn put_new_faces(
    edges: &[u32],
    newfaces: &mut [u32],
    perimeter: &[u32; LONGEST_PERIMETER],
    firsts: &[u32; LONGEST_PERIMETER],
    mids: &[u32; LONGEST_PERIMETER],
    rows: RingRows,
)
    requires small { Small rows }
    requires edges_there { EdgesThere edges.now perimeter.now rows.size }
    requires face_width_in_bounds { rows.face * face_width + face_width ≤ length newfaces.old }
    requires face_width_in_bounds_2 { (rows.faces + (rows.size - 1)) * face_width ≤ length newfaces.old }
    ensures { (gs ps es : List ℕ) (ds is : List Float) (c : Counts) →
        ◌≡◌ {A = State}
        (tables_of ps es is newfaces.new c)
        (turns rows.size
        (put_new_face (face_tables edges.now []) (ring rows perimeter.now firsts.now gs mids.now ds))
        (tables_of ps es is newfaces.old c)) }
{
    for i in 0..rows.size {
        put_new_face(edges, newfaces, perimeter, firsts, mids, rows, i);
    }
}

// Stores the row of the face point: its valence is the number of edges, its start edge the last joining edge, its mark 0.
pub fn put_face_point(points: &mut [u32], rows: RingRows)
    requires small { Small rows }
    requires point_width_in_bounds { rows.centre * point_width + point_width ≤ length points.old }
    ensures { (es hs gs ms xs fs : List ℕ) (ds is : List Float) (c : Counts) →
        ◌≡◌ {A = State} (tables_of points.new xs is fs c) (put_face_point (ring rows es hs gs ms ds) (tables_of points.old xs is fs c)) }
{
    let b = rows.centre * POINT_WIDTH;
    points[b] = rows.size as u32;
    points[b + START_WORD] = (rows.joins + (rows.size - 1)) as u32;
    points[b + MARK_WORD] = 0;
}
