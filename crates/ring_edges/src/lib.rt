// The edges that a visit writes about a face once its perimeter is split: the joining edges, and the halves' fields on the side of
// this face.
// Carries over the part of `global_subdivide`'s loop over the faces that connects edges (t_nurcc/mod.rs).
// Not here: the places of the perimeter (`ring_places`), a joining edge by value (`joining_edges`), the new faces (`ring_faces`), the
// visit itself (`visiting`).
// Definitions: `refined_meshes`, specs/Ring.antt; `ring_rows`, specs/Rings.antt.
#![tactic(auto)]

ghost use Rattle.std.specs.Prelude.{◌≡◌, List, [], ℕ, ◌+◌, ◌*◌, ◌≤◌, ◌<◌, length, get_or, Float};
ghost use Rattle.tables.specs.Layout.{edge_width};
ghost use Rattle.tables.specs.declared.Counts.{Counts};
ghost use Rattle.tables.specs.Parts.{face_tables};
ghost use Rattle.refined_meshes.specs.Turns.{turns};
ghost use Rattle.refined_meshes.specs.State.{State};
ghost use Rattle.refined_meshes.specs.Ring.{put_side, put_join, put_first, put_second};
ghost use Rattle.splitting.specs.Scratch.{tables_of};
ghost use Rattle.ring_rows.specs.Rings.{ring, Small, EdgesThere};

use joining_edges::join_edge;
use perimeters::{next_place, prev_place};
use records::store_edge;
use ring_rows::{RingRows, face_row, on_left};
use tables::{
    EDGE_WIDTH, LEFT_ACW_WORD, LEFT_CW_WORD, LEFT_FACE_WORD, LONGEST_PERIMETER, RIGHT_ACW_WORD,
    RIGHT_CW_WORD, RIGHT_FACE_WORD, index,
};

// Stores the joining edges.
pub fn put_joins(
    edges: &mut [u32],
    intervals: &mut [f64],
    firsts: &[u32; LONGEST_PERIMETER],
    seconds: &[u32; LONGEST_PERIMETER],
    mids: &[u32; LONGEST_PERIMETER],
    found: &[f64; LONGEST_PERIMETER],
    rows: RingRows,
)
    requires small { Small rows }
    requires edge_width_in_bounds { (rows.joins + rows.size) * edge_width ≤ length edges.old }
    requires size_in_bounds { rows.joins + rows.size ≤ length intervals.old }
    ensures { (es ps fs : List ℕ) (c : Counts) →
        ◌≡◌ {A = State}
        (tables_of ps edges.new intervals.new fs c)
        (turns rows.size (put_join (ring rows es firsts.now seconds.now mids.now found.now))
        (tables_of ps edges.old intervals.old fs c)) }
{
    for i in 0..rows.size {
        let edge = join_edge(firsts, seconds, mids, found, rows, i);
        store_edge(edges, intervals, rows.joins + i, edge);
    }
}

// Stores the face and the two neighbours of the edge e on its left or its right.
fn put_side(edges: &mut [u32], left: bool, e: u32, f: u32, acw: u32, cw: u32)
    requires { e * edge_width + edge_width ≤ length edges.old }
    ensures { (ps fs : List ℕ) (is : List Float) (c : Counts) →
        ◌≡◌ {A = State} (tables_of ps edges.new is fs c) (put_side left e f acw cw (tables_of ps edges.old is fs c)) }
{
    let b = e as usize * EDGE_WIDTH;
    if left {
        edges[b + LEFT_FACE_WORD] = f;
        edges[b + LEFT_CW_WORD] = cw;
        edges[b + LEFT_ACW_WORD] = acw;
        return;
    }
    edges[b + RIGHT_FACE_WORD] = f;
    edges[b + RIGHT_CW_WORD] = cw;
    edges[b + RIGHT_ACW_WORD] = acw;
}

// Stores the first half at place i on the side of the face.
fn put_first(
    edges: &[u32],
    newedges: &mut [u32],
    perimeter: &[u32; LONGEST_PERIMETER],
    firsts: &[u32; LONGEST_PERIMETER],
    seconds: &[u32; LONGEST_PERIMETER],
    rows: RingRows,
    i: usize,
)
    requires small { Small rows }
    requires i_lt_size { i < rows.size }
    requires edge_width_in_bounds { get_or perimeter.now i 0 * edge_width + edge_width ≤ length edges.now }
    requires edge_width_in_bounds_2 { get_or firsts.now i 0 * edge_width + edge_width ≤ length newedges.old }
    ensures { (ms ps fs : List ℕ) (ds is : List Float) (c : Counts) →
        ◌≡◌ {A = State}
        (tables_of ps newedges.new is fs c)
        (put_first (face_tables edges.now []) (ring rows perimeter.now firsts.now seconds.now ms ds) i
        (tables_of ps newedges.old is fs c)) }
{
    let left = on_left(edges, rows.face, index(perimeter[i]));
    let prev = prev_place(rows.size, i);
    let f = face_row(rows, i);
    put_side(
        newedges,
        left,
        firsts[i],
        f,
        (rows.joins + i) as u32,
        seconds[prev],
    );
}

// Stores the first halves on the side of the face.
pub fn put_firsts(
    edges: &[u32],
    newedges: &mut [u32],
    perimeter: &[u32; LONGEST_PERIMETER],
    firsts: &[u32; LONGEST_PERIMETER],
    seconds: &[u32; LONGEST_PERIMETER],
    rows: RingRows,
)
    requires small { Small rows }
    requires edges_there { EdgesThere edges.now perimeter.now rows.size }
    requires edges_there_2 { EdgesThere newedges.old firsts.now rows.size }
    ensures { (ms ps fs : List ℕ) (ds is : List Float) (c : Counts) →
        ◌≡◌ {A = State}
        (tables_of ps newedges.new is fs c)
        (turns rows.size
        (put_first (face_tables edges.now []) (ring rows perimeter.now firsts.now seconds.now ms ds))
        (tables_of ps newedges.old is fs c)) }
{
    for i in 0..rows.size {
        put_first(edges, newedges, perimeter, firsts, seconds, rows, i);
    }
}

// Stores the second half at place i on the side of the face.
fn put_second(
    edges: &[u32],
    newedges: &mut [u32],
    perimeter: &[u32; LONGEST_PERIMETER],
    firsts: &[u32; LONGEST_PERIMETER],
    seconds: &[u32; LONGEST_PERIMETER],
    rows: RingRows,
    i: usize,
)
    requires small { Small rows }
    requires i_lt_size { i < rows.size }
    requires edge_width_in_bounds { get_or perimeter.now i 0 * edge_width + edge_width ≤ length edges.now }
    requires edge_width_in_bounds_2 { get_or seconds.now i 0 * edge_width + edge_width ≤ length newedges.old }
    ensures { (ms ps fs : List ℕ) (ds is : List Float) (c : Counts) →
        ◌≡◌ {A = State}
        (tables_of ps newedges.new is fs c)
        (put_second (face_tables edges.now []) (ring rows perimeter.now firsts.now seconds.now ms ds) i
        (tables_of ps newedges.old is fs c)) }
{
    let left = on_left(edges, rows.face, index(perimeter[i]));
    let next = next_place(rows.size, i);
    let f = face_row(rows, next);
    put_side(
        newedges,
        left,
        seconds[i],
        f,
        firsts[next],
        (rows.joins + i) as u32,
    );
}

// Stores the second halves on the side of the face. What it has in common with `put_firsts` is the one line of its loop, so that a function
// for both would be no shorter. They are two loops, since `put_ring` of `refined_meshes` stores all first halves before the second ones.
pub fn put_seconds(
    edges: &[u32],
    newedges: &mut [u32],
    perimeter: &[u32; LONGEST_PERIMETER],
    firsts: &[u32; LONGEST_PERIMETER],
    seconds: &[u32; LONGEST_PERIMETER],
    rows: RingRows,
)
    requires small { Small rows }
    requires edges_there { EdgesThere edges.now perimeter.now rows.size }
    requires edges_there_2 { EdgesThere newedges.old seconds.now rows.size }
    ensures { (ms ps fs : List ℕ) (ds is : List Float) (c : Counts) →
        ◌≡◌ {A = State}
        (tables_of ps newedges.new is fs c)
        (turns rows.size
        (put_second (face_tables edges.now []) (ring rows perimeter.now firsts.now seconds.now ms ds))
        (tables_of ps newedges.old is fs c)) }
{
    for i in 0..rows.size {
        put_second(edges, newedges, perimeter, firsts, seconds, rows, i);
    }
}
