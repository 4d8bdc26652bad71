// The rows that a visit takes for a face, and at one edge of its perimeter: whether the face is on its left, and which half is at which
// of its points.
// Carries over what `global_subdivide`'s loop over the faces (t_nurcc/mod.rs) reads of one place.
// Not here: all places of a perimeter (`ring_places`), what is written about the face (`ring_edges`, `ring_faces`).
// Definitions: `refined_meshes`, specs/Ring.antt; `specs/Rings.antt` for the ring as the code holds it.
#![tactic(auto)]

ghost use Rattle.std.specs.Prelude.{◌≡◌, cond, [], ◌+◌, ◌*◌, ◌≤◌, ◌<◌, eqb, length, get_or};
ghost use Rattle.tables.specs.Layout.{edge_width, left_face_word, left_acw_word, right_cw_word};
ghost use Rattle.refined_meshes.specs.Ring.{face_row};
ghost use Rattle.ring_rows.specs.Rings.{ring, Small};

use tables::{EDGE_WIDTH, LEFT_ACW_WORD, LEFT_FACE_WORD, RIGHT_CW_WORD, index};

// The rows of a ring: the face, the number of its edges, its face point, its first joining edge, its first appended face.
#[derive(Clone, Copy)]
pub struct RingRows {
    pub face: usize,
    pub size: usize,
    pub centre: usize,
    pub joins: usize,
    pub faces: usize,
}

// Whether face f is on the left of the edge e, in a mesh's table of edges.
pub fn on_left(edges: &[u32], f: usize, e: usize) -> bool
    requires { e * edge_width + edge_width ≤ length edges.now }
    ensures { result ≡ eqb (get_or edges.now (e * edge_width + left_face_word) 0) f }
{
    index(edges[e * EDGE_WIDTH + LEFT_FACE_WORD]) == f
}

// The half of the edge e at its first point, where the face is on its left or its right.
pub fn first_half(edges: &[u32], left: bool, e: u32) -> u32
    requires { e * edge_width + edge_width ≤ length edges.now }
    ensures { result ≡ cond left e (get_or edges.now (e * edge_width + right_cw_word) 0) }
{
    let h = edges[e as usize * EDGE_WIDTH + RIGHT_CW_WORD];
    if left {
        return e;
    }
    h
}

// The half of the edge e at its second point.
pub fn second_half(edges: &[u32], left: bool, e: u32) -> u32
    requires { e * edge_width + edge_width ≤ length edges.now }
    ensures { result ≡ cond left (get_or edges.now (e * edge_width + left_acw_word) 0) e }
{
    let h = edges[e as usize * EDGE_WIDTH + LEFT_ACW_WORD];
    if left {
        return h;
    }
    e
}

// The row of the new face at place i: the first takes the old row.
pub fn face_row(rows: RingRows, i: usize) -> u32
    requires small { Small rows }
    requires i_lt_size { i < rows.size }
    ensures { result ≡ face_row (ring rows [] [] [] [] []) i }
{
    if i == 0 {
        return rows.face as u32;
    }
    (rows.faces + (i - 1)) as u32
}
