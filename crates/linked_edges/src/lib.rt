// Whether the anticlockwise links of one edge lead to edges that link back (document 01, "Audit").
// Not here: the other tests of an edge, and that these links are enough (`audit_edges`).
// Contract: `is_linked`. Definitions: `specs/Links.antt`; `Audit` of `audited_meshes`. Laws: `proofs/LinkTests.antt`.
#![tactic(auto)]

ghost use Rattle.std.specs.Prelude.{◌≡◌, [], ◌+◌, ◌*◌, ◌≤◌, ◌<◌, length};
ghost use Rattle.tables.specs.Layout.{edge_width};
ghost use Rattle.tables.specs.Mesh.{left_acw, right_acw};
ghost use Rattle.tables.specs.Parts.{face_tables};
ghost use Rattle.audited_meshes.specs.Audit.{acw_links};
ghost use Rattle.linked_edges.specs.Links.{cw_back, acw_linked};

use tables::{
    DEST_WORD, EDGE_WIDTH, LEFT_ACW_WORD, LEFT_CW_WORD, LEFT_FACE_WORD, RIGHT_ACW_WORD,
    RIGHT_FACE_WORD, index,
};
use walks::{SIDE_WIDTH, end_number, touches};

// Whether edge a borders face f and links back to edge e by its clockwise link there. The words are found by the number of the side, so
// that the answer of the comparison with the left face, which no one can foretell, is no branch.
fn links_back(edges: &[u32], f: u32, a: usize, e: usize) -> bool
    requires { a * edge_width + edge_width ≤ length edges.now }
    ensures { result ≡ cw_back (face_tables edges.now []) f a e }
{
    let b = a * EDGE_WIDTH;
    let s = end_number(index(edges[b + LEFT_FACE_WORD]), index(f));
    if edges[b + LEFT_FACE_WORD + s] != f {
        return false;
    }
    index(edges[b + LEFT_CW_WORD + SIDE_WIDTH * s]) == e
}

// Whether edge a touches point p, borders face f and links back to edge e by its clockwise link there.
fn acw_links(edges: &[u32], p: u32, f: u32, a: usize, e: usize) -> bool
    requires { a * edge_width + edge_width ≤ length edges.now }
    ensures { result ≡ acw_links (face_tables edges.now []) e p f a }
{
    if touches(edges, index(p), a) {
        return links_back(edges, f, a, e);
    }
    false
}

// Whether the anticlockwise links of edge e lead to edges that link back. They are in range. The clockwise links are not tested: where
// the anticlockwise links of all edges are undone so, they lead to no side of an edge twice, hence to every side once, and then the
// clockwise links are undone as well (`every-half` of `audit_edges`, proofs/Links.antt).
pub fn is_linked(edges: &[u32], ne: usize, e: usize) -> bool
    requires edge_width_in_bounds { ne * edge_width ≤ length edges.now }
    requires e_lt_ne { e < ne }
    requires e_bound { left_acw (face_tables edges.now []) e < ne }
    requires e_bound_2 { right_acw (face_tables edges.now []) e < ne }
    ensures { result ≡ acw_linked (face_tables edges.now []) e }
{
    let b = e * EDGE_WIDTH;
    let origin = edges[b];
    let dest = edges[b + DEST_WORD];
    let left = edges[b + LEFT_FACE_WORD];
    let right = edges[b + RIGHT_FACE_WORD];
    let left_acw = index(edges[b + LEFT_ACW_WORD]);
    let right_acw = index(edges[b + RIGHT_ACW_WORD]);
    if !acw_links(edges, dest, left, left_acw, e) {
        return false;
    }
    acw_links(edges, origin, right, right_acw, e)
}
