// The tests of the audit about edges: the test of one row and the loops over the rows.
// Not here: the links of one edge (`linked_edges`), second edges on the same two points (`sole_edges`), the audit made of them (`audit`).
// Definitions: `specs/HalfLinks.antt` (the test with half of the links), `Quick` of `audited_meshes` (the whole test).
// Theorem: half of the links are enough (`every-half` in `proofs/Links.antt`).
#![tactic(auto)]

ghost use Rattle.std.specs.Prelude.{◌≡◌, ◌&&◌, [], ◌+◌, ◌*◌, ◌≤◌, ◌<◌, ltb, length};
ghost use Rattle.tables.specs.Layout.{edge_width};
ghost use Rattle.audited_meshes.specs.Folds.{every};
ghost use Rattle.audited_meshes.specs.Audit.{edge_in_range};
ghost use Rattle.audited_meshes.specs.Quick.{edge_fit};
ghost use Rattle.tables.specs.Parts.{face_tables, edge_tables};
ghost use Rattle.audit_edges.specs.HalfLinks.{half_fit};

use intervals::interval_fits;
use linked_edges::is_linked;
use tables::{
    DEST_WORD, EDGE_WIDTH, LEFT_ACW_WORD, LEFT_CW_WORD, LEFT_FACE_WORD, RIGHT_ACW_WORD,
    RIGHT_CW_WORD, RIGHT_FACE_WORD, index,
};

// Whether two row numbers are below n and two below k.
fn are_below(a: u32, b: u32, c: u32, d: u32, n: usize, k: usize) -> bool
    ensures { result ≡ (ltb a n && ltb b n && ltb c k && ltb d k) }
{
    if n <= index(a) {
        return false;
    }
    if n <= index(b) {
        return false;
    }
    if k <= index(c) {
        return false;
    }
    index(d) < k
}

// Whether the references of edge e are in range.
fn edge_in_range(edges: &[u32], np: usize, ne: usize, nf: usize, e: usize) -> bool
    requires { e * edge_width + edge_width ≤ length edges.now }
    ensures { result ≡ edge_in_range (face_tables edges.now []) np ne nf e }
{
    let b = e * EDGE_WIDTH;
    if are_below(
        edges[b],
        edges[b + DEST_WORD],
        edges[b + LEFT_FACE_WORD],
        edges[b + RIGHT_FACE_WORD],
        np,
        nf,
    ) {
        return are_below(
            edges[b + LEFT_CW_WORD],
            edges[b + LEFT_ACW_WORD],
            edges[b + RIGHT_CW_WORD],
            edges[b + RIGHT_ACW_WORD],
            ne,
            ne,
        );
    }
    false
}

// The test of edge e, but for its clockwise links.
fn edge_fit(edges: &[u32], intervals: &[f64], np: usize, ne: usize, nf: usize, e: usize) -> bool
    requires edge_width_in_bounds { ne * edge_width ≤ length edges.now }
    requires ne_in_bounds { ne ≤ length intervals.now }
    requires e_lt_ne { e < ne }
    ensures { result ≡ half_fit (edge_tables edges.now intervals.now) np ne nf e }
{
    let b = e * EDGE_WIDTH;
    if !edge_in_range(edges, np, ne, nf, e) {
        return false;
    }
    if !interval_fits(intervals[e]) {
        return false;
    }
    if edges[b] == edges[b + DEST_WORD] {
        return false;
    }
    if edges[b + LEFT_FACE_WORD] == edges[b + RIGHT_FACE_WORD] {
        return false;
    }
    is_linked(edges, ne, e)
}

// The test of the first ne edges: where each passes the test but for its clockwise links, each passes the whole test.
pub fn edges_fit(edges: &[u32], intervals: &[f64], np: usize, ne: usize, nf: usize) -> bool
    requires edge_width_in_bounds { ne * edge_width ≤ length edges.now }
    requires ne_in_bounds { ne ≤ length intervals.now }
    ensures { result ≡ every ne (λ e. edge_fit (edge_tables edges.now intervals.now) np ne nf e) }
{
    for e in 0..ne {
        if !edge_fit(edges, intervals, np, ne, nf, e) {
            return false;
        }
    }
    true
}
