// The face that two edges about a point have in common, with the side as a number, so that no branch depends on it.
// Not here: the same by records (`common_face` of `t_spline`), the sum over the edges about a point (`old_points`).
// Contract: `face_between`. Definitions: `common_face` of `t_spline`, specs/Edge.antt; specs/Sides.antt.
#![tactic(auto)]

ghost use Rattle.std.specs.Prelude.{◌≡◌, false, cond, ◌+◌, ◌*◌, ◌≤◌, eqb, length};
ghost use Rattle.t_spline.specs.Edge.{none, common_face};
ghost use Rattle.tables.specs.Layout.{edge_width};
ghost use Rattle.tables.specs.Records.{edge_at};
ghost use Rattle.position_rules.specs.Fits.{EdgeFits};
ghost use Rattle.common_faces.specs.Sides.{has_face, likely_face};

use edge_ends::NONE;
use records::load_edge;
use tables::{EDGE_WIDTH, LEFT_FACE_WORD, index};

// 0 if the test holds, else 1.
fn number_of(test: bool) -> usize
    ensures { result ≡ cond test 0 1 }
{
    usize::from(!test)
}

// Whether edge e has the face f on a side. The side is a number, so that no branch depends on it.
fn has_face(edges: &[u32], e: usize, f: u32) -> bool
    requires { e * edge_width + edge_width ≤ length edges.now }
    ensures { result ≡ has_face edges.now e f }
{
    let b = e * EDGE_WIDTH + LEFT_FACE_WORD;
    let s = number_of(f == edges[b]);
    f == edges[b + s]
}

// The left face of edge r if the next edge has it, else the right one.
fn likely_face(edges: &[u32], r: usize, next: usize) -> u32
    requires edge_width_in_bounds { r * edge_width + edge_width ≤ length edges.now }
    requires edge_width_in_bounds_2 { next * edge_width + edge_width ≤ length edges.now }
    ensures { result ≡ likely_face edges.now r next }
{
    let b = r * EDGE_WIDTH + LEFT_FACE_WORD;
    let s = number_of(has_face(edges, next, edges[b]));
    edges[b + s]
}

// Whether f is a face, and edge e has it.
fn borders(edges: &[u32], e: usize, f: u32) -> bool
    requires { e * edge_width + edge_width ≤ length edges.now }
    ensures { result ≡ cond (eqb f none) false (has_face edges.now e f) }
{
    f != NONE && has_face(edges, e, f)
}

// The face that edge r has in common with the next edge.
pub fn face_between(edges: &[u32], intervals: &[f64], r: usize, next: usize) -> usize
    requires edge_fits { EdgeFits edges.now intervals.now r }
    requires edge_fits_2 { EdgeFits edges.now intervals.now next }
    ensures { result ≡ common_face (edge_at edges.now intervals.now r) (edge_at edges.now intervals.now next) }
{
    let f = likely_face(edges, r, next);
    if borders(edges, next, f) {
        return index(f);
    }
    index(load_edge(edges, intervals, r).common_face(load_edge(edges, intervals, next)))
}
