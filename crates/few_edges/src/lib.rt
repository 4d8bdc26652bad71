// Whether the walk about a point with few edges comes back after its valence, and no two of its edges join the same two points: the other
// ends of the edges are compared with each other.
// The walk takes as many steps as the valence says and must be at its start then: if it were there before, it would pass its first edge
// twice, and the other end of that edge would not be new.
// Not here: points with many edges, and all points (`sole_edges`).
// Contract: `few_sole`. Definitions: `specs/Rounds.antt`. Laws: `proofs/Steps.antt`, `proofs/Joins.antt`, `proofs/Rounds.antt`,
// `proofs/Comparing.antt`.
#![tactic(auto)]

ghost use Rattle.std.specs.Prelude.{◌≡◌, true, [], ◌+◌, ◌*◌, ◌≤◌, length};
ghost use Rattle.tables.specs.Layout.{point_width, edge_width};
ghost use Rattle.tables.specs.Mesh.{valence};
ghost use Rattle.tables.specs.Parts.{face_tables, point_tables};
ghost use Rattle.few_edges.specs.Rounds.{Ends, RoundApart, Good};

use audit_tests::points::is_new_among;
use tables::{POINT_WIDTH, START_WORD, index};
use walks::point_step;

// Whether the walk about point p, which has no more edges than there are places in ends, is at its start again after its valence, and
// not before, and each of its edges is the only one between its two points.
pub fn few_sole(
    points: &[u32],
    edges: &[u32],
    ends: &mut [u32],
    np: usize,
    ne: usize,
    p: usize,
) -> bool
    requires point_width_in_bounds { p * point_width + point_width ≤ length points.now }
    requires edge_width_in_bounds { ne * edge_width ≤ length edges.now }
    requires p_in_bounds { valence (point_tables points.now []) p ≤ length ends.old }
    requires ends { Ends (face_tables edges.now []) np ne }
    ensures round_apart { result ≡ true → RoundApart (point_tables points.now edges.now) ne p }
    ensures value { Good (point_tables points.now edges.now) ne p → result ≡ true }
{
    let k = index(points[p * POINT_WIDTH]);
    let start = points[p * POINT_WIDTH + START_WORD];
    let mut i = start;
    for n in 0..k {
        let Some(step) = point_step(edges, ne, p, index(i)) else {
            return false;
        };
        if !is_new_among(ends, n, step.point) {
            return false;
        }
        ends[n] = step.point;
        i = step.next;
    }
    i == start
}
