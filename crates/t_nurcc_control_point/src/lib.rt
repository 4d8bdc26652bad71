// The radial edges of a point, and the edge to a neighbour.
// Carries over t_nurcc_control_point.rs. Not here: one step about a point, and whether an edge touches it (`walks`).
// Definitions: `walks`, specs/Steps.antt, specs/Neighbour.antt.
#![tactic(auto)]

ghost use Rattle.std.specs.Prelude.{◌≡◌, ◌+◌, ◌*◌, ◌≤◌, length};
ghost use Rattle.tables.specs.Layout.{point_width, edge_width};
ghost use Rattle.tables.specs.Parts.{point_tables};
ghost use Rattle.audited_meshes.specs.Walks.{point_walk};
ghost use Rattle.walks.specs.Neighbour.{edge_to_point};
ghost use Rattle.walks.specs.Steps.{passed_by, radial_over};

use t_nurcc_iter::point_walk;
use tables::{POINT_WIDTH, START_WORD, index};
use walks::{acw_of_point, point_step, touches};

// The edges about point p, anticlockwise from its start edge, in the lent words: as many as the walk passes, which is the answer; none if it is lost.
pub fn radial_edges(
    edges: &[u32],
    points: &[u32],
    ne: usize,
    p: usize,
    radial: &mut [u32],
) -> Option<usize>
    requires edge_width_in_bounds { ne * edge_width ≤ length edges.now }
    requires point_width_in_bounds { p * point_width + point_width ≤ length points.now }
    ensures value { result ≡ passed_by (point_walk (point_tables points.now edges.now) ne (length radial.old) p) }
    ensures radial_after { radial.new ≡ radial_over (point_walk (point_tables points.now edges.now) ne (length radial.old) p) radial.old }
{
    let k = radial.len();
    let n = point_walk(edges, points, ne, k, p)?;
    let mut e = points[p * POINT_WIDTH + START_WORD];
    for i in 0..n {
        radial[i] = e;
        e = acw_of_point(edges, p, index(e));
    }
    Some(n)
}

// The first edge about point p, of at most k from its start edge, that touches point q too, if there is one.
pub fn edge_from_opposing_point(
    edges: &[u32],
    points: &[u32],
    ne: usize,
    k: usize,
    p: usize,
    q: usize,
) -> Option<u32>
    requires edge_width_in_bounds { ne * edge_width ≤ length edges.now }
    requires point_width_in_bounds { p * point_width + point_width ≤ length points.now }
    ensures { result ≡ edge_to_point (point_tables points.now edges.now) ne k p q }
{
    let start = points[p * POINT_WIDTH + START_WORD];
    let mut e = start;
    for _n in 0..k {
        let step = point_step(edges, ne, p, index(e))?;
        if touches(edges, q, index(e)) {
            return Some(e);
        }
        if step.next == start {
            return None;
        }
        e = step.next;
    }
    None
}
