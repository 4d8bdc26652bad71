// The old point (document 01, "One refinement"): equations 16 to 19.
// Carries over the third loop of `global_subdivide` in t_nurcc/mod.rs, one point at a time, each operation rounded in the Rust's order.
// Not here: the face between two edges (`common_faces`), where the point goes by the sum (`old_places`), face points (`face_points`), edge
// points (`edge_points`), the rows of the new points (`placing`).
// Contract: `old_point`. Definitions: `position_rules`, specs/OldPoint.antt.
#![tactic(auto)]

ghost use Rattle.std.specs.Prelude.{◌≡◌, ◌+◌, ◌*◌, ◌≤◌, length};
ghost use Rattle.positions.specs.Position.{placed_at};
ghost use Rattle.t_spline.specs.Edge.{none, common_face};
ghost use Rattle.tables.specs.Layout.{edge_width};
ghost use Rattle.tables.specs.Records.{edge_at};
ghost use Rattle.position_rules.specs.OldPoint.{radial_sum, moved, old_point};
ghost use Rattle.position_rules.specs.Places.{edge_point_at, face_point_at};
ghost use Rattle.position_rules.specs.Fits.{EdgeFits, RadialFits, TurnsBack, OldPointFits};
ghost use Rattle.old_points.specs.Fan.{fan_about, edge_weight_in, terms_in, BetweenFits};

use common_faces::face_between;
use old_places::moved;
use position_rules::WeightedSum;
use position_rules::intervals::{a1, acw_about, c1, c2};
use position_rules::places::{load_edge_point, load_face_point};
use positions::{Placed, Position};
use records::load_point;
use tables::index;

// The intervals about edge r of a point: of the edges two steps and one step clockwise, of r, of the edge one step anticlockwise.
#[derive(Clone, Copy)]
struct Fan {
    c2: f64,
    c1: f64,
    d: f64,
    a1: f64,
}

// The intervals about edge r of the point p.
fn fan_about(edges: &[u32], intervals: &[f64], p: usize, r: usize) -> Fan
    requires { EdgeFits edges.now intervals.now r }
    ensures { result ≡ fan_about edges.now intervals.now p r }
{
    let far = c2(edges, intervals, p, r);
    let before = c1(edges, intervals, p, r);
    let next = a1(edges, intervals, p, r);
    Fan {
        c2: far,
        c1: before,
        d: intervals[r],
        a1: next,
    }
}

// 0.5 (A1 + C1) (A2 + C2).
fn edge_weight(fan: Fan, a2: f64) -> f64
    ensures { result ≡ edge_weight_in fan a2 }
{
    0.5 * (fan.a1 + fan.c1) * (a2 + fan.c2)
}

// The sum s with the terms of edge r and of the face between it and the next edge. C1 of the next edge is the interval of r.
fn radial_terms(
    edges: &[u32],
    intervals: &[f64],
    newpositions: &[f64],
    newedges: &[u32],
    newfaces: &[u32],
    r: usize,
    next: usize,
    fan: Fan,
    a2: f64,
    s: WeightedSum,
) -> WeightedSum
    requires { BetweenFits edges.now intervals.now r next newpositions.now newedges.now newfaces.now }
    ensures { result ≡ terms_in edges.now intervals.now (edge_point_at newpositions.now
        newedges.now) (face_point_at newpositions.now newfaces.now) r next fan a2 s }
{
    let f = face_between(edges, intervals, r, next);
    let edge_term = s.with_term(
        load_edge_point(newpositions, newedges, r),
        edge_weight(fan, a2),
    );
    edge_term.with_term(load_face_point(newpositions, newfaces, f), fan.a1 * fan.d)
}

// The terms of n edges about p, anticlockwise from the start edge. What is known about an edge is kept for the next one, so that each turn
// of the loop takes one step about p.
fn radial_sum(
    edges: &[u32],
    intervals: &[f64],
    newpositions: &[f64],
    newedges: &[u32],
    newfaces: &[u32],
    p: usize,
    start: usize,
    n: usize,
) -> WeightedSum
    requires radial_fits { RadialFits edges.now intervals.now start newpositions.now newedges.now newfaces.now }
    requires turns_back { TurnsBack edges.now p start }
    ensures { result ≡ radial_sum edges.now intervals.now (edge_point_at newpositions.now
        newedges.now) (face_point_at newpositions.now newfaces.now) p start n }
{
    let mut s = WeightedSum {
        sum: Position::origin(),
        weight: 0.0,
    };
    let mut r = start;
    let mut next = acw_about(edges, p, start);
    let mut fan = fan_about(edges, intervals, p, start);
    for i in 0..n {
        let after = acw_about(edges, p, next);
        let a2 = intervals[after];
        s = radial_terms(
            edges,
            intervals,
            newpositions,
            newedges,
            newfaces,
            r,
            next,
            fan,
            a2,
            s,
        );
        let ahead = Fan {
            c2: fan.c1,
            c1: fan.d,
            d: fan.a1,
            a1: a2,
        };
        fan = ahead;
        r = next;
        next = after;
    }
    s
}

// Where the point p goes, from the edge points and face points that stand in the new table of positions.
pub fn old_point(
    positions: &[f64],
    points: &[u32],
    edges: &[u32],
    intervals: &[f64],
    newpositions: &[f64],
    newedges: &[u32],
    newfaces: &[u32],
    p: usize,
) -> Placed
    requires { OldPointFits positions.now points.now edges.now intervals.now newpositions.now newedges.now newfaces.now p }
    ensures { result ≡ placed_at (old_point positions.now points.now edges.now intervals.now
        (edge_point_at newpositions.now newedges.now) (face_point_at newpositions.now
        newfaces.now) p) }
{
    let point = load_point(positions, points, p);
    let start = index(point.incoming_edge);
    let s = radial_sum(
        edges,
        intervals,
        newpositions,
        newedges,
        newfaces,
        p,
        start,
        index(point.valence),
    );
    moved(point.point, f64::from(point.valence), s).placed()
}
