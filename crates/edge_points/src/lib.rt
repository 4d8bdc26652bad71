// The edge point (document 01, "One refinement"): equations 13 to 15; and what weighs for an edge at old points, the edge point or
// equation 15's m, by the edition (document 02, §5).
// Carries over the second loop of `global_subdivide` in t_nurcc/mod.rs, one edge at a time, each operation rounded in the Rust's order.
// Not here: face points (`face_points`), old points (`old_points`), the rows of the new points (`placing`).
// Contracts: `weighted_point`, `edge_point`. Definitions: `position_rules`, specs/EdgePoint.antt; what the code asks: specs/Sides.antt.
#![tactic(auto)]

ghost use Rattle.std.specs.Prelude.{◌≡◌, ◌+◌, ◌*◌, ◌≤◌, ◌<◌, length};
ghost use Rattle.positions.specs.Position.{placed_at};
ghost use Rattle.t_spline.specs.Edge.{connection_of};
ghost use Rattle.tables.specs.Layout.{position_width};
ghost use Rattle.position_rules.specs.EdgePoint.{share, shares, neighbour, middle, edge_middle, edge_middle_of, blend, weighted_point};
ghost use Rattle.position_rules.specs.Places.{face_point_at};
ghost use Rattle.position_rules.specs.Fits.{EdgeFits, MiddleFits, EdgePointFits, NeighboursFit};
ghost use Rattle.tables.specs.Records.{edge_at};
ghost use Rattle.edge_points.specs.Sides.{SidesThere};

use edge_ends::TnurccConnection;
use position_rules::Shares;
use position_rules::intervals::three_terms;
use position_rules::places::load_face_point;
use positions::{Placed, Position, is_small};
use records::{load_edge, load_position};
use refined_meshes::Edition;
use t_spline::TnurccEdge;
use tables::index;

// A part of a denominator, 0 if the denominator is small.
fn share(a: f64, den: f64) -> f64
    ensures { result ≡ share a den }
{
    if is_small(den) {
        return 0.0;
    }
    a / den
}

// The interval of a neighbour.
fn neighbour(intervals: &[f64], edge: TnurccEdge, con: TnurccConnection) -> f64
    requires { connection_of edge con < length intervals.now }
    ensures { result ≡ neighbour intervals.now edge con }
{
    let e = index(edge.connection(con));
    intervals[e]
}

// The shares of the two face points, by the intervals of the neighbours.
fn shares(intervals: &[f64], edge: TnurccEdge) -> Shares
    requires { NeighboursFit intervals.now edge }
    ensures { result ≡ shares intervals.now edge }
{
    let left_cw = neighbour(intervals, edge, TnurccConnection::LeftCw);
    let left_acw = neighbour(intervals, edge, TnurccConnection::LeftAcw);
    let right_cw = neighbour(intervals, edge, TnurccConnection::RightCw);
    let right_acw = neighbour(intervals, edge, TnurccConnection::RightAcw);
    let den = (left_cw + left_acw + right_cw + right_acw) * 2.0;
    Shares {
        left: share(left_acw + left_cw, den),
        right: share(right_acw + right_cw, den),
    }
}

// Both ends weighted, or the midpoint if the denominator is small.
fn middle(o: Position, wo: f64, t: Position, wt: f64) -> Position
    ensures { result ≡ middle o wo t wt }
{
    let den = wo + wt;
    if is_small(den) {
        return o.plus(t).times(0.5);
    }
    o.times(wo).plus(t.times(wt)).over(den)
}

// The edge from o to t, each end weighted by d + A2 + C2 about that end.
fn edge_middle(
    positions: &[f64],
    edges: &[u32],
    intervals: &[f64],
    o: usize,
    t: usize,
    e: usize,
) -> Position
    requires position_width_in_bounds { o * position_width + position_width ≤ length positions.now }
    requires position_width_in_bounds_2 { t * position_width + position_width ≤ length positions.now }
    requires edge_fits { EdgeFits edges.now intervals.now e }
    ensures { result ≡ edge_middle positions.now edges.now intervals.now o t e }
{
    let wo = three_terms(edges, intervals, o, e);
    let wt = three_terms(edges, intervals, t, e);
    let from = load_position(positions, o);
    let to = load_position(positions, t);
    middle(from, wo, to, wt)
}

// m (1 - aR - aL) + aL times the left face point + aR times the right one.
fn blend(m: Position, a: Shares, left: Position, right: Position) -> Position
    ensures { result ≡ blend m a left right }
{
    m.times(1.0 - a.right - a.left)
        .plus(left.times(a.left))
        .plus(right.times(a.right))
}

// m of edge e.
fn middle_point(positions: &[f64], edges: &[u32], intervals: &[f64], e: usize) -> Position
    requires { MiddleFits positions.now edges.now intervals.now e }
    ensures { result ≡ edge_middle_of positions.now edges.now intervals.now e }
{
    let edge = load_edge(edges, intervals, e);
    edge_middle(
        positions,
        edges,
        intervals,
        index(edge.origin),
        index(edge.dest),
        e,
    )
}

// The edge point of edge e, from its m and the face points that stand in the new table of positions.
pub fn edge_point(
    edges: &[u32],
    intervals: &[f64],
    newpositions: &[f64],
    newfaces: &[u32],
    e: usize,
    m: Position,
) -> Position
    requires { SidesThere edges.now intervals.now newpositions.now newfaces.now e }
    ensures { result ≡ blend m (shares intervals.now (edge_at edges.now intervals.now e))
        (face_point_at newpositions.now newfaces.now (edge_at edges.now intervals.now e).face_left)
        (face_point_at newpositions.now newfaces.now (edge_at edges.now intervals.now e).face_right) }
{
    let edge = load_edge(edges, intervals, e);
    let left = load_face_point(newpositions, newfaces, index(edge.face_left));
    let right = load_face_point(newpositions, newfaces, index(edge.face_right));
    blend(m, shares(intervals, edge), left, right)
}

// What weighs for edge e at old points: the edge point in the first edition, m in the second. Both start from m, so that its code stands
// in the loop over the edges once.
pub fn weighted_point(
    positions: &[f64],
    edges: &[u32],
    intervals: &[f64],
    newpositions: &[f64],
    newfaces: &[u32],
    e: usize,
    edition: Edition,
) -> Placed
    requires { EdgePointFits positions.now edges.now intervals.now newpositions.now newfaces.now e }
    ensures { result ≡ placed_at (weighted_point edition positions.now edges.now intervals.now
        (face_point_at newpositions.now newfaces.now) e) }
{
    let m = middle_point(positions, edges, intervals, e);
    match edition {
        Edition::First => edge_point(edges, intervals, newpositions, newfaces, e, m).placed(),
        Edition::Second => m.placed(),
    }
}
