// The face point (document 01, "One refinement"): over the border of a face, windows of five points.
// Carries over the first loop of `global_subdivide` in t_nurcc/mod.rs, one face at a time, each operation rounded in the Rust's order.
// Not here: edge points (`edge_points`), old points (`old_points`), the rows of the new points (`placing`).
// Contract: `face_point`. Definitions: `position_rules`, specs/FacePoint.antt; `specs/Terms.antt`
// for the terms that the code keeps from one window to the next.
#![tactic(auto)]

ghost use Rattle.std.specs.Prelude.{◌≡◌, ◌+◌, ◌<◌, length, get_or};
ghost use Rattle.perimeters.specs.Places.{around};
ghost use Rattle.tables.specs.Layout.{longest_perimeter, longest_border};
ghost use Rattle.positions.specs.Position.{placed_at};
ghost use Rattle.position_rules.specs.Intervals.{acw_about, cw_about};
ghost use Rattle.position_rules.specs.FacePoint.{window_sum, face_point_in};
ghost use Rattle.tables.specs.Parts.{without_points};
ghost use Rattle.position_rules.specs.Fits.{EdgeFits, BorderFits, PointsFit, CornersTurn, FacePointFits};
ghost use Rattle.face_points.specs.Terms.{terms_about, six, FourAgain};

use perimeters::next_place;
use position_rules::WeightedSum;
use position_rules::intervals::{a1, a2, c1, c2};
use positions::{Placed, Position};
use records::load_position;
use t_nurcc_face::lay_border;
use tables::{LONGEST_BORDER, LONGEST_PERIMETER, index};

// The interval of an edge, and those after two steps anticlockwise and two steps clockwise about one of its points.
#[derive(Clone, Copy)]
struct Terms {
    d: f64,
    a2: f64,
    c2: f64,
}

// The terms of one edge, then those of another.
fn six_terms(s: Terms, t: Terms) -> f64
    ensures { result ≡ six s t }
{
    s.d + s.a2 + s.c2 + t.d + t.a2 + t.c2
}

// The terms about p of the edge at place i of a border, which begins at p: one step anticlockwise from it is the edge at the place before.
fn terms_from(
    edges: &[u32],
    intervals: &[f64],
    border: &[u32; LONGEST_PERIMETER],
    p: u32,
    before: usize,
    i: usize,
) -> Terms
    requires before_lt_longest_perimeter { before < longest_perimeter }
    requires i_lt_longest_perimeter { i < longest_perimeter }
    requires edge_fits { EdgeFits edges.now intervals.now (get_or border.now before 0) }
    requires edge_fits_2 { EdgeFits edges.now intervals.now (get_or border.now i 0) }
    requires i_value { acw_about edges.now p (get_or border.now i 0) ≡ get_or border.now before 0 }
    ensures { result ≡ terms_about edges.now intervals.now p (get_or border.now i 0) }
{
    let e = index(border[i]);
    let a = a1(edges, intervals, index(p), index(border[before]));
    let c = c2(edges, intervals, index(p), e);
    Terms {
        d: intervals[e],
        a2: a,
        c2: c,
    }
}

// The same of one that ends at p: one step clockwise from it is the edge at the place after.
fn terms_to(
    edges: &[u32],
    intervals: &[f64],
    border: &[u32; LONGEST_PERIMETER],
    p: u32,
    i: usize,
    after: usize,
) -> Terms
    requires i_lt_longest_perimeter { i < longest_perimeter }
    requires after_lt_longest_perimeter { after < longest_perimeter }
    requires edge_fits { EdgeFits edges.now intervals.now (get_or border.now i 0) }
    requires edge_fits_2 { EdgeFits edges.now intervals.now (get_or border.now after 0) }
    requires i_value { cw_about edges.now p (get_or border.now i 0) ≡ get_or border.now after 0 }
    ensures { result ≡ terms_about edges.now intervals.now p (get_or border.now i 0) }
{
    let e = index(border[i]);
    let a = a2(edges, intervals, index(p), e);
    let c = c1(edges, intervals, index(p), index(border[after]));
    Terms {
        d: intervals[e],
        a2: a,
        c2: c,
    }
}

// The sum of the middle points of n windows at their weights. The weight of the window p0 .. p4 is p2p3 about p3, then p0p1
// about p0; times p1p2 about p1, then p3p4 about p4. Two of these four are those of the window before it: p0p1 about p0 was its
// p1p2 about p1, and p2p3 about p3 its p3p4 about p4; k is the place of p3p4. The other two of the last window are those two of the
// first, as the border comes round. The Rust sums the weights from -0.
fn window_sum(
    positions: &[f64],
    edges: &[u32],
    intervals: &[f64],
    points: &[u32; LONGEST_BORDER],
    border: &[u32; LONGEST_PERIMETER],
    n: usize,
) -> WeightedSum
    requires border_fits { BorderFits edges.now intervals.now border.now n }
    requires points_fit { PointsFit positions.now points.now n }
    requires four_again { FourAgain points.now n }
    requires corners_turn { CornersTurn edges.now (λ j. get_or points.now (j + 1) 0) border.now n }
    ensures { result
        ≡ window_sum positions.now edges.now intervals.now (λ j. get_or points.now j 0)
        (λ j. get_or border.now (around n j) 0) n }
{
    let mut s = WeightedSum {
        sum: Position::origin(),
        weight: -0.0,
    };
    let last = n - 1;
    let start = terms_from(edges, intervals, border, points[0], last, 0);
    let mut k = next_place(n, 2);
    let ahead = terms_to(edges, intervals, border, points[3], 2, k);
    let mut first = start;
    let mut third = ahead;
    for i in 0..last {
        let second = terms_from(edges, intervals, border, points[i + 1], i, next_place(n, i));
        let after = next_place(n, k);
        let fourth = terms_to(edges, intervals, border, points[i + 4], k, after);
        let w = six_terms(third, first) * six_terms(second, fourth);
        let p = load_position(positions, index(points[i + 2]));
        s = s.with_term(p, w);
        first = second;
        third = fourth;
        k = after;
    }
    let w = six_terms(third, first) * six_terms(start, ahead);
    s.with_term(load_position(positions, index(points[last + 2])), w)
}

// The face point of face f, by the walk about it along the edges below ne. The border of the face is laid into the lent arrays, which may
// hold anything before.
pub fn face_point(
    positions: &[f64],
    edges: &[u32],
    intervals: &[f64],
    faces: &[u32],
    ne: usize,
    f: usize,
    perimeter: &mut [u32; LONGEST_PERIMETER],
    points: &mut [u32; LONGEST_BORDER],
) -> Placed
    requires face_point_fits { FacePointFits positions.now edges.now intervals.now faces.now ne f }
    requires perimeter_len { length perimeter.old ≡ longest_perimeter }
    requires points_len { length points.old ≡ longest_border }
    ensures value { result ≡ placed_at (face_point_in (without_points positions.now edges.now intervals.now faces.now) ne f) }
    ensures perimeter_len_2 { length perimeter.new ≡ longest_perimeter }
    ensures points_len_2 { length points.new ≡ longest_border }
{
    let Some(n) = lay_border(edges, faces, ne, f, perimeter, points) else {
        return Placed::NotFinite;
    };
    let s = window_sum(positions, edges, intervals, points, perimeter, n);
    s.sum.over(s.weight).placed()
}
