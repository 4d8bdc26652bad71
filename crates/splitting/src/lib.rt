// The splitting of edges in the scratch tables: an edge is split at its first visit, both halves getting half of its interval.
// Carries over `split_edge` of t_nurcc_edge/mod.rs. The links at the far end of the new half are written by the visit of a face,
// which writes every link of its ring.
// Definitions: `refined_meshes`, specs/Split.antt and specs/Visits.antt. Laws for callers: `proofs/Laws.antt`.
#![tactic(auto)]

ghost use Rattle.std.specs.Prelude.{◌≡◌, ℕ, ◌+◌, ◌*◌, ◌≤◌, ◌<◌, length, get_or, set, [], ◌∷◌};
ghost use Rattle.tables.specs.Layout.{point_width, start_word, edge_width, dest_word, longest_perimeter};
ghost use Rattle.tables.specs.Rows.{put_row};
ghost use Rattle.tables.specs.Records.{edge_at, edge_words};
ghost use Rattle.refined_meshes.specs.State.{State};
ghost use Rattle.refined_meshes.specs.Split.{half, origin_half, destination_half, split_edge, split_whole};
ghost use Rattle.refined_meshes.specs.Visits.{split_all};
ghost use Rattle.splitting.specs.Scratch.{scratch, InRows, SplitRoom};

use records::{load_edge, store_edge};
use t_spline::TnurccEdge;
use tables::{
    Counts, DEST_WORD, EDGE_WIDTH, LONGEST_PERIMETER, MARK_WORD, POINT_WIDTH, START_WORD, index,
};

// Half of an interval.
fn half(d: f64) -> f64
    ensures { result ≡ half d }
{
    d * 0.5
}

// The half of an edge at its origin: p is the midpoint, h the row of the other half.
fn origin_half(edge: TnurccEdge, p: u32, h: u32) -> TnurccEdge
    ensures { result ≡ origin_half p h edge }
{
    TnurccEdge {
        connections: [edge.connections[0], h, h, edge.connections[3]],
        face_left: edge.face_left,
        face_right: edge.face_right,
        origin: edge.origin,
        dest: p,
        knot_interval: half(edge.knot_interval),
    }
}

// The half of an edge at its destination: p is the midpoint, e the row of the other half.
fn destination_half(edge: TnurccEdge, p: u32, e: u32) -> TnurccEdge
    ensures { result ≡ destination_half p e edge }
{
    TnurccEdge {
        connections: [e, edge.connections[1], edge.connections[2], e],
        face_left: edge.face_left,
        face_right: edge.face_right,
        origin: p,
        dest: edge.dest,
        knot_interval: half(edge.knot_interval),
    }
}

// Stores the two halves of the edge e, whose midpoint is p, the destination half in row h. Answers the old destination.
fn put_halves(edges: &mut [u32], intervals: &mut [f64], e: u32, p: u32, h: u32) -> u32
    requires in_rows { InRows edges.old intervals.old e }
    requires in_rows_2 { InRows edges.old intervals.old h }
    ensures value { result ≡ get_or edges.old (e * edge_width + dest_word) 0 }
    ensures edges_after { edges.new ≡
        put_row (put_row edges.old (h * edge_width) (edge_words (destination_half p e (edge_at edges.old intervals.old e))))
        (e * edge_width) (edge_words (origin_half p h (edge_at edges.old intervals.old e))) }
    ensures intervals_after { intervals.new ≡
        set (set intervals.old h (destination_half p e (edge_at edges.old intervals.old e)).knot_interval)
        e (origin_half p h (edge_at edges.old intervals.old e)).knot_interval }
{
    let edge = load_edge(edges, intervals, e as usize);
    let new = destination_half(edge, p, e);
    let old = origin_half(edge, p, h);
    store_edge(edges, intervals, h as usize, new);
    store_edge(edges, intervals, e as usize, old);
    edge.dest
}

// Stores the row of the midpoint p of the edge e, with valence 4 and mark 0, then the other half h as the start edge of the old
// destination d.
fn put_ends(points: &mut [u32], p: u32, e: u32, d: u32, h: u32)
    requires point_width_in_bounds { p * point_width + point_width ≤ length points.old }
    requires point_width_in_bounds_2 { d * point_width + point_width ≤ length points.old }
    ensures { points.new ≡
        set (put_row points.old (p * point_width) (4 ∷ e ∷ 0 ∷ [])) (d * point_width + start_word) h }
{
    let b = p as usize * POINT_WIDTH;
    points[b] = 4;
    points[b + START_WORD] = e;
    points[b + MARK_WORD] = 0;
    points[d as usize * POINT_WIDTH + START_WORD] = h;
}

// Splits the edge e: the next row of edges becomes its destination half, the next row of points its midpoint.
fn split_edge(
    points: &mut [u32],
    edges: &mut [u32],
    intervals: &mut [f64],
    e: u32,
    taken: Counts,
) -> Counts
    requires in_rows { InRows edges.old intervals.old e }
    requires split_room { SplitRoom points.old edges.old intervals.old (taken.points + 1) (taken.edges + 1) }
    requires point_width_in_bounds { get_or edges.old (e * edge_width + dest_word) 0 * point_width + point_width ≤ length points.old }
    ensures { ◌≡◌ {A = State}
        (scratch points.new edges.new intervals.new result)
        (split_edge e (scratch points.old edges.old intervals.old taken)) }
{
    let p = taken.points as u32;
    let h = taken.edges as u32;
    let d = put_halves(edges, intervals, e, p, h);
    put_ends(points, p, e, d, h);
    Counts {
        points: taken.points + 1,
        edges: taken.edges + 1,
        faces: taken.faces,
    }
}

// Splits the edge e unless it is split already: a whole edge ends in one of the np old points.
fn split_whole(
    points: &mut [u32],
    edges: &mut [u32],
    intervals: &mut [f64],
    np: usize,
    e: u32,
    taken: Counts,
) -> Counts
    requires in_rows { InRows edges.old intervals.old e }
    requires point_width_in_bounds { np * point_width ≤ length points.old }
    requires split_room { SplitRoom points.old edges.old intervals.old
        (split_whole np e (scratch points.old edges.old intervals.old taken)).points_taken
        (split_whole np e (scratch points.old edges.old intervals.old taken)).edges_taken }
    ensures { ◌≡◌ {A = State}
        (scratch points.new edges.new intervals.new result)
        (split_whole np e (scratch points.old edges.old intervals.old taken)) }
{
    if index(edges[e as usize * EDGE_WIDTH + DEST_WORD]) < np {
        return split_edge(points, edges, intervals, e, taken);
    }
    taken
}

// Splits each of the first n edges of a perimeter unless it is split already.
pub fn split_all(
    points: &mut [u32],
    edges: &mut [u32],
    intervals: &mut [f64],
    np: usize,
    perimeter: &[u32; LONGEST_PERIMETER],
    n: usize,
    taken: Counts,
) -> Counts
    requires n_le_longest_perimeter { n ≤ longest_perimeter }
    requires by_index { (i : ℕ) → i < n → InRows edges.old intervals.old (get_or perimeter.now i 0) }
    requires point_width_in_bounds { np * point_width ≤ length points.old }
    requires split_room { SplitRoom points.old edges.old intervals.old
        (split_all np perimeter.now n (scratch points.old edges.old intervals.old taken)).points_taken
        (split_all np perimeter.now n (scratch points.old edges.old intervals.old taken)).edges_taken }
    ensures { ◌≡◌ {A = State}
        (scratch points.new edges.new intervals.new result)
        (split_all np perimeter.now n (scratch points.old edges.old intervals.old taken)) }
{
    let mut counts = taken;
    for i in 0..n {
        counts = split_whole(points, edges, intervals, np, perimeter[i], counts);
    }
    counts
}
