// Whether the walks about points come back after their valences, and no two edges join the same two points (document 01, "Audit"), in
// one walk about each point: linear in the edges.
// The other ends of a point's edges are compared with each other, if they are few (`few_edges`). If they are many, each edge is noted in
// a local table at the place of its other end: an edge that finds another between the same two points noted there is a second one.
// What other walks left in the table does no harm, since the edge that is found is looked at. Past 32,768 points there is one walk for
// each window of so many, so that no memory is lent. A walk that notes edges finds an edge again without a word, and is asked after
// each step whether it is at its start.
// Not here: the other tests of points (`audit_tests`) and of edges (`audit_edges`).
// Contract: `walks_with_sole_edges`. Definitions: `walk_fits` of `audit_tests`; `one_edge` of `audited_meshes`, specs/Quick.antt;
// `specs/Sole.antt`. Laws: `proofs/Walking.antt`, `proofs/Walked.antt`, `proofs/OneEdges.antt`.
#![tactic(auto)]

ghost use Rattle.std.specs.Prelude.{◌≡◌, true, ◌&&◌, [], ℕ, ◌+◌, ◌*◌, ◌≤◌, ◌<◌, eqb, length};
ghost use Rattle.closed_meshes.specs.Renumbering.{sum_to};
ghost use Rattle.tables.specs.Layout.{point_width, edge_width};
ghost use Rattle.tables.specs.Mesh.{valence};
ghost use Rattle.tables.specs.Parts.{face_tables, point_tables};
ghost use Rattle.audited_meshes.specs.Folds.{every};
ghost use Rattle.audited_meshes.specs.Quick.{one_edge};
ghost use Rattle.audit_tests.specs.Parts.{walk_fits};
ghost use Rattle.few_edges.specs.Rounds.{Ends, RoundApart, Good};
ghost use Rattle.sole_edges.specs.Sole.{few, ends_window, second, unseen, edge_noted, RoundIn, GoodIn, RoundsFrom, GoodFrom};

use few_edges::few_sole;
use tables::{POINT_WIDTH, START_WORD, index};
use walks::{point_step, touches};

// A point with more edges than this has many.
const FEW: usize = 32;

// How many points one walk looks at.
const WINDOW: usize = 32768;

// Whether edge s is below ne, another than i, and joins the points p and q.
fn is_second(edges: &[u32], ne: usize, p: usize, q: usize, i: usize, s: usize) -> bool
    requires { ne * edge_width ≤ length edges.now }
    ensures { result ≡ second (face_tables edges.now []) ne p q i s }
{
    if ne <= s {
        return false;
    }
    if s == i {
        return false;
    }
    if !touches(edges, p, s) {
        return false;
    }
    touches(edges, q, s)
}

// Notes edge i from p at its other end q, and says whether no second edge was noted there; a point out of the window from base
// on is passed over.
fn note(edges: &[u32], seen: &mut [u32], ne: usize, base: usize, p: usize, q: usize, i: u32) -> bool
    requires edge_width_in_bounds { ne * edge_width ≤ length edges.now }
    requires ends_window_in_bounds { ends_window ≤ length seen.old }
    ensures value { result ≡ unseen (face_tables edges.now []) ne base p seen.old q i }
    ensures seen_after { seen.new ≡ edge_noted base seen.old q i }
{
    if q < base {
        return true;
    }
    let k = q - base;
    if WINDOW <= k {
        return true;
    }
    let was = seen[k];
    seen[k] = i;
    !is_second(edges, ne, p, q, index(i), index(was))
}

// Whether the walk about point p is at its start again after its valence, and not before, and each of its edges to a point of the window
// from base on is the only one between its two points.
fn is_sole_in(
    points: &[u32],
    edges: &[u32],
    seen: &mut [u32],
    np: usize,
    ne: usize,
    p: usize,
    base: usize,
) -> bool
    requires point_width_in_bounds { p * point_width + point_width ≤ length points.now }
    requires edge_width_in_bounds { ne * edge_width ≤ length edges.now }
    requires ends_window_in_bounds { ends_window ≤ length seen.old }
    requires ends { Ends (face_tables edges.now []) np ne }
    requires p_nonzero { 0 < valence (point_tables points.now []) p }
    ensures round_in { result ≡ true → RoundIn (point_tables points.now edges.now) ne p base }
    ensures value { GoodIn (point_tables points.now edges.now) ne p base → result ≡ true }
{
    let k = index(points[p * POINT_WIDTH]);
    let start = points[p * POINT_WIDTH + START_WORD];
    let mut i = start;
    for n in 0..k {
        let Some(step) = point_step(edges, ne, p, index(i)) else {
            return false;
        };
        if !note(edges, seen, ne, base, p, index(step.point), i) {
            return false;
        }
        if step.next == start {
            return n + 1 == k;
        }
        i = step.next;
    }
    false
}

// The same of all its edges.
fn is_sole(points: &[u32], edges: &[u32], seen: &mut [u32], np: usize, ne: usize, p: usize) -> bool
    requires point_width_in_bounds { np * point_width ≤ length points.now }
    requires p_lt_np { p < np }
    requires edge_width_in_bounds { ne * edge_width ≤ length edges.now }
    requires ends_window_in_bounds { ends_window ≤ length seen.old }
    requires ends { Ends (face_tables edges.now []) np ne }
    requires p_nonzero { 0 < valence (point_tables points.now []) p }
    ensures round_apart { result ≡ true → RoundApart (point_tables points.now edges.now) ne p }
    ensures value { Good (point_tables points.now edges.now) ne p → result ≡ true }
{
    let passes = np / WINDOW + 1;
    for k in 0..passes {
        if !is_sole_in(points, edges, seen, np, ne, p, k * WINDOW) {
            return false;
        }
    }
    true
}

// The same, be the edges few or many.
fn point_sole(
    points: &[u32],
    edges: &[u32],
    seen: &mut [u32],
    np: usize,
    ne: usize,
    p: usize,
) -> bool
    requires point_width_in_bounds { np * point_width ≤ length points.now }
    requires p_lt_np { p < np }
    requires edge_width_in_bounds { ne * edge_width ≤ length edges.now }
    requires ends_window_in_bounds { ends_window ≤ length seen.old }
    requires ends { Ends (face_tables edges.now []) np ne }
    ensures round_apart { result ≡ true → RoundApart (point_tables points.now edges.now) ne p }
    ensures value { Good (point_tables points.now edges.now) ne p → result ≡ true }
{
    if index(points[p * POINT_WIDTH]) <= FEW {
        return few_sole(points, edges, seen, np, ne, p);
    }
    is_sole(points, edges, seen, np, ne, p)
}

// The same of all points from the given one on, by a lent table.
fn sole_by_table(
    points: &[u32],
    edges: &[u32],
    seen: &mut [u32],
    np: usize,
    ne: usize,
    from: usize,
) -> bool
    requires point_width_in_bounds { np * point_width ≤ length points.now }
    requires edge_width_in_bounds { ne * edge_width ≤ length edges.now }
    requires ends_window_in_bounds { ends_window ≤ length seen.old }
    requires from_le_np { from ≤ np }
    requires ends { Ends (face_tables edges.now []) np ne }
    ensures rounds_from { result ≡ true → RoundsFrom (point_tables points.now edges.now) np ne from }
    ensures value { GoodFrom (point_tables points.now edges.now) np ne from → result ≡ true }
{
    for p in from..np {
        if !point_sole(points, edges, seen, np, ne, p) {
            return false;
        }
    }
    true
}

// The same by a table of its own.
fn sole_from(points: &[u32], edges: &[u32], np: usize, ne: usize, from: usize) -> bool
    requires point_width_in_bounds { np * point_width ≤ length points.now }
    requires edge_width_in_bounds { ne * edge_width ≤ length edges.now }
    requires from_le_np { from ≤ np }
    requires ends { Ends (face_tables edges.now []) np ne }
    ensures rounds_from { result ≡ true → RoundsFrom (point_tables points.now edges.now) np ne from }
    ensures value { GoodFrom (point_tables points.now edges.now) np ne from → result ≡ true }
{
    let mut seen = [0u32; WINDOW];
    sole_by_table(points, edges, &mut seen, np, ne, from)
}

// The same of all points. Up to the first point with many edges there is no table but the lent places for their other ends.
fn all_sole(points: &[u32], edges: &[u32], ends: &mut [u32], np: usize, ne: usize) -> bool
    requires point_width_in_bounds { np * point_width ≤ length points.now }
    requires edge_width_in_bounds { ne * edge_width ≤ length edges.now }
    requires few_in_bounds { few ≤ length ends.old }
    requires ends { Ends (face_tables edges.now []) np ne }
    ensures rounds_from { result ≡ true → RoundsFrom (point_tables points.now edges.now) np ne 0 }
    ensures value { GoodFrom (point_tables points.now edges.now) np ne 0 → result ≡ true }
{
    for p in 0..np {
        if FEW < index(points[p * POINT_WIDTH]) {
            return sole_from(points, edges, np, ne, p);
        }
        if !few_sole(points, edges, ends, np, ne, p) {
            return false;
        }
    }
    true
}

// Whether the walk about each of the first np points comes back after its valence, and no two of the first ne edges join the same two
// points, where the valences add up to twice the edges.
pub fn walks_with_sole_edges(points: &[u32], edges: &[u32], np: usize, ne: usize) -> bool
    requires point_width_in_bounds { np * point_width ≤ length points.now }
    requires edge_width_in_bounds { ne * edge_width ≤ length edges.now }
    requires ends { Ends (face_tables edges.now []) np ne }
    requires by_index { (p : ℕ) → p < np → 2 ≤ valence (point_tables points.now []) p }
    requires ne_value { eqb (sum_to np (λ p. valence (point_tables points.now []) p)) (2 * ne) ≡ true }
    ensures { result ≡ (every np (λ p. walk_fits (point_tables points.now edges.now) ne p)
        && every ne (λ e. one_edge (point_tables points.now edges.now) ne e)) }
{
    let mut ends = [0u32; FEW];
    all_sole(points, edges, &mut ends, np, ne)
}
