// Steps of walks for the audit, which does not take them yet: one step about a face or a point, and whether a point is new among those
// that a walk has passed.
// On a mesh whose rows are in no order a processor cannot foretell on which side of an edge a face is, nor at which end a point, and a
// walk waits for each row before it knows the next. So a step takes its words by a number in place of a branch, and both links that may
// be taken are tested, and so loaded, before it is known which one is. Each point that a walk passes leaves the stamp of the walk at the
// place of its number: where another stamp stands, the point is new, and it need not be compared with those before.
// Not here: the steps by the side and by the end (`walks`), by which the audit's walks go (`audit_faces`, `few_edges`).
// Contracts: `linked_face_step`, `linked_point_step`, `is_new`. Definitions: `specs/Linked.antt`, `specs/Noted.antt`. Laws for callers:
// `proofs/Linked.antt`, `proofs/Noted.antt`.
#![tactic(auto)]

ghost use Rattle.std.specs.Prelude.{◌≡◌, cond, ◌+◌, ◌*◌, ◌≤◌, eqb, length, set};
ghost use Rattle.tables.specs.Layout.{edge_width};
ghost use Rattle.audit_steps.specs.Linked.{linked_face_step, linked_point_step};
ghost use Rattle.audit_steps.specs.Noted.{new_among, stamp_places, stamp_place, Stamped};

use audit_tests::points::is_new_among;
use tables::{
    DEST_WORD, EDGE_WIDTH, LEFT_ACW_WORD, LEFT_CW_WORD, LEFT_FACE_WORD, RIGHT_ACW_WORD,
    RIGHT_CW_WORD, index,
};
use walks::{Step, end_number};

// How many places there are for stamps.
pub const STAMPS: usize = 512;

// The first of two words where the number is 0, else the second.
fn chosen(s: usize, first: u32, second: u32) -> u32
    ensures { result ≡ cond (eqb s 0) first second }
{
    if s == 0 {
        return first;
    }
    second
}

// One step about face f from edge e, whose links anticlockwise about both its faces must be below ne; none where the walk is lost.
pub fn linked_face_step(edges: &[u32], ne: usize, f: usize, e: usize) -> Option<Step>
    requires { e * edge_width + edge_width ≤ length edges.now }
    ensures { result ≡ linked_face_step edges.now ne f e }
{
    let b = e * EDGE_WIDTH;
    let s = end_number(index(edges[b + LEFT_FACE_WORD]), f);
    if index(edges[b + LEFT_FACE_WORD + s]) != f {
        return None;
    }
    let left = edges[b + LEFT_ACW_WORD];
    let right = edges[b + RIGHT_ACW_WORD];
    if ne <= index(left) {
        return None;
    }
    if ne <= index(right) {
        return None;
    }
    Some(Step {
        point: edges[b + s],
        next: chosen(s, left, right),
    })
}

// One step about point p from edge e, whose links anticlockwise about both its ends must be below ne; none where the walk is lost.
pub fn linked_point_step(edges: &[u32], ne: usize, p: usize, e: usize) -> Option<Step>
    requires { e * edge_width + edge_width ≤ length edges.now }
    ensures { result ≡ linked_point_step edges.now ne p e }
{
    let b = e * EDGE_WIDTH;
    let origin = edges[b];
    let dest = edges[b + DEST_WORD];
    let s = end_number(index(origin), p);
    if index(chosen(s, origin, dest)) != p {
        return None;
    }
    let first = edges[b + LEFT_CW_WORD];
    let second = edges[b + RIGHT_CW_WORD];
    if ne <= index(first) {
        return None;
    }
    if ne <= index(second) {
        return None;
    }
    Some(Step {
        point: chosen(s, dest, origin),
        next: chosen(s, first, second),
    })
}

// Whether q stands at none of the first n places of points, which have left the stamp of the walk, as q has then. What other walks left
// does no harm: a point that finds the stamp is compared with those before.
pub fn is_new(points: &[u32], n: usize, q: u32, stamps: &mut [usize], stamp: usize) -> bool
    requires n_in_bounds { n ≤ length points.now }
    requires stamp_places_in_bounds { stamp_places ≤ length stamps.old }
    requires stamped { Stamped stamps.old stamp points.now n }
    ensures value { result ≡ new_among points.now n q }
    ensures stamps_after { stamps.new ≡ set stamps.old (stamp_place q) stamp }
{
    let b = index(q) % STAMPS;
    let was = stamps[b];
    stamps[b] = stamp;
    if was == stamp {
        return is_new_among(points, n, q);
    }
    true
}
