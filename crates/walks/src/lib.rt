// Walks about the faces and points of a mesh in tables of any content: definitions, laws, and the steps of which walks are made.
// Carries over the steps of t_nurcc_iter.rs. A walk that leaves the rows, loses its face or point, or does not meet its start within its
// bound is lost, and says so.
// Not here: the walks themselves (`t_nurcc_iter`), borders (`t_nurcc_face`), the edges about a point (`t_nurcc_control_point`), whether the
// mesh is closed (`audit`).
// Definitions: `specs/Steps.antt`, `specs/Border.antt`, `specs/Neighbour.antt`, `specs/Places.antt`. Claims: `specs/Claims.antt`, proved in
// `proofs/Claims.antt`. Laws for callers: `proofs/Laws.antt`; `proofs/Border.antt` for borders laid into arrays; `proofs/Places.antt` for
// words that are found by a number.
#![tactic(auto)]

ghost use Rattle.std.specs.Prelude.{◌≡◌, [], ◌+◌, ◌*◌, ◌≤◌, length};
ghost use Rattle.tables.specs.Layout.{edge_width};
ghost use Rattle.tables.specs.Parts.{face_tables};
ghost use Rattle.audited_meshes.specs.Walks.{touches, acw_of_point};
ghost use Rattle.walks.specs.Places.{end_number};
ghost use Rattle.walks.specs.Steps.{face_step, point_step};

use edge_ends::TnurccVertexEnd;
use records::load_edge_words;
use tables::{EDGE_WIDTH, LONGEST_BORDER, LONGEST_PERIMETER, index};

// The neighbours of an edge on one side.
pub const SIDE_WIDTH: usize = 2;

// One step of a walk: the next edge, and a point of the edge that it leaves (about a face, the point at which the walk came to
// that edge; about a point, its other end).
#[derive(Clone, Copy)]
pub struct Step {
    pub point: u32,
    pub next: u32,
}

// The border of a face: the number of edges that the walk passed, if it is not lost; the edges, and the points at which the walk
// comes to each of them, followed by the first four again. The rest of the arrays is 0.
#[derive(Clone, Copy)]
pub struct FaceBorder {
    pub passed: Option<usize>,
    pub edges: [u32; LONGEST_PERIMETER],
    pub points: [u32; LONGEST_BORDER],
}

// The number of the end of an edge, or of its side, that has the row n: 0 if the first has it, else 1.
pub fn end_number(first: usize, n: usize) -> usize
    ensures value { result ≡ end_number first n }
    ensures upper_bound { result ≤ 1 }
{
    if first == n {
        return 0;
    }
    1
}

// One step about face f from edge e, among the edges below ne; none where the walk is lost.
pub fn face_step(edges: &[u32], ne: usize, f: usize, e: usize) -> Option<Step>
    requires { ne * edge_width ≤ length edges.now }
    ensures { result ≡ face_step edges.now ne f e }
{
    if ne <= e {
        return None;
    }
    let edge = load_edge_words(edges, e);
    let side = edge.face_side(f)?;
    Some(Step {
        point: edge.point_at_end(side.first_end()),
        next: edge.acw_edge_from_side(side),
    })
}

// One step about point p from edge e, among the edges below ne; none where the walk is lost. It asks of ends what `face_step` asks of sides
// (`t_spline` has the methods of both).
pub fn point_step(edges: &[u32], ne: usize, p: usize, e: usize) -> Option<Step>
    requires { ne * edge_width ≤ length edges.now }
    ensures { result ≡ point_step edges.now ne p e }
{
    if ne <= e {
        return None;
    }
    let edge = load_edge_words(edges, e);
    let end = edge.point_end(p)?;
    Some(Step {
        point: edge.point_at_end(end.other()),
        next: edge.acw_edge_from_end(end),
    })
}

// The next edge anticlockwise about point p from edge e, which touches it.
pub fn acw_of_point(edges: &[u32], p: usize, e: usize) -> u32
    requires { e * edge_width + edge_width ≤ length edges.now }
    ensures { result ≡ acw_of_point (face_tables edges.now []) p e }
{
    let edge = load_edge_words(edges, e);
    if index(edge.origin) == p {
        return edge.acw_edge_from_end(TnurccVertexEnd::Origin);
    }
    edge.acw_edge_from_end(TnurccVertexEnd::Dest)
}

// Whether point p is an end of edge e.
pub fn touches(edges: &[u32], p: usize, e: usize) -> bool
    requires { e * edge_width + edge_width ≤ length edges.now }
    ensures { result ≡ touches (face_tables edges.now []) p e }
{
    let b = e * EDGE_WIDTH;
    let s = end_number(index(edges[b]), p);
    index(edges[b + s]) == p
}
