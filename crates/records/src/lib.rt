// The rows of the tables of a mesh, loaded and stored as records by value.
// Not here: rows counted, and the first elements of a table filled and copied (`tables`).
// Definitions: `specs/Rows.antt` and `specs/Records.antt` of `tables`, with their laws in its `proofs/Laws.antt`.
#![tactic(auto)]

ghost use Rattle.std.specs.Prelude.{◌≡◌, ◌+◌, ◌*◌, ◌≤◌, ◌<◌, length, set};
ghost use Rattle.tables.specs.Layout.{position_width, point_width, edge_width, face_width};
ghost use Rattle.tables.specs.Rows.{put_row};
ghost use Rattle.tables.specs.Loaded.{place_of, point_at, edge_words_at};
ghost use Rattle.tables.specs.Records.{edge_words, face_words, position_at, edge_at};

use positions::Position;
use t_spline::{TnurccControlPoint, TnurccEdge, TnurccFace};
use tables::{
    DEST_WORD, EDGE_WIDTH, FACE_WIDTH, FIRST_CORNER_WORD, FOURTH_CORNER_WORD, LEFT_ACW_WORD,
    LEFT_CW_WORD, LEFT_FACE_WORD, MARK_WORD, POINT_WIDTH, POSITION_WIDTH, RIGHT_ACW_WORD,
    RIGHT_CW_WORD, RIGHT_FACE_WORD, SECOND_CORNER_WORD, START_WORD, THIRD_CORNER_WORD, Y_NUMBER,
    Z_NUMBER,
};

pub fn load_position(positions: &[f64], p: usize) -> Position
    requires { p * position_width + position_width ≤ length positions.now }
    ensures { result ≡ position_at positions.now p }
{
    let b = p * POSITION_WIDTH;
    Position {
        x: positions[b],
        y: positions[b + Y_NUMBER],
        z: positions[b + Z_NUMBER],
    }
}

pub fn store_position(positions: &mut [f64], p: usize, place: Position)
    requires { p * position_width + position_width ≤ length positions.old }
    ensures { positions.new ≡ put_row positions.old (p * position_width) (place_of place) }
{
    let b = p * POSITION_WIDTH;
    positions[b] = place.x;
    positions[b + Y_NUMBER] = place.y;
    positions[b + Z_NUMBER] = place.z;
}

// Loads all of an edge but its interval, which is 0 here, for what looks at its ends, sides and neighbours alone.
pub fn load_edge_words(edges: &[u32], e: usize) -> TnurccEdge
    requires { e * edge_width + edge_width ≤ length edges.now }
    ensures { result ≡ edge_words_at edges.now e }
{
    let b = e * EDGE_WIDTH;
    TnurccEdge {
        connections: [
            edges[b + LEFT_CW_WORD],
            edges[b + LEFT_ACW_WORD],
            edges[b + RIGHT_CW_WORD],
            edges[b + RIGHT_ACW_WORD],
        ],
        face_left: edges[b + LEFT_FACE_WORD],
        face_right: edges[b + RIGHT_FACE_WORD],
        origin: edges[b],
        dest: edges[b + DEST_WORD],
        knot_interval: 0.0,
    }
}

pub fn load_edge(edges: &[u32], intervals: &[f64], e: usize) -> TnurccEdge
    requires edge_width_in_bounds { e * edge_width + edge_width ≤ length edges.now }
    requires e_in_bounds { e < length intervals.now }
    ensures { result ≡ edge_at edges.now intervals.now e }
{
    let mut edge = load_edge_words(edges, e);
    edge.knot_interval = intervals[e];
    edge
}

// Stores all of an edge but its interval.
pub fn store_edge_words(edges: &mut [u32], e: usize, edge: TnurccEdge)
    requires { e * edge_width + edge_width ≤ length edges.old }
    ensures { edges.new ≡ put_row edges.old (e * edge_width) (edge_words edge) }
{
    let b = e * EDGE_WIDTH;
    edges[b] = edge.origin;
    edges[b + DEST_WORD] = edge.dest;
    edges[b + LEFT_FACE_WORD] = edge.face_left;
    edges[b + RIGHT_FACE_WORD] = edge.face_right;
    edges[b + LEFT_CW_WORD] = edge.connections[0];
    edges[b + LEFT_ACW_WORD] = edge.connections[1];
    edges[b + RIGHT_CW_WORD] = edge.connections[2];
    edges[b + RIGHT_ACW_WORD] = edge.connections[3];
}

pub fn store_edge(edges: &mut [u32], intervals: &mut [f64], e: usize, edge: TnurccEdge)
    requires edge_width_in_bounds { e * edge_width + edge_width ≤ length edges.old }
    requires e_in_bounds { e < length intervals.old }
    ensures edges_after { edges.new ≡ put_row edges.old (e * edge_width) (edge_words edge) }
    ensures intervals_after { intervals.new ≡ set intervals.old e edge.knot_interval }
{
    store_edge_words(edges, e, edge);
    intervals[e] = edge.knot_interval;
}

pub fn load_point(positions: &[f64], points: &[u32], p: usize) -> TnurccControlPoint
    requires position_width_in_bounds { p * position_width + position_width ≤ length positions.now }
    requires point_width_in_bounds { p * point_width + point_width ≤ length points.now }
    ensures { result ≡ point_at positions.now points.now p }
{
    let b = p * POINT_WIDTH;
    TnurccControlPoint {
        point: load_position(positions, p),
        valence: points[b],
        incoming_edge: points[b + START_WORD],
        extraordinary: points[b + MARK_WORD],
    }
}

pub fn store_face(faces: &mut [u32], f: usize, face: TnurccFace)
    requires { f * face_width + face_width ≤ length faces.old }
    ensures { faces.new ≡ put_row faces.old (f * face_width) (face_words face) }
{
    let b = f * FACE_WIDTH;
    faces[b] = face.edge;
    faces[b + FIRST_CORNER_WORD] = face.corners[0];
    faces[b + SECOND_CORNER_WORD] = face.corners[1];
    faces[b + THIRD_CORNER_WORD] = face.corners[2];
    faces[b + FOURTH_CORNER_WORD] = face.corners[3];
}
