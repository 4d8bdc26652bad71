// The records and enums of a T-NURCC, by value, with the methods of its edges.
// Carries over t_spline/mod.rs (only its T-NURCC items) and the part of t_nurcc_edge/mod.rs that looks at no other row.
// Not here: the connections, ends and sides themselves (`edge_ends`), rows in tables (`tables`, `records`), connecting (`edge_links`, in
// tables `t_nurcc_edge`).
// Contracts cite `specs/Edge.antt` and `specs/Ends.antt`.
#![tactic(auto)]

use positions::Position;

pub mod t_nurcc_edge;

// A control point: its place, its number of edges, its start edge, and 1 if it was extraordinary at building.
#[derive(Clone, Copy)]
pub struct TnurccControlPoint {
    pub point: Position,
    pub valence: u32,
    pub incoming_edge: u32,
    pub extraordinary: u32,
}

// A face: its start edge and its four corners, each a point or `NONE`.
#[derive(Clone, Copy)]
pub struct TnurccFace {
    pub edge: u32,
    pub corners: [u32; 4],
}

// An edge: its four neighbours, its faces, its ends and its interval.
#[derive(Clone, Copy)]
pub struct TnurccEdge {
    pub connections: [u32; 4],
    pub face_left: u32,
    pub face_right: u32,
    pub origin: u32,
    pub dest: u32,
    pub knot_interval: f64,
}
