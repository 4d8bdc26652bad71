// The new points, where they stand in the tables of the refined mesh: `newpositions` is its table of positions, `newedges` its table of
// edges, in which row e is the origin half of edge e, and `newfaces` its table of faces, in which row f is the first new face of f.
ghost use Rattle.std.specs.Prelude.{◌≡◌, ◌+◌, ◌*◌, ◌≤◌, get_or, length};
ghost use Rattle.tables.specs.Layout.{position_width, edge_width, dest_word, face_width, first_corner_word};
ghost use Rattle.position_rules.specs.Places.{edge_point_at, face_point_at};

use positions::Position;
use records::load_position;
use tables::{DEST_WORD, EDGE_WIDTH, FACE_WIDTH, FIRST_CORNER_WORD, index};

// The edge point of edge e.
pub fn load_edge_point(newpositions: &[f64], newedges: &[u32], e: usize) -> Position
    requires edge_width_in_bounds { e * edge_width + edge_width ≤ length newedges.now }
    requires position_width_in_bounds { get_or newedges.now (e * edge_width + dest_word) 0 * position_width + position_width ≤ length newpositions.now }
    ensures { result ≡ edge_point_at newpositions.now newedges.now e }
{
    load_position(newpositions, index(newedges[e * EDGE_WIDTH + DEST_WORD]))
}

// The face point of face f.
pub fn load_face_point(newpositions: &[f64], newfaces: &[u32], f: usize) -> Position
    requires face_width_in_bounds { f * face_width + face_width ≤ length newfaces.now }
    requires position_width_in_bounds { get_or newfaces.now (f * face_width + first_corner_word) 0 * position_width + position_width ≤ length newpositions.now }
    ensures { result ≡ face_point_at newpositions.now newfaces.now f }
{
    load_position(
        newpositions,
        index(newfaces[f * FACE_WIDTH + FIRST_CORNER_WORD]),
    )
}
