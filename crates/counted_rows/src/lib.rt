// The rows that a mesh with given counts takes in five tables: whether they are there, and made zero.
// Not here: the rows moved over those of other tables (`row_moves`).
// Contracts: `rows_for`, `zero_rows`. Definitions: `tables`, specs/Counted.antt.
#![tactic(auto)]

ghost use Rattle.std.specs.Prelude.{◌≡◌, ◌*◌, ◌≤◌, length};
ghost use Rattle.tables.specs.Layout.{position_width, point_width, edge_width, face_width};
ghost use Rattle.tables.specs.Mesh.{Mesh, mesh_of};
ghost use Rattle.tables.specs.Lent.{tables_of};
ghost use Rattle.tables.specs.Counted.{rows_for, zeroed_rows};

use tables::{
    Counts, EDGE_WIDTH, FACE_WIDTH, MeshTables, POINT_WIDTH, POSITION_WIDTH, edge_rows, face_rows,
    fill_first, point_rows,
};

// Whether the tables have the rows of a mesh with these counts.
pub fn rows_for(c: Counts, t: &MeshTables) -> bool
    ensures { result ≡ rows_for c (tables_of t.now) }
{
    if point_rows(t.positions, t.points) < c.points {
        return false;
    }
    if edge_rows(t.edges, t.intervals) < c.edges {
        return false;
    }
    c.faces <= face_rows(t.faces)
}

// Zeroes the rows of a mesh with these counts.
pub fn zero_rows(
    c: Counts,
    positions: &mut [f64],
    points: &mut [u32],
    edges: &mut [u32],
    intervals: &mut [f64],
    faces: &mut [u32],
)
    requires position_width_in_bounds { c.points * position_width ≤ length positions.old }
    requires point_width_in_bounds { c.points * point_width ≤ length points.old }
    requires edge_width_in_bounds { c.edges * edge_width ≤ length edges.old }
    requires edges_in_bounds { c.edges ≤ length intervals.old }
    requires face_width_in_bounds { c.faces * face_width ≤ length faces.old }
    ensures { ◌≡◌ {A = Mesh}
        (mesh_of positions.new points.new edges.new intervals.new faces.new)
        (zeroed_rows c
        (mesh_of positions.old points.old edges.old intervals.old faces.old)) }
{
    fill_first(positions, c.points * POSITION_WIDTH, 0.0);
    fill_first(points, c.points * POINT_WIDTH, 0);
    fill_first(edges, c.edges * EDGE_WIDTH, 0);
    fill_first(intervals, c.edges, 0.0);
    fill_first(faces, c.faces * FACE_WIDTH, 0);
}
