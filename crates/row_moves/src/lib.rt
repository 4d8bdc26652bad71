// The rows that a mesh with given counts takes in five tables, moved over those of other tables: where they stood they are made zero.
// Not here: whether there is room for them, and rows made zero alone (`counted_rows`).
// Contract: `move_rows`. Definitions: `tables`, specs/Counted.antt.
#![tactic(auto)]

ghost use Rattle.std.specs.Prelude.{◌≡◌, ◌*◌, ◌≤◌, ◌<◌, length};
ghost use Rattle.tables.specs.Layout.{position_width, point_width, edge_width, face_width};
ghost use Rattle.tables.specs.Mesh.{Mesh, mesh_of};
ghost use Rattle.tables.specs.Rows.{over, zeroed};
ghost use Rattle.tables.specs.Counted.{over_rows, zeroed_rows};

use tables::{Counts, EDGE_WIDTH, FACE_WIDTH, POINT_WIDTH, POSITION_WIDTH, copy_first, fill_first};

// How many elements are moved at a time.
const BLOCK: usize = 256;

// Where the block from i on ends.
fn block_end(i: usize, n: usize) -> usize
    requires { i < n }
    ensures lower_bound { i < result }
    ensures upper_bound { result ≤ n }
{
    if n - i <= BLOCK {
        return n;
    }
    i + BLOCK
}

// Moves the first n elements and leaves zeros, a block at a time: what is copied is still at hand when it is made zero, and both are done
// to many at once.
fn move_first<T: Copy>(new: &mut [T], elements: &mut [T], n: usize, zero: T)
    requires n_in_bounds { n ≤ length new.old }
    requires n_in_bounds_2 { n ≤ length elements.old }
    ensures elements_after { elements.new ≡ over n new.old elements.old }
    ensures after { new.new ≡ zeroed n zero new.old }
{
    let mut i = 0;
    while i < n {
        let end = block_end(i, n);
        copy_first(&new[i..end], &mut elements[i..end], end - i);
        fill_first(&mut new[i..end], end - i, zero);
        i = end;
    }
}

// Moves the rows of a mesh with these counts over the tables.
pub fn move_rows(
    c: Counts,
    newpositions: &mut [f64],
    newpoints: &mut [u32],
    newedges: &mut [u32],
    newintervals: &mut [f64],
    newfaces: &mut [u32],
    positions: &mut [f64],
    points: &mut [u32],
    edges: &mut [u32],
    intervals: &mut [f64],
    faces: &mut [u32],
)
    requires position_width_in_bounds { c.points * position_width ≤ length newpositions.old }
    requires point_width_in_bounds { c.points * point_width ≤ length newpoints.old }
    requires edge_width_in_bounds { c.edges * edge_width ≤ length newedges.old }
    requires edges_in_bounds { c.edges ≤ length newintervals.old }
    requires face_width_in_bounds { c.faces * face_width ≤ length newfaces.old }
    requires position_width_in_bounds_2 { c.points * position_width ≤ length positions.old }
    requires point_width_in_bounds_2 { c.points * point_width ≤ length points.old }
    requires edge_width_in_bounds_2 { c.edges * edge_width ≤ length edges.old }
    requires edges_in_bounds_2 { c.edges ≤ length intervals.old }
    requires face_width_in_bounds_2 { c.faces * face_width ≤ length faces.old }
    ensures fact { ◌≡◌ {A = Mesh}
        (mesh_of positions.new points.new edges.new intervals.new faces.new)
        (over_rows c
        (mesh_of newpositions.old newpoints.old newedges.old newintervals.old newfaces.old)
        (mesh_of positions.old points.old edges.old intervals.old faces.old)) }
    ensures fact_2 { ◌≡◌ {A = Mesh}
        (mesh_of newpositions.new newpoints.new newedges.new newintervals.new newfaces.new)
        (zeroed_rows c
        (mesh_of newpositions.old newpoints.old newedges.old newintervals.old newfaces.old)) }
{
    move_first(newpositions, positions, c.points * POSITION_WIDTH, 0.0);
    move_first(newpoints, points, c.points * POINT_WIDTH, 0);
    move_first(newedges, edges, c.edges * EDGE_WIDTH, 0);
    move_first(newintervals, intervals, c.edges, 0.0);
    move_first(newfaces, faces, c.faces * FACE_WIDTH, 0);
}
