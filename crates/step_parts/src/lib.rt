// The refined mesh made by a step that has passed its tests: of the rows that the counts count, in the first rows of scratch.
// Not here: how it is made (`making`), the step put together (`finishing`), the tests (`step_grounds`).
// Contract: `make_in_rows`. Definitions: `steps`, specs/Step.antt; `specs/Passed.antt`.
#![tactic(auto)]

ghost use Rattle.std.specs.Prelude.{◌≡◌};
ghost use Rattle.tables.specs.Mesh.{mesh_of};
ghost use Rattle.tables.specs.Counted.{first_rows, zeroed_rows};
ghost use Rattle.steps.specs.Step.{made};
ghost use Rattle.making.specs.Making.{made_as};
ghost use Rattle.step_parts.specs.Passed.{TestsPassed};

use making::make;
use refined_meshes::Edition;
use tables::{Counts, EDGE_WIDTH, FACE_WIDTH, POINT_WIDTH};

// Makes the refined mesh, of the counts c, and says whether all its positions are finite. It looks at no rows that the counts do not
// count, and does not touch further rows of scratch.
pub fn make_in_rows(
    positions: &[f64],
    points: &[u32],
    edges: &[u32],
    intervals: &[f64],
    faces: &[u32],
    counts: Counts,
    order: &[u32],
    c: Counts,
    newpositions: &mut [f64],
    newpoints: &mut [u32],
    newedges: &mut [u32],
    newintervals: &mut [f64],
    newfaces: &mut [u32],
    edition: Edition,
) -> bool
    requires { TestsPassed edition (mesh_of positions.now points.now edges.now intervals.now faces.now) counts order.now
        (mesh_of newpositions.old newpoints.old newedges.old newintervals.old newfaces.old) c }
    ensures newfaces_value { made edition
        (first_rows counts (mesh_of positions.now points.now edges.now intervals.now faces.now))
        counts
        order.now
        (first_rows c (mesh_of newpositions.old newpoints.old newedges.old newintervals.old newfaces.old))
        ≡ made_as result (first_rows c (mesh_of newpositions.new newpoints.new newedges.new newintervals.new newfaces.new)) }
    ensures newfaces_unchanged { zeroed_rows c (mesh_of newpositions.new newpoints.new newedges.new newintervals.new newfaces.new)
        ≡ zeroed_rows c (mesh_of newpositions.old newpoints.old newedges.old newintervals.old newfaces.old) }
{
    let p = counts.points * POINT_WIDTH;
    let e = counts.edges * EDGE_WIDTH;
    let i = counts.edges;
    let f = counts.faces * FACE_WIDTH;
    let newp = c.points * POINT_WIDTH;
    let newe = c.edges * EDGE_WIDTH;
    let newi = c.edges;
    let newf = c.faces * FACE_WIDTH;
    make(
        &positions[..p],
        &points[..p],
        &edges[..e],
        &intervals[..i],
        &faces[..f],
        counts,
        order,
        &mut newpositions[..newp],
        &mut newpoints[..newp],
        &mut newedges[..newe],
        &mut newintervals[..newi],
        &mut newfaces[..newf],
        edition,
    )
}
