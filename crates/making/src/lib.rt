// The refined mesh made whole in the scratch tables: its rows by the visits of the faces, then what its edition settles, then its
// positions. Each edition has its own function, so that the loops stand in functions of their own, which both call: in one function with
// all of them a step takes a tenth longer.
// Names: `newpositions`, `newpoints`, `newedges`, `newintervals` and `newfaces` are the scratch tables of positions, points, edges, intervals, faces.
// Not here: the rows of which it is made and in which (`step_parts`), whether a step may be made (`step_grounds`).
// Definitions: `steps`, specs/Step.antt, `made`; what must hold: specs/Making.antt.
#![tactic(auto)]

ghost use Rattle.std.specs.Prelude.{◌≡◌};
ghost use Rattle.refined_meshes.specs.declared.Edition.TheVariants.{First, Second};
ghost use Rattle.steps.specs.Step.{made};
ghost use Rattle.tables.specs.Mesh.{mesh_of};
ghost use Rattle.making.specs.Making.{Ready, made_as};

use edition_points::{place_first, place_second};
use refined_meshes::Edition;
use settling::settle_joins;
use settling_starts::settle_starts;
use tables::Counts;
use visiting::refined_rows;

// Makes the refined mesh of the first edition of the mesh with these counts, visiting its faces in the order, and says whether all its
// positions are finite.
fn make_first(
    positions: &[f64],
    points: &[u32],
    edges: &[u32],
    intervals: &[f64],
    faces: &[u32],
    counts: Counts,
    order: &[u32],
    newpositions: &mut [f64],
    newpoints: &mut [u32],
    newedges: &mut [u32],
    newintervals: &mut [f64],
    newfaces: &mut [u32],
) -> bool
    requires { Ready (mesh_of positions.now points.now edges.now intervals.now faces.now) counts order.now
        (mesh_of newpositions.old newpoints.old newedges.old newintervals.old newfaces.old) }
    ensures { made First
        (mesh_of positions.now points.now edges.now intervals.now faces.now)
        counts
        order.now
        (mesh_of newpositions.old newpoints.old newedges.old newintervals.old newfaces.old)
        ≡ made_as result (mesh_of newpositions.new newpoints.new newedges.new newintervals.new newfaces.new) }
{
    refined_rows(
        points,
        edges,
        intervals,
        faces,
        newpoints,
        newedges,
        newintervals,
        newfaces,
        counts,
        order,
    );
    place_first(
        positions,
        points,
        edges,
        intervals,
        faces,
        counts,
        newedges,
        newfaces,
        newpositions,
    )
}

// Makes that of the second edition.
fn make_second(
    positions: &[f64],
    points: &[u32],
    edges: &[u32],
    intervals: &[f64],
    faces: &[u32],
    counts: Counts,
    order: &[u32],
    newpositions: &mut [f64],
    newpoints: &mut [u32],
    newedges: &mut [u32],
    newintervals: &mut [f64],
    newfaces: &mut [u32],
) -> bool
    requires { Ready (mesh_of positions.now points.now edges.now intervals.now faces.now) counts order.now
        (mesh_of newpositions.old newpoints.old newedges.old newintervals.old newfaces.old) }
    ensures { made Second
        (mesh_of positions.now points.now edges.now intervals.now faces.now)
        counts
        order.now
        (mesh_of newpositions.old newpoints.old newedges.old newintervals.old newfaces.old)
        ≡ made_as result (mesh_of newpositions.new newpoints.new newedges.new newintervals.new newfaces.new) }
{
    refined_rows(
        points,
        edges,
        intervals,
        faces,
        newpoints,
        newedges,
        newintervals,
        newfaces,
        counts,
        order,
    );
    settle_joins(edges, intervals, counts.edges, newedges, newintervals);
    settle_starts(points, edges, faces, counts, newedges, newfaces, newpoints);
    place_second(
        positions,
        points,
        edges,
        intervals,
        faces,
        counts,
        newedges,
        newfaces,
        newpositions,
    )
}

// Makes the refined mesh of an edition.
pub fn make(
    positions: &[f64],
    points: &[u32],
    edges: &[u32],
    intervals: &[f64],
    faces: &[u32],
    counts: Counts,
    order: &[u32],
    newpositions: &mut [f64],
    newpoints: &mut [u32],
    newedges: &mut [u32],
    newintervals: &mut [f64],
    newfaces: &mut [u32],
    edition: Edition,
) -> bool
    requires { Ready (mesh_of positions.now points.now edges.now intervals.now faces.now) counts order.now
        (mesh_of newpositions.old newpoints.old newedges.old newintervals.old newfaces.old) }
    ensures { made edition
        (mesh_of positions.now points.now edges.now intervals.now faces.now)
        counts
        order.now
        (mesh_of newpositions.old newpoints.old newedges.old newintervals.old newfaces.old)
        ≡ made_as result (mesh_of newpositions.new newpoints.new newedges.new newintervals.new newfaces.new) }
{
    match edition {
        Edition::First => make_first(
            positions,
            points,
            edges,
            intervals,
            faces,
            counts,
            order,
            newpositions,
            newpoints,
            newedges,
            newintervals,
            newfaces,
        ),
        Edition::Second => make_second(
            positions,
            points,
            edges,
            intervals,
            faces,
            counts,
            order,
            newpositions,
            newpoints,
            newedges,
            newintervals,
            newfaces,
        ),
    }
}
