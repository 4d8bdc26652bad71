// All positions of a step put into their rows of the scratch tables, in each edition: the face points, then what weighs for the edges at
// old points, then the old points. In the first edition the edge points weigh; in the second m does, and the edge points are put over it
// at the end, each made from the m that stands in its row. The first position that is not finite ends it.
// Names: `newedges` and `newfaces` are the tables of edges and faces of the refined mesh, `newpositions` its table of positions.
// Not here: the loops over face points, edges and old points (`placing`), the rows (`visiting`).
// Contracts: `place_first`, `place_second`. Definitions: `steps`, specs/Positions.antt, `placed_all`; what is asked: specs/Over.antt.
#![tactic(auto)]

ghost use Rattle.std.specs.Prelude.{◌≡◌, List, ◌+◌, ◌*◌, get_or, Float};
ghost use Rattle.tables.specs.Layout.{edge_width, dest_word};
ghost use Rattle.tables.specs.Mesh.{mesh_of};
ghost use Rattle.refined_meshes.specs.declared.Edition.TheVariants.{First, Second};
ghost use Rattle.position_rules.specs.EdgePoint.{edge_point};
ghost use Rattle.position_rules.specs.Places.{face_point_at};
ghost use Rattle.steps.specs.Positions.{so_far, placed_by, placed_all};
ghost use Rattle.placing.specs.Placing.{came, FacePointsFit, EdgePointsFit, OldPointsFit, refined_tables};
ghost use Rattle.edition_points.specs.Over.{OverFits, MiddlesThere, MidRows, placed_three};

use edge_points::edge_point;
use placing::{place_face_points, place_old_points, place_weighted_points};
use positions::{Placed, Position};
use records::{load_position, store_position};
use refined_meshes::Edition;
use tables::{Counts, DEST_WORD, EDGE_WIDTH, index};

// Puts the face points, what weighs for the edges, and the old points into their rows, and says whether all are finite.
fn place_three(
    positions: &[f64],
    points: &[u32],
    edges: &[u32],
    intervals: &[f64],
    faces: &[u32],
    counts: Counts,
    newedges: &[u32],
    newfaces: &[u32],
    newpositions: &mut [f64],
    edition: Edition,
) -> bool
    requires face_points_fit { FacePointsFit positions.now edges.now intervals.now faces.now counts.edges counts.faces newfaces.now newpositions.old }
    requires edge_points_fit { EdgePointsFit positions.now edges.now intervals.now counts.edges newedges.now newfaces.now newpositions.old }
    requires old_points_fit { OldPointsFit positions.now points.now edges.now intervals.now counts.points newedges.now newfaces.now newpositions.old }
    ensures { placed_three edition
        (mesh_of positions.now points.now edges.now intervals.now faces.now)
        counts
        (refined_tables newedges.now newfaces.now)
        newpositions.old
        ≡ came result newpositions.new }
{
    if !place_face_points(
        positions,
        edges,
        intervals,
        faces,
        counts.edges,
        counts.faces,
        newfaces,
        newpositions,
    ) {
        return false;
    }
    if !place_weighted_points(
        positions,
        edges,
        intervals,
        counts.edges,
        newedges,
        newfaces,
        newpositions,
        edition,
    ) {
        return false;
    }
    place_old_points(
        positions,
        points,
        edges,
        intervals,
        counts.points,
        newedges,
        newfaces,
        newpositions,
    )
}

// Puts the edge points of the first ne edges over m, which stands in their rows, and says whether all are finite.
fn place_over(
    edges: &[u32],
    intervals: &[f64],
    ne: usize,
    newedges: &[u32],
    newfaces: &[u32],
    newpositions: &mut [f64],
) -> bool
    requires { OverFits edges.now intervals.now ne newedges.now newfaces.now newpositions.old }
    ensures { (ps : List Float) →
        MiddlesThere ps edges.now intervals.now ne newedges.now newpositions.old →
        placed_by ne (λ e. get_or newedges.now (e * edge_width + dest_word) 0)
        (λ e new. edge_point ps edges.now intervals.now (face_point_at new newfaces.now) e)
        (so_far newpositions.old)
        ≡ came result newpositions.new }
{
    for e in 0..ne {
        let row = index(newedges[e * EDGE_WIDTH + DEST_WORD]);
        let m = load_position(newpositions, row);
        let Placed::At(x, y, z) = edge_point(
            edges,
            intervals,
            newpositions,
            newfaces,
            e,
            m,
        ).placed() else {
            return false;
        };
        store_position(newpositions, row, Position { x, y, z });
    }
    true
}

// Puts all new positions of the first edition into their rows, and says whether all are finite.
pub fn place_first(
    positions: &[f64],
    points: &[u32],
    edges: &[u32],
    intervals: &[f64],
    faces: &[u32],
    counts: Counts,
    newedges: &[u32],
    newfaces: &[u32],
    newpositions: &mut [f64],
) -> bool
    requires face_points_fit { FacePointsFit positions.now edges.now intervals.now faces.now counts.edges counts.faces newfaces.now newpositions.old }
    requires edge_points_fit { EdgePointsFit positions.now edges.now intervals.now counts.edges newedges.now newfaces.now newpositions.old }
    requires old_points_fit { OldPointsFit positions.now points.now edges.now intervals.now counts.points newedges.now newfaces.now newpositions.old }
    ensures { placed_all First
        (mesh_of positions.now points.now edges.now intervals.now faces.now)
        counts
        (refined_tables newedges.now newfaces.now)
        newpositions.old
        ≡ came result newpositions.new }
{
    place_three(
        positions,
        points,
        edges,
        intervals,
        faces,
        counts,
        newedges,
        newfaces,
        newpositions,
        Edition::First,
    )
}

// Puts all new positions of the second edition into their rows, and says whether all are finite.
pub fn place_second(
    positions: &[f64],
    points: &[u32],
    edges: &[u32],
    intervals: &[f64],
    faces: &[u32],
    counts: Counts,
    newedges: &[u32],
    newfaces: &[u32],
    newpositions: &mut [f64],
) -> bool
    requires face_points_fit { FacePointsFit positions.now edges.now intervals.now faces.now counts.edges counts.faces newfaces.now newpositions.old }
    requires edge_points_fit { EdgePointsFit positions.now edges.now intervals.now counts.edges newedges.now newfaces.now newpositions.old }
    requires old_points_fit { OldPointsFit positions.now points.now edges.now intervals.now counts.points newedges.now newfaces.now newpositions.old }
    requires mid_rows { MidRows counts.points counts.edges newedges.now }
    ensures { placed_all Second
        (mesh_of positions.now points.now edges.now intervals.now faces.now)
        counts
        (refined_tables newedges.now newfaces.now)
        newpositions.old
        ≡ came result newpositions.new }
{
    if !place_three(
        positions,
        points,
        edges,
        intervals,
        faces,
        counts,
        newedges,
        newfaces,
        newpositions,
        Edition::Second,
    ) {
        return false;
    }
    place_over(
        edges,
        intervals,
        counts.edges,
        newedges,
        newfaces,
        newpositions,
    )
}
