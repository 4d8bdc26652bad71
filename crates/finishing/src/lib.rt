// The end of a step that has passed its tests: the refined mesh made and moved to the tables, or ground 33.
// Not here: the parts (`step_parts`, `row_moves`), the tests (`step_grounds`), the whole step (`refining`).
// Contract: `finish`. Definition: `steps`, specs/Step.antt, `step`. Laws: `proofs/Laws.antt`.
#![tactic(auto)]

ghost use Rattle.std.specs.Prelude.{◌≡◌};
ghost use Rattle.tables.specs.Mesh.{mesh_of};
ghost use Rattle.steps.specs.Step.{step, StepOutcome};
ghost use Rattle.step_parts.specs.Passed.{TestsPassed};

use counted_rows::zero_rows;
use refined_meshes::Edition;
use row_moves::move_rows;
use step_parts::make_in_rows;
use steps::StepRefusal;
use tables::Counts;

// Makes the step of an edition to the counts c: the refined mesh is made in scratch and, if all is finite, moved to the tables; scratch is
// zeroed either way.
pub fn finish(
    positions: &mut [f64],
    points: &mut [u32],
    edges: &mut [u32],
    intervals: &mut [f64],
    faces: &mut [u32],
    counts: Counts,
    order: &[u32],
    c: Counts,
    newpositions: &mut [f64],
    newpoints: &mut [u32],
    newedges: &mut [u32],
    newintervals: &mut [f64],
    newfaces: &mut [u32],
    edition: Edition,
) -> Result<Counts, StepRefusal>
    requires { TestsPassed edition (mesh_of positions.old points.old edges.old intervals.old faces.old) counts order.now
        (mesh_of newpositions.old newpoints.old newedges.old newintervals.old newfaces.old) c }
    ensures { ◌≡◌ {A = StepOutcome}
        (record {
          answer = result;
          tables = mesh_of positions.new points.new edges.new intervals.new faces.new;
          scratch = mesh_of newpositions.new newpoints.new newedges.new newintervals.new newfaces.new;
        })
        (step edition (mesh_of positions.old points.old edges.old intervals.old faces.old)
        counts order.now
        (mesh_of newpositions.old newpoints.old newedges.old newintervals.old newfaces.old)) }
{
    if make_in_rows(
        positions,
        points,
        edges,
        intervals,
        faces,
        counts,
        order,
        c,
        newpositions,
        newpoints,
        newedges,
        newintervals,
        newfaces,
        edition,
    ) {
        move_rows(
            c,
            newpositions,
            newpoints,
            newedges,
            newintervals,
            newfaces,
            positions,
            points,
            edges,
            intervals,
            faces,
        );
        return Ok(c);
    }
    zero_rows(c, newpositions, newpoints, newedges, newintervals, newfaces);
    Err(StepRefusal::NotFinite)
}
