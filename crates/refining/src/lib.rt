// One step of refining, of tables, counts, order and scratch of any content and any lengths (document 01, grounds 30 to 33).
// The refined mesh is made whole in scratch; the mesh is written only when nothing can fail any more.
// Names: `newpositions`, `newpoints`, `newedges`, `newintervals` and `newfaces` are the scratch tables of positions, points, edges, intervals, faces.
// Not here: the tests (`step_grounds`), what comes after them (`finishing`).
// Contract: `step`. Definition: `steps`, specs/Step.antt, `step`.
#![tactic(auto)]

ghost use Rattle.std.specs.Prelude.{◌≡◌};
ghost use Rattle.tables.specs.Mesh.{mesh_of};
ghost use Rattle.steps.specs.Step.{step, step_numbers, StepOutcome};
ghost use Rattle.steps.specs.OneStep.{Binary64};

use finishing::finish;
use refined_meshes::Edition;
use step_grounds::first_ground;
use steps::StepRefusal;
use tables::{Counts, MeshTables};

// One step of refining in the edition that the caller chooses: the refined mesh, in the order handed in, or the first ground that holds.
// `told` says it in document 01's numbers.
// `numbers` says what is true of every lent table of f64: it is the premise `Binary64` of `Demand3` (`runs`).
pub fn step(
    positions: &mut [f64],
    points: &mut [u32],
    edges: &mut [u32],
    intervals: &mut [f64],
    faces: &mut [u32],
    counts: Counts,
    order: &[u32],
    newpositions: &mut [f64],
    newpoints: &mut [u32],
    newedges: &mut [u32],
    newintervals: &mut [f64],
    newfaces: &mut [u32],
    edition: Edition,
) -> Result<Counts, StepRefusal>
    ensures outcome { ◌≡◌ {A = StepOutcome}
        (record {
          answer = result;
          tables = mesh_of positions.new points.new edges.new intervals.new faces.new;
          scratch = mesh_of newpositions.new newpoints.new newedges.new newintervals.new newfaces.new;
        })
        (step edition (mesh_of positions.old points.old edges.old intervals.old faces.old)
        counts order.now
        (mesh_of newpositions.old newpoints.old newedges.old newintervals.old newfaces.old)) }
    ensures numbers { Binary64 counts
        (mesh_of positions.old points.old edges.old intervals.old faces.old) }
    ensures told { step_numbers result
        ≡ step_numbers (step edition
        (mesh_of positions.old points.old edges.old intervals.old faces.old)
        counts order.now
        (mesh_of newpositions.old newpoints.old newedges.old newintervals.old newfaces.old)
        ).answer }
{
    let mesh = MeshTables {
        positions,
        points,
        edges,
        intervals,
        faces,
    };
    let scratch = MeshTables {
        positions: newpositions,
        points: newpoints,
        edges: newedges,
        intervals: newintervals,
        faces: newfaces,
    };
    let c = first_ground(&mesh, counts, order, &scratch)?;
    finish(
        positions,
        points,
        edges,
        intervals,
        faces,
        counts,
        order,
        c,
        newpositions,
        newpoints,
        newedges,
        newintervals,
        newfaces,
        edition,
    )
}
