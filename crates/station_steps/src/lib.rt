// The step of refining as C callers are told it, in the edition that is handed in.
// Not here: the step (`refining`), the numbers of an answer (`station_answers`), the C functions (`station`).
// Contract: `step_told`. Definitions: `specs/Told.antt`. Laws: `proofs/Laws.antt`.
#![tactic(auto)]

ghost use Rattle.std.specs.Prelude.{◌≡◌};
ghost use Rattle.tables.specs.Mesh.{mesh_of};
ghost use Rattle.steps.specs.Step.{step};
ghost use Rattle.steps.specs.OneStep.{Binary64};
ghost use Rattle.station_answers.specs.Answers.{counts_in};
ghost use Rattle.station_steps.specs.Told.{StepTold, stepped};

use refined_meshes::Edition;
use refining::step;
use station_answers::{load_counts, tell};

// One step of refining in the lent tables, by the lent scratch. The counts are written if it is accepted.
pub fn step_told(
    positions: &mut [f64],
    points: &mut [u32],
    edges: &mut [u32],
    intervals: &mut [f64],
    faces: &mut [u32],
    counts: &mut [usize; 3],
    order: &[u32],
    newpositions: &mut [f64],
    newpoints: &mut [u32],
    newedges: &mut [u32],
    newintervals: &mut [f64],
    newfaces: &mut [u32],
    edition: Edition,
) -> u32
    ensures outcome { ◌≡◌ {A = StepTold}
        (record {
          answer = result;
          counts = counts.new;
          tables = mesh_of positions.new points.new edges.new intervals.new faces.new;
          scratch = mesh_of newpositions.new newpoints.new newedges.new newintervals.new newfaces.new;
        })
        (stepped counts.old
        (step edition (mesh_of positions.old points.old edges.old intervals.old faces.old)
        (counts_in counts.old) order.now
        (mesh_of newpositions.old newpoints.old newedges.old newintervals.old newfaces.old))) }
    ensures numbers { Binary64 (counts_in counts.old)
        (mesh_of positions.old points.old edges.old intervals.old faces.old) }
{
    let c = load_counts(counts);
    let answer = step(
        positions,
        points,
        edges,
        intervals,
        faces,
        c,
        order,
        newpositions,
        newpoints,
        newedges,
        newintervals,
        newfaces,
        edition,
    );
    tell(counts, answer)
}
