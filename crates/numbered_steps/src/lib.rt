// The step of a mesh of at most 64 faces in the first edition and in numbered order, by scratch of zeros, for the programs `refine` and `handover`.
// Not here: the step (`refining`), the numbered order (`refine_parts`), what is written of it (`refine`, `handover`).
// Contract: `numbered_step`. Definitions: `numbered_step` of `refine_outputs`, specs/Output.antt; `specs/Parts.antt`. Laws:
// `proofs/Steps.antt`.
// Names: `newpositions`, `newpoints`, `newedges`, `newintervals` and `newfaces` are the scratch tables of positions, points, edges, intervals, faces.
#![tactic(auto)]

ghost use Rattle.std.specs.Prelude.{◌≤◌};
ghost use Rattle.tables.specs.Mesh.{mesh_of};
ghost use Rattle.built_meshes.specs.Lists.{refine_limits};
ghost use Rattle.refined_meshes.specs.declared.Edition.TheVariants.{First};
ghost use Rattle.steps.specs.Step.{step};
ghost use Rattle.refine_outputs.specs.Output.{zero_tables, numbered_step};
ghost use Rattle.numbered_steps.specs.Parts.{SteppedTo};

use building_tests::REFINE_FACES;
use refine_parts::number_faces;
use refined_meshes::Edition;
use refining::step;
use steps::StepRefusal;
use tables::{Counts, EDGE_WIDTH, FACE_WIDTH, POINT_WIDTH, POSITION_WIDTH};

// The rows of the tables that are lent to building and to the step.
pub const LENT_POINTS: usize = 256;

pub const LENT_EDGES: usize = 512;

pub const LENT_FACES: usize = 256;

// The step of a mesh in the order handed in, by scratch of zeros.
fn step_by_zeros(
    positions: &mut [f64],
    points: &mut [u32],
    edges: &mut [u32],
    intervals: &mut [f64],
    faces: &mut [u32],
    counts: Counts,
    order: &[u32],
) -> Result<Counts, StepRefusal>
    ensures { SteppedTo result (mesh_of positions.new points.new edges.new intervals.new faces.new)
        (step First (mesh_of positions.old points.old edges.old intervals.old faces.old)
        counts order.now zero_tables) }
{
    let mut newpositions = [0.0; LENT_POINTS * POSITION_WIDTH];
    let mut newpoints = [0u32; LENT_POINTS * POINT_WIDTH];
    let mut newedges = [0u32; LENT_EDGES * EDGE_WIDTH];
    let mut newintervals = [0.0; LENT_EDGES];
    let mut newfaces = [0u32; LENT_FACES * FACE_WIDTH];
    step(
        positions,
        points,
        edges,
        intervals,
        faces,
        counts,
        order,
        &mut newpositions,
        &mut newpoints,
        &mut newedges,
        &mut newintervals,
        &mut newfaces,
        Edition::First,
    )
}

// The step of a mesh of at most 64 faces, which are visited in numbered order.
pub fn numbered_step(
    positions: &mut [f64],
    points: &mut [u32],
    edges: &mut [u32],
    intervals: &mut [f64],
    faces: &mut [u32],
    counts: Counts,
) -> Result<Counts, StepRefusal>
    requires { counts.faces ≤ refine_limits.faces }
    ensures { SteppedTo result (mesh_of positions.new points.new edges.new intervals.new faces.new)
        (numbered_step counts
        (mesh_of positions.old points.old edges.old intervals.old faces.old)) }
{
    let mut order = [0u32; REFINE_FACES];
    number_faces(&mut order);
    let n = counts.faces;
    step_by_zeros(
        positions,
        points,
        edges,
        intervals,
        faces,
        counts,
        &order[..n],
    )
}
