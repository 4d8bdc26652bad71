// The grounds on which a step is refused before anything is written: 30, 31 and 32, in document 01's order.
// Not here: the step itself (`refining`), ground 33 (`making`).
// Names: `newpositions`, `newpoints`, `newedges`, `newintervals` and `newfaces` are the scratch tables of positions, points, edges, intervals, faces.
// Contract: `first_ground`. Definition: `tested` of `steps`, specs/Step.antt.
#![tactic(auto)]

ghost use Rattle.std.specs.Prelude.{◌≡◌};
ghost use Rattle.tables.specs.Lent.{tables_of};
ghost use Rattle.steps.specs.Step.{tested};

use audit::audit;
use counted_rows::rows_for;
use orders::each_face_once;
use scratch_rows::{refined_counts, within_ceilings};
use steps::StepRefusal;
use tables::{Counts, MeshTables};

// The counts after the step, or the first of the grounds 30, 31 and 32 that holds.
pub fn first_ground(
    mesh: &MeshTables,
    counts: Counts,
    order: &[u32],
    scratch: &MeshTables,
) -> Result<Counts, StepRefusal>
    ensures { result ≡ tested (tables_of mesh.now) counts order.now (tables_of scratch.now) }
{
    if !audit(mesh, counts) {
        return Err(StepRefusal::NotClosed);
    }
    if !each_face_once(order, counts.faces) {
        return Err(StepRefusal::NotEachFaceOnce);
    }
    let c = refined_counts(counts);
    if !rows_for(c, mesh) {
        return Err(StepRefusal::NoRoom);
    }
    if !rows_for(c, scratch) {
        return Err(StepRefusal::NoRoom);
    }
    if !within_ceilings(c) {
        return Err(StepRefusal::NoRoom);
    }
    Ok(c)
}
