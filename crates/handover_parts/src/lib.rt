// The parts of the program `handover` that need neither building nor the step: what is written after a step, by its answer and the
// tables that it left.
// Not here: the definition of the output (`handover_outputs`), writing a listing (`listing_writing`), the whole output (`handover`).
// Contract: `write_handed`. Definition: `stepped_bytes` of `handover_outputs`, specs/Output.antt. Laws: `proofs/Lines.antt`.
#![tactic(auto)]

ghost use Rattle.std.specs.Prelude.{◌≤◌, length};
ghost use Rattle.tables.specs.Lent.{tables_of};
ghost use Rattle.mesh_answers.specs.Writing.{Written};
ghost use Rattle.refine_outputs.specs.Output.{output_bytes};
ghost use Rattle.handover_outputs.specs.Output.{listed, stepped_bytes};

use answer_lines::write_refused;
use listing_writing::write_listing;
use listings::WritingRefusal;
use steps::StepRefusal;
use tables::{Counts, MeshTables};

// Writes the listing of a mesh, or the ground on which it is not written.
fn write_listed(out: &mut [u8], t: &MeshTables, counts: Counts) -> usize
    requires { output_bytes ≤ length out.old }
    ensures { Written out.old 0
        (listed
        (tables_of t.now)
        counts out.old)
        result out.new }
{
    match write_listing(t, counts, out) {
        Ok(n) => n,
        Err(WritingRefusal::NotClosed) => write_refused(out, 0, 30),
        Err(WritingRefusal::OverCeilings) => write_refused(out, 0, 2),
        Err(WritingRefusal::TooShort) => write_refused(out, 0, 4),
    }
}

// Writes the output after a step, by its answer and the tables that it left.
pub fn write_handed(out: &mut [u8], t: &MeshTables, answer: Result<Counts, StepRefusal>) -> usize
    requires { output_bytes ≤ length out.old }
    ensures { Written out.old 0
        (stepped_bytes answer
        (tables_of t.now)
        out.old)
        result out.new }
{
    match answer {
        Ok(counts) => write_listed(out, t, counts),
        Err(refusal) => write_refused(out, 0, u64::from(refusal.number())),
    }
}
