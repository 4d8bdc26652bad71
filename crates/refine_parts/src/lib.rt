// The parts of the program `refine` that need neither building nor the step: the lines that are written after a step, by its answer,
// and the numbered order.
// Not here: the definition of the output (`refine_outputs`), the whole output (`refine`).
// Contracts: `write_stepped`, `number_faces`. Definitions: `Output` and `FirstPoint` of `refine_outputs`. Laws: `proofs/Lines.antt`,
// `proofs/Filling.antt`.
#![tactic(auto)]

ghost use Rattle.std.specs.Prelude.{◌≡◌, ◌+◌, ◌≤◌, length};
ghost use Rattle.tables.specs.Layout.{face_ceiling};
ghost use Rattle.runs.specs.Runs.{numbered};
ghost use Rattle.mesh_answers.specs.Writing.{Written};
ghost use Rattle.refine_outputs.specs.Output.{place_line, step_lines};
ghost use Rattle.refine_outputs.specs.FirstPoint.{PointThere, PointReady};

use answer_lines::{write_at, write_refused, write_step};
use steps::StepRefusal;
use tables::Counts;

// Writes where point 0 is.
fn write_point(out: &mut [u8], at: usize, positions: &[f64]) -> usize
    requires at_in_bounds { at + 58 ≤ length out.old }
    requires point_there { PointThere positions.now }
    ensures { Written out.old at (place_line positions.now) result out.new }
{
    let x = f64::to_bits(positions[0]);
    let y = f64::to_bits(positions[1]);
    let z = f64::to_bits(positions[2]);
    write_at(out, at, x, y, z)
}

// Writes the lines after a step of a mesh with these counts, by its answer and the positions that it left.
pub fn write_stepped(
    out: &mut [u8],
    at: usize,
    counts: Counts,
    answer: Result<Counts, StepRefusal>,
    positions: &[f64],
) -> usize
    requires at_in_bounds { at + 128 ≤ length out.old }
    requires point_ready { PointReady counts answer positions.now }
    ensures { Written out.old at (step_lines counts answer positions.now) result out.new }
{
    match answer {
        Ok(c) => {
            let i = write_step(out, at, c.points as u64, c.edges as u64, c.faces as u64);
            if counts.points == 0 {
                return i;
            }
            write_point(out, i, positions)
        }
        Err(refusal) => write_refused(out, at, u64::from(refusal.number())),
    }
}

// Fills an order with 0, 1, 2, ..
pub fn number_faces(order: &mut [u32])
    requires { length order.old ≤ face_ceiling }
    ensures { order.new ≡ numbered (length order.old) }
{
    for i in 0..order.len() {
        order[i] = i as u32;
    }
}
