// What the program `handover` writes for the bytes that it reads (document 02, §1): the mesh is built from the text and refined once
// in numbered order, as `refine` does it, and then listed.
// Not here: reading and writing (`main.rt`), the definition and its claims (`handover_outputs`), what is written after the step
// (`handover_parts`), the step in numbered order (`numbered_steps`).
// Contract: `handover`. Definition: `Output` of `handover_outputs`. Laws: `proofs/Outputs.antt`.
ghost use Rattle.std.specs.Prelude.{◌≡◌, ◌≤◌, length};
ghost use Rattle.tables.specs.Mesh.{mesh_of};
ghost use Rattle.built_meshes.specs.Lists.{refine_limits};
ghost use Rattle.mesh_answers.specs.Writing.{Written};
ghost use Rattle.refine_outputs.specs.Output.{numbered_step, OutputWritten, output_bytes};
ghost use Rattle.handover_outputs.specs.Output.{refined_bytes, handover_from, handover};

use answer_lines::write_refused;
use answer_numbers::ground_number;
use building_tests::Bounds;
use handover_parts::write_handed;
use numbered_steps::{LENT_EDGES, LENT_FACES, LENT_POINTS, numbered_step};
use tables::{Counts, EDGE_WIDTH, FACE_WIDTH, MeshTables, POINT_WIDTH, POSITION_WIDTH};
use text_building::build_text;
use text_meshes::TextRefusal;

// The fewest bytes that are to be lent.
pub const LEAST_BYTES: usize = 256;

// Writes the output for a mesh that is built: its listing after the step.
fn write_built(
    out: &mut [u8],
    positions: &mut [f64],
    points: &mut [u32],
    edges: &mut [u32],
    intervals: &mut [f64],
    faces: &mut [u32],
    counts: Counts,
) -> usize
    requires faces_le_faces { counts.faces ≤ refine_limits.faces }
    requires output_bytes_in_bounds { output_bytes ≤ length out.old }
    ensures { Written out.old 0
        (refined_bytes
        (numbered_step counts
        (mesh_of positions.old points.old edges.old intervals.old faces.old))
        out.old)
        result out.new }
{
    let answer = numbered_step(positions, points, edges, intervals, faces, counts);
    let tables = MeshTables {
        positions,
        points,
        edges,
        intervals,
        faces,
    };
    write_handed(out, &tables, answer)
}

// Writes the output for a text, by tables that are lent.
fn write_output(
    out: &mut [u8],
    text: &[u8],
    positions: &mut [f64],
    points: &mut [u32],
    edges: &mut [u32],
    intervals: &mut [f64],
    faces: &mut [u32],
) -> usize
    requires { output_bytes ≤ length out.old }
    ensures { Written out.old 0
        (handover_from text.now
        (mesh_of positions.old points.old edges.old intervals.old faces.old)
        out.old)
        result out.new }
{
    match build_text(
        text,
        Bounds::Refine,
        positions,
        points,
        edges,
        intervals,
        faces,
    ) {
        Ok(counts) => { write_built(out, positions, points, edges, intervals, faces, counts) }
        Err(TextRefusal::NotText) => write_refused(out, 0, 1),
        Err(TextRefusal::Refused(g)) => write_refused(out, 0, ground_number(g) as u64),
    }
}

// Writes the output for a text of any bytes at the front of `out`, and answers how many bytes that are. Where fewer than 256
// bytes are lent, nothing is written.
pub fn handover(text: &[u8], out: &mut [u8]) -> usize
    ensures { ◌≡◌ {A = OutputWritten} (record { count = result; out = out.new }) (handover text.now out.old) }
{
    if out.len() < LEAST_BYTES {
        return 0;
    }
    let mut positions = [0.0; LENT_POINTS * POSITION_WIDTH];
    let mut points = [0u32; LENT_POINTS * POINT_WIDTH];
    let mut edges = [0u32; LENT_EDGES * EDGE_WIDTH];
    let mut intervals = [0.0; LENT_EDGES];
    let mut faces = [0u32; LENT_FACES * FACE_WIDTH];
    write_output(
        out,
        text,
        &mut positions,
        &mut points,
        &mut edges,
        &mut intervals,
        &mut faces,
    )
}
