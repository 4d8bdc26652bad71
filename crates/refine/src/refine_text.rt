// What the program `refine` writes for the bytes that it reads (document 01, "Mesh text"): the mesh is built from the text, then
// refined once in numbered order.
// Not here: reading and writing (`main.rt`), the definition and its claims (`refine_outputs`), the lines of a step (`refine_parts`),
// the step in numbered order (`numbered_steps`).
// Contract: `refine`. Definition: `Output` of `refine_outputs`. Laws: `proofs/Outputs.antt`.
ghost use Rattle.std.specs.Prelude.{◌≡◌, ◌++◌, ◌≤◌, length};
ghost use Rattle.tables.specs.Mesh.{mesh_of};
ghost use Rattle.built_meshes.specs.Lists.{refine_limits};
ghost use Rattle.mesh_answers.specs.Lines.{mesh_line};
ghost use Rattle.refine_outputs.specs.Output.{lines_of, numbered_step, output_from, OutputWritten, refine, output_bytes};
ghost use Rattle.mesh_answers.specs.Writing.{Written};

use answer_lines::{write_mesh, write_refused};
use answer_numbers::ground_number;
use building_tests::Bounds;
use numbered_steps::{LENT_EDGES, LENT_FACES, LENT_POINTS, numbered_step};
use refine_parts::write_stepped;
use tables::{Counts, EDGE_WIDTH, FACE_WIDTH, POINT_WIDTH, POSITION_WIDTH};
use text_building::build_text;
use text_meshes::TextRefusal;

// The bytes that are lent for an output: they hold every one (`OutputFits` of `refine_outputs`).
pub const OUTPUT_BYTES: usize = 256;

// Writes the lines of a mesh that is built: its counts, and those of its step.
fn write_built(
    out: &mut [u8],
    positions: &mut [f64],
    points: &mut [u32],
    edges: &mut [u32],
    intervals: &mut [f64],
    faces: &mut [u32],
    counts: Counts,
) -> usize
    requires faces_le_faces { counts.faces ≤ refine_limits.faces }
    requires output_bytes_in_bounds { output_bytes ≤ length out.old }
    ensures { Written out.old 0
        (mesh_line counts.points counts.edges counts.faces
        ++ lines_of counts
        (numbered_step counts
        (mesh_of positions.old points.old edges.old intervals.old faces.old)))
        result out.new }
{
    let i = write_mesh(
        out,
        0,
        counts.points as u64,
        counts.edges as u64,
        counts.faces as u64,
    );
    let answer = numbered_step(positions, points, edges, intervals, faces, counts);
    write_stepped(out, i, counts, answer, positions)
}

// Writes the output for a text, by tables that are lent.
fn write_output(
    out: &mut [u8],
    text: &[u8],
    positions: &mut [f64],
    points: &mut [u32],
    edges: &mut [u32],
    intervals: &mut [f64],
    faces: &mut [u32],
) -> usize
    requires { output_bytes ≤ length out.old }
    ensures { Written out.old 0
        (output_from text.now
        (mesh_of positions.old points.old edges.old intervals.old faces.old))
        result out.new }
{
    match build_text(
        text,
        Bounds::Refine,
        positions,
        points,
        edges,
        intervals,
        faces,
    ) {
        Ok(counts) => { write_built(out, positions, points, edges, intervals, faces, counts) }
        Err(TextRefusal::NotText) => write_refused(out, 0, 1),
        Err(TextRefusal::Refused(g)) => write_refused(out, 0, ground_number(g) as u64),
    }
}

// Writes the output for a text of any bytes at the front of `out`, and answers how many bytes that are.
pub fn refine(text: &[u8], out: &mut [u8; OUTPUT_BYTES]) -> usize
    ensures { ◌≡◌ {A = OutputWritten} (record { count = result; out = out.new }) (refine text.now out.old) }
{
    let mut positions = [0.0; LENT_POINTS * POSITION_WIDTH];
    let mut points = [0u32; LENT_POINTS * POINT_WIDTH];
    let mut edges = [0u32; LENT_EDGES * EDGE_WIDTH];
    let mut intervals = [0.0; LENT_EDGES];
    let mut faces = [0u32; LENT_FACES * FACE_WIDTH];
    write_output(
        out,
        text,
        &mut positions,
        &mut points,
        &mut edges,
        &mut intervals,
        &mut faces,
    )
}
