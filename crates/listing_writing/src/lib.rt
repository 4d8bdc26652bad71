// The handover listing of a mesh (document 02, §1), written from tables of any content, with counts of any size, into an output of
// any length. It is linear in the listing and has no memory but locals: one pass over the words counts the bytes, so that an
// output that is too short is left as it is; a second writes them.
// Not here: the lines (`listing_printing`), reading (`listing_reading`).
// Contract: `write_listing`. Definition: `write_listing` of `listings`, specs/Handing.antt. Laws: `proofs/Parts.antt`.
#![tactic(auto)]

ghost use Rattle.std.specs.Prelude.{◌≡◌, true, ℕ, ◌*◌, ◌≤◌, ◌<◌, length, get_or};
ghost use Rattle.std.proofs.lemmas.List.Edits.{sets};
ghost use Rattle.std.specs.Float.{nan};
ghost use Rattle.std.specs.Float.Ieee.Scale.{finite};
ghost use Rattle.tables.specs.Lent.{tables_of};
ghost use Rattle.steps.specs.Step.{within_ceilings};
ghost use Rattle.listings.specs.Handing.{WritingOutcome, listing_of, write_listing};
ghost use Rattle.listing_writing.specs.Parts.{WordRows, length_by, RowsReady};

use audit::audit;
use listing_printing::{words_length, write_edges, write_faces, write_points};
use listings::WritingRefusal;
use mesh_answers::write;
use scratch_rows::within_ceilings;
use tables::{Counts, EDGE_WIDTH, FACE_WIDTH, MeshTables, POINT_WIDTH};

// How many bytes the listing has, of counts within the ceilings.
fn listing_length(points: &[u32], edges: &[u32], faces: &[u32], counts: Counts) -> usize
    requires { WordRows counts points.now edges.now faces.now }
    ensures { result ≡ length_by counts points.now edges.now faces.now }
{
    let np = counts.points;
    let ne = counts.edges;
    let nf = counts.faces;
    let p = words_length(points, np * POINT_WIDTH);
    let e = words_length(edges, ne * EDGE_WIDTH);
    let f = words_length(faces, nf * FACE_WIDTH);
    15 + (np * 59 + p) + (ne * 24 + e) + (nf * 7 + f)
}

// Writes the listing at the front of the output.
fn write_rows(t: &MeshTables, counts: Counts, text: &mut [u8])
    requires rows_ready { RowsReady counts (tables_of t.now) }
    requires counts_in_bounds { length (listing_of (tables_of t.now) counts) ≤ length text.old }
    ensures { text.new
        ≡ sets text.old 0
        (listing_of (tables_of t.now) counts) }
{
    let i = write(text, 0, b"[mesh 3]\n");
    let j = write_points(text, i, t.positions, t.points, counts.points);
    let k = write_edges(text, j, t.edges, t.intervals, counts.edges);
    let l = write_faces(text, k, t.faces, counts.faces);
    write(text, l, b"[end]\n");
}

// Writes the listing of a mesh at the front of the output, and answers how many bytes it has; or the first ground that holds,
// and then nothing is written.
pub fn write_listing(
    t: &MeshTables,
    counts: Counts,
    text: &mut [u8],
) -> Result<usize, WritingRefusal>
    ensures { ◌≡◌ {A = WritingOutcome}
        (record { answer = result; text = text.new })
        (write_listing
        (tables_of t.now)
        counts
        text.old) }
{
    if !audit(t, counts) {
        return Err(WritingRefusal::NotClosed);
    }
    if !within_ceilings(counts) {
        return Err(WritingRefusal::OverCeilings);
    }
    let n = listing_length(t.points, t.edges, t.faces, counts);
    if text.len() < n {
        return Err(WritingRefusal::TooShort);
    }
    write_rows(t, counts, text);
    Ok(n)
}
