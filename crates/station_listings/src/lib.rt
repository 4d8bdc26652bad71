// The handover listing for stations (document 02, §1): writing and reading, with the answers and the counts as C callers are told
// them. Every answer is a number: 0 for what is accepted, else that of the ground.
// Not here: what the functions do (`listing_writing`, `listing_reading`), how an answer is told (`listing_answers`), the C functions (`station`).
// Contracts: `write_listing_told`, `read_listing_told`. Definitions: `specs/Told.antt`. Laws: `proofs/Laws.antt`.
#![tactic(auto)]

ghost use Rattle.std.specs.Prelude.{◌≡◌};
ghost use Rattle.tables.specs.Mesh.{mesh_of};
ghost use Rattle.tables.specs.Lent.{tables_of};
ghost use Rattle.station_answers.specs.Answers.{counts_in};
ghost use Rattle.listings.specs.Handing.{write_listing, read_listing};
ghost use Rattle.station_listings.specs.Told.{WritingTold, told_writing, ReadingTold, told_reading};

use listing_answers::{reading_number, store_length, store_read, writing_number};
use listing_reading::read_listing;
use listing_writing::write_listing;
use station_answers::load_counts;
use tables::MeshTables;

// Writes the listing of a mesh at the front of the output. How many bytes it has is written if it is accepted.
pub fn write_listing_told(
    t: &MeshTables,
    counts: &[usize; 3],
    text: &mut [u8],
    length: &mut usize,
) -> u32
    ensures { ◌≡◌ {A = WritingTold}
        (record { answer = result; count = length.new; text = text.new })
        (told_writing length.old
        (write_listing
        (tables_of t.now)
        (counts_in counts.now)
        text.old)) }
{
    let c = load_counts(counts);
    let answer = write_listing(t, c, text);
    store_length(length, answer);
    writing_number(answer)
}

// Reads a listing into the lent tables. The counts are written if it is accepted.
pub fn read_listing_told(
    text: &[u8],
    positions: &mut [f64],
    points: &mut [u32],
    edges: &mut [u32],
    intervals: &mut [f64],
    faces: &mut [u32],
    counts: &mut [usize; 3],
) -> u32
    ensures { ◌≡◌ {A = ReadingTold}
        (record { answer = result; counts = counts.new; tables = mesh_of positions.new points.new edges.new intervals.new faces.new })
        (told_reading counts.old
        (read_listing text.now
        (mesh_of positions.old points.old edges.old intervals.old faces.old))) }
{
    let answer = read_listing(text, positions, points, edges, intervals, faces);
    store_read(counts, answer);
    reading_number(answer)
}
