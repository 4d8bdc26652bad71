// A handover listing (document 02, §1), of bytes of any kind, read into lent tables of any length. It is linear in the listing and
// has no memory but locals: a first scan tests the form of the whole and counts, a second stores the rows.
// Not here: the two scans (`listing_lines`), writing (`listing_writing`).
// Contract: `read_listing`. Definition: `read_listing` of `listings`, specs/Handing.antt. Laws: `proofs/Outcomes.antt`.
#![tactic(auto)]

ghost use Rattle.std.specs.Prelude.{◌≡◌};
ghost use Rattle.tables.specs.Mesh.{mesh_of};
ghost use Rattle.listings.specs.Handing.{ReadingOutcome, read_listing};

use audit::audit;
use counted_rows::{rows_for, zero_rows};
use listing_lines::{listing_sizes, store_rows};
use listings::ListingRefusal;
use scratch_rows::within_ceilings;
use tables::{Counts, MeshTables};

// Reads a listing into the front rows of the tables, and answers how many points, edges and faces it lists; or the first ground that
// holds. 40, 2 and 4 leave the tables as they are, 30 zeroes as many rows as are listed.
pub fn read_listing(
    text: &[u8],
    positions: &mut [f64],
    points: &mut [u32],
    edges: &mut [u32],
    intervals: &mut [f64],
    faces: &mut [u32],
) -> Result<Counts, ListingRefusal>
    ensures { ◌≡◌ {A = ReadingOutcome}
        (record {
          answer = result;
          tables = mesh_of positions.new points.new edges.new intervals.new faces.new;
        })
        (read_listing
        text.now
        (mesh_of positions.old points.old edges.old intervals.old faces.old)) }
{
    let c = listing_sizes(text).ok_or(ListingRefusal::NotListing)?;
    if !within_ceilings(c) {
        return Err(ListingRefusal::OverCeilings);
    }
    let tables = MeshTables {
        positions,
        points,
        edges,
        intervals,
        faces,
    };
    if !rows_for(c, &tables) {
        return Err(ListingRefusal::NoRoom);
    }
    store_rows(text, positions, points, edges, intervals, faces);
    let stored = MeshTables {
        positions,
        points,
        edges,
        intervals,
        faces,
    };
    if audit(&stored, c) {
        return Ok(c);
    }
    zero_rows(c, positions, points, edges, intervals, faces);
    Err(ListingRefusal::NotClosed)
}
