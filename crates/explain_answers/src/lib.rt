// What building a mesh text and reading a handover listing answer in the tables of the program `explain`, which are local arrays as those of `refine`.
// Not here: where a text is refused (`text_places`), the words (`explain`).
// Contracts: `text_answer`, `listing_answer`. Definitions: `TextBuilding` of `text_meshes`, `Handing` of `listings`, the tables: `Output` of `refine_outputs`.
#![tactic(auto)]

ghost use Rattle.std.specs.Prelude.{◌≡◌};
ghost use Rattle.building_tests.specs.declared.Bounds.TheVariants.{Refine};
ghost use Rattle.text_meshes.specs.TextBuilding.{build_text};
ghost use Rattle.listings.specs.Handing.{read_listing};
ghost use Rattle.refine_outputs.specs.Output.{zero_tables};

use building_tests::Bounds;
use listing_reading::read_listing;
use listings::ListingRefusal;
use numbered_steps::{LENT_EDGES, LENT_FACES, LENT_POINTS};
use tables::{Counts, EDGE_WIDTH, FACE_WIDTH, POINT_WIDTH, POSITION_WIDTH};
use text_building::build_text;
use text_meshes::TextRefusal;

// The answer to a mesh text of any bytes within the limits of `refine`.
pub fn text_answer(text: &[u8]) -> Result<Counts, TextRefusal>
    ensures { result ≡ (build_text Refine text.now zero_tables).answer }
{
    let mut positions = [0.0; LENT_POINTS * POSITION_WIDTH];
    let mut points = [0u32; LENT_POINTS * POINT_WIDTH];
    let mut edges = [0u32; LENT_EDGES * EDGE_WIDTH];
    let mut intervals = [0.0; LENT_EDGES];
    let mut faces = [0u32; LENT_FACES * FACE_WIDTH];
    build_text(
        text,
        Bounds::Refine,
        &mut positions,
        &mut points,
        &mut edges,
        &mut intervals,
        &mut faces,
    )
}

// The answer to a handover listing of any bytes.
pub fn listing_answer(text: &[u8]) -> Result<Counts, ListingRefusal>
    ensures { result ≡ (read_listing text.now zero_tables).answer }
{
    let mut positions = [0.0; LENT_POINTS * POSITION_WIDTH];
    let mut points = [0u32; LENT_POINTS * POINT_WIDTH];
    let mut edges = [0u32; LENT_EDGES * EDGE_WIDTH];
    let mut intervals = [0.0; LENT_EDGES];
    let mut faces = [0u32; LENT_FACES * FACE_WIDTH];
    read_listing(
        text,
        &mut positions,
        &mut points,
        &mut edges,
        &mut intervals,
        &mut faces,
    )
}
