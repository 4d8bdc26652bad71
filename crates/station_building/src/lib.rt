// Building from lists and from a text as C callers are told it: the answer as its number, and the counts if it is accepted.
// Not here: building (`building`, `text_building`), the numbers of an answer (`station_answers`), the C functions (`station`).
// Contracts: `build_told`, `build_text_told`. Definitions: `specs/Told.antt`. Laws: `proofs/Laws.antt`.
#![tactic(auto)]

ghost use Rattle.std.specs.Prelude.{◌≡◌};
ghost use Rattle.tables.specs.Mesh.{mesh_of};
ghost use Rattle.built_meshes.specs.Building.{build};
ghost use Rattle.built_meshes.specs.Lists.{general_limits};
ghost use Rattle.built_meshes.specs.Lent.{lists_of};
ghost use Rattle.building_tests.specs.declared.Bounds.TheVariants.{General};
ghost use Rattle.text_meshes.specs.TextBuilding.{build_text};
ghost use Rattle.station_building.specs.Told.{BuildingTold, built, text_built};

use building::build;
use building_tests::Bounds;
use built_meshes::LentLists;
use station_answers::{tell, tell_text_built};
use text_building::build_text;

// Builds a mesh from lists of either version in the lent tables. The counts are written if it is accepted.
pub fn build_told(
    lists: &LentLists,
    positions: &mut [f64],
    points: &mut [u32],
    edges: &mut [u32],
    intervals: &mut [f64],
    faces: &mut [u32],
    counts: &mut [usize; 3],
) -> u32
    ensures { ◌≡◌ {A = BuildingTold}
        (record { answer = result; counts = counts.new; tables = mesh_of positions.new points.new edges.new intervals.new faces.new })
        (built counts.old
        (build general_limits
        (lists_of lists.now)
        (mesh_of positions.old points.old edges.old intervals.old faces.old))) }
{
    let answer = build(
        lists,
        positions,
        points,
        edges,
        intervals,
        faces,
        Bounds::General,
    );
    tell(counts, answer)
}

// Builds a mesh from a text in the lent tables. The counts are written if it is accepted.
pub fn build_text_told(
    text: &[u8],
    positions: &mut [f64],
    points: &mut [u32],
    edges: &mut [u32],
    intervals: &mut [f64],
    faces: &mut [u32],
    counts: &mut [usize; 3],
) -> u32
    ensures { ◌≡◌ {A = BuildingTold}
        (record { answer = result; counts = counts.new; tables = mesh_of positions.new points.new edges.new intervals.new faces.new })
        (text_built counts.old
        (build_text General text.now
        (mesh_of positions.old points.old edges.old intervals.old faces.old))) }
{
    let answer = build_text(
        text,
        Bounds::General,
        positions,
        points,
        edges,
        intervals,
        faces,
    );
    tell_text_built(counts, answer)
}
