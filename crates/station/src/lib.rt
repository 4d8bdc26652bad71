// The library for stations: building, the mender of texts, the audit, the step, the depth finder and the handover listing as
// functions of slices and numbers that C can call (`station_c` exports them, station/lavyngo.h declares them). Every answer is document
// 01's number or document 02's: 0 for what is accepted, else that of the ground. Counts stand in an array of three that the caller
// lends: points, edges, faces.
// Not here: what the functions do (`building`, `text_building`, `text_mending`, `audit`, `refining`, `depth_finder`,
// `listing_writing`, `listing_reading`), how an answer is told (`station_building`, `station_mending`, `station_places`,
// `station_audits`, `station_steps`, `station_listings`). Each function here is one call of a function there.
// Contracts: `lavyngo_build`, `lavyngo_build_2`, `lavyngo_build_text`, `lavyngo_mend_text`, `lavyngo_explain_text`, `lavyngo_audit`,
// `lavyngo_step`, `lavyngo_step_published`, `lavyngo_find_depth`, `lavyngo_write_listing`, `lavyngo_read_listing`, `lavyngo_version`.
// Definitions: `specs/Station.antt`, and those of the crates that tell the answers.
#![tactic(auto)]

ghost use Rattle.std.specs.Prelude.{◌≡◌};
ghost use Rattle.built_meshes.specs.Building.{build};
ghost use Rattle.built_meshes.specs.Lists.{general_limits};
ghost use Rattle.building_tests.specs.Lent.{lists, lists_in};
ghost use Rattle.built_meshes.specs.declared.Version.TheVariants.{Two};
ghost use Rattle.building_tests.specs.declared.Bounds.TheVariants.{General};
ghost use Rattle.text_meshes.specs.TextBuilding.{build_text};
ghost use Rattle.tables.specs.Mesh.{mesh_of};
ghost use Rattle.refined_meshes.specs.declared.Edition.TheVariants.{First, Second};
ghost use Rattle.steps.specs.Step.{step};
ghost use Rattle.steps.specs.OneStep.{Binary64};
ghost use Rattle.station.specs.Station.{library_version};
ghost use Rattle.station_building.specs.Told.{BuildingTold, built, text_built};
ghost use Rattle.station_audits.specs.Told.{audited, Finding, found};
ghost use Rattle.mended_texts.specs.Mending.{mend_text};
ghost use Rattle.station_mending.specs.Told.{MendingTold, mended};
ghost use Rattle.station_places.specs.Told.{Explained, explained};
ghost use Rattle.station_steps.specs.Told.{StepTold, stepped};
ghost use Rattle.crossings.specs.Crossings.{find};
ghost use Rattle.station_answers.specs.Answers.{counts_in};
ghost use Rattle.listings.specs.Handing.{write_listing, read_listing};
ghost use Rattle.station_listings.specs.Told.{WritingTold, told_writing, ReadingTold, told_reading};

use built_meshes::{LentLists, Version};
use refined_meshes::Edition;
use station_audits::{audit_told, find_depth_told};
use station_building::{build_text_told, build_told};
use station_listings::{read_listing_told, write_listing_told};
use station_mending::mend_text_told;
use station_places::explain_text_told;
use station_steps::step_told;
use tables::MeshTables;

// The version of the library: 1 for document 01, and one more for each request of document 02 that is in it. LAVYNGO_VERSION in the
// header is the same number.
pub const LIBRARY_VERSION: u32 = 10;

// Builds a mesh from lists of version 1 in the lent tables. The counts are written if it is accepted.
pub fn lavyngo_build(
    coordinates: &[f64],
    sides: &[u32],
    listed: &[u32],
    beside: &[f64],
    positions: &mut [f64],
    points: &mut [u32],
    edges: &mut [u32],
    intervals: &mut [f64],
    faces: &mut [u32],
    counts: &mut [usize; 3],
) -> u32
    ensures { ◌≡◌ {A = BuildingTold}
        (record { answer = result; counts = counts.new; tables = mesh_of positions.new points.new edges.new intervals.new faces.new })
        (built counts.old
        (build general_limits (lists coordinates.now sides.now listed.now beside.now)
        (mesh_of positions.old points.old edges.old intervals.old faces.old))) }
{
    let firsts = [0u32; 0];
    let lists = LentLists {
        version: Version::One,
        coordinates,
        sides,
        firsts: &firsts,
        listed,
        beside,
    };
    build_told(&lists, positions, points, edges, intervals, faces, counts)
}

// Builds a mesh from lists of version 2 in the lent tables. The counts are written if it is accepted.
pub fn lavyngo_build_2(
    coordinates: &[f64],
    sides: &[u32],
    firsts: &[u32],
    listed: &[u32],
    beside: &[f64],
    positions: &mut [f64],
    points: &mut [u32],
    edges: &mut [u32],
    intervals: &mut [f64],
    faces: &mut [u32],
    counts: &mut [usize; 3],
) -> u32
    ensures { ◌≡◌ {A = BuildingTold}
        (record { answer = result; counts = counts.new; tables = mesh_of positions.new points.new edges.new intervals.new faces.new })
        (built counts.old
        (build general_limits
        (lists_in Two coordinates.now sides.now firsts.now listed.now beside.now)
        (mesh_of positions.old points.old edges.old intervals.old faces.old))) }
{
    let lists = LentLists {
        version: Version::Two,
        coordinates,
        sides,
        firsts,
        listed,
        beside,
    };
    build_told(&lists, positions, points, edges, intervals, faces, counts)
}

// Builds a mesh from a text in the lent tables. The counts are written if it is accepted.
pub fn lavyngo_build_text(
    text: &[u8],
    positions: &mut [f64],
    points: &mut [u32],
    edges: &mut [u32],
    intervals: &mut [f64],
    faces: &mut [u32],
    counts: &mut [usize; 3],
) -> u32
    ensures { ◌≡◌ {A = BuildingTold}
        (record { answer = result; counts = counts.new; tables = mesh_of positions.new points.new edges.new intervals.new faces.new })
        (text_built counts.old
        (build_text General text.now
        (mesh_of positions.old points.old edges.old intervals.old faces.old))) }
{
    build_text_told(text, positions, points, edges, intervals, faces, counts)
}

// Mends a text of version 2 in place: whole faces are turned round so that all neighbours run opposite ways.
pub fn lavyngo_mend_text(text: &mut [u8]) -> u32
    ensures { ◌≡◌ {A = MendingTold} (record { answer = result; text = text.new }) (mended (mend_text text.old)) }
{
    mend_text_told(text)
}

// Tells what becomes of a text of any bytes, and where it is refused: the number of building it in tables with rows to spare, the line, the
// face and the edge.
pub fn lavyngo_explain_text(text: &[u8], place: &mut [usize; 3]) -> u32
    ensures { ◌≡◌ {A = Explained} (record { answer = result; place = place.new }) (explained text.now place.old) }
{
    explain_text_told(text, place)
}

// Whether the tables are a closed mesh with these counts: 0, or 30 if they are not.
pub fn lavyngo_audit(
    positions: &[f64],
    points: &[u32],
    edges: &[u32],
    intervals: &[f64],
    faces: &[u32],
    counts: &[usize; 3],
) -> u32
    ensures { result
        ≡ audited
        (mesh_of positions.now points.now edges.now intervals.now faces.now)
        (counts_in counts.now) }
{
    let tables = MeshTables {
        positions,
        points,
        edges,
        intervals,
        faces,
    };
    audit_told(&tables, counts)
}

// Refines the mesh in the tables once, visiting the faces in the order handed in. `newpositions`, `newpoints`, `newedges`, `newintervals` and
// `newfaces` are the scratch tables of positions, points, edges, intervals and faces. The counts are those before the step, and
// become those after it if it is accepted. `numbers` is the premise `Binary64` of `Demand3` (`runs`).
pub fn lavyngo_step(
    positions: &mut [f64],
    points: &mut [u32],
    edges: &mut [u32],
    intervals: &mut [f64],
    faces: &mut [u32],
    counts: &mut [usize; 3],
    order: &[u32],
    newpositions: &mut [f64],
    newpoints: &mut [u32],
    newedges: &mut [u32],
    newintervals: &mut [f64],
    newfaces: &mut [u32],
) -> u32
    ensures outcome { ◌≡◌ {A = StepTold}
        (record {
          answer = result;
          counts = counts.new;
          tables = mesh_of positions.new points.new edges.new intervals.new faces.new;
          scratch = mesh_of newpositions.new newpoints.new newedges.new newintervals.new newfaces.new;
        })
        (stepped counts.old
        (step First (mesh_of positions.old points.old edges.old intervals.old faces.old)
        (counts_in counts.old) order.now
        (mesh_of newpositions.old newpoints.old newedges.old newintervals.old newfaces.old))) }
    ensures numbers { Binary64 (counts_in counts.old)
        (mesh_of positions.old points.old edges.old intervals.old faces.old) }
{
    step_told(
        positions,
        points,
        edges,
        intervals,
        faces,
        counts,
        order,
        newpositions,
        newpoints,
        newedges,
        newintervals,
        newfaces,
        Edition::First,
    )
}

// The same in the second edition, by the published position rule (document 02, §5). The C interface has a function for each edition; what
// they share is `step_told`.
pub fn lavyngo_step_published(
    positions: &mut [f64],
    points: &mut [u32],
    edges: &mut [u32],
    intervals: &mut [f64],
    faces: &mut [u32],
    counts: &mut [usize; 3],
    order: &[u32],
    newpositions: &mut [f64],
    newpoints: &mut [u32],
    newedges: &mut [u32],
    newintervals: &mut [f64],
    newfaces: &mut [u32],
) -> u32
    ensures outcome { ◌≡◌ {A = StepTold}
        (record {
          answer = result;
          counts = counts.new;
          tables = mesh_of positions.new points.new edges.new intervals.new faces.new;
          scratch = mesh_of newpositions.new newpoints.new newedges.new newintervals.new newfaces.new;
        })
        (stepped counts.old
        (step Second (mesh_of positions.old points.old edges.old intervals.old faces.old)
        (counts_in counts.old) order.now
        (mesh_of newpositions.old newpoints.old newedges.old newintervals.old newfaces.old))) }
    ensures numbers { Binary64 (counts_in counts.old)
        (mesh_of positions.old points.old edges.old intervals.old faces.old) }
{
    step_told(
        positions,
        points,
        edges,
        intervals,
        faces,
        counts,
        order,
        newpositions,
        newpoints,
        newedges,
        newintervals,
        newfaces,
        Edition::Second,
    )
}

// Finds the lowest-numbered edge of the mesh that crosses a depth, which is a z coordinate. The edge is written if there is one.
pub fn lavyngo_find_depth(
    positions: &[f64],
    points: &[u32],
    edges: &[u32],
    intervals: &[f64],
    faces: &[u32],
    counts: &[usize; 3],
    depth: f64,
    edge: &mut [usize; 1],
) -> u32
    ensures { ◌≡◌ {A = Finding} (record { answer = result; edge = edge.new })
        (found edge.old
        (find (mesh_of positions.now points.now edges.now intervals.now faces.now)
        (counts_in counts.now) depth)) }
{
    let tables = MeshTables {
        positions,
        points,
        edges,
        intervals,
        faces,
    };
    find_depth_told(&tables, counts, depth, edge)
}

// Writes the listing of a mesh at the front of the output. How many bytes it has is written if it is accepted.
pub fn lavyngo_write_listing(
    positions: &[f64],
    points: &[u32],
    edges: &[u32],
    intervals: &[f64],
    faces: &[u32],
    counts: &[usize; 3],
    text: &mut [u8],
    written: &mut usize,
) -> u32
    ensures { ◌≡◌ {A = WritingTold}
        (record { answer = result; count = written.new; text = text.new })
        (told_writing written.old
        (write_listing
        (mesh_of positions.now points.now edges.now intervals.now faces.now)
        (counts_in counts.now)
        text.old)) }
{
    let tables = MeshTables {
        positions,
        points,
        edges,
        intervals,
        faces,
    };
    write_listing_told(&tables, counts, text, written)
}

// Reads a listing into the lent tables. The counts are written if it is accepted.
pub fn lavyngo_read_listing(
    text: &[u8],
    positions: &mut [f64],
    points: &mut [u32],
    edges: &mut [u32],
    intervals: &mut [f64],
    faces: &mut [u32],
    counts: &mut [usize; 3],
) -> u32
    ensures { ◌≡◌ {A = ReadingTold}
        (record { answer = result; counts = counts.new; tables = mesh_of positions.new points.new edges.new intervals.new faces.new })
        (told_reading counts.old
        (read_listing text.now
        (mesh_of positions.old points.old edges.old intervals.old faces.old))) }
{
    read_listing_told(text, positions, points, edges, intervals, faces, counts)
}

// The version of the library, which is that of its header.
pub fn lavyngo_version() -> u32
    ensures { result ≡ library_version }
{
    LIBRARY_VERSION
}
