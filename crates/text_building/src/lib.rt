// A mesh built from a text of any bytes, of either version, in the lent tables, in one call (document 01, "Mesh text" and grounds 1 to 22;
// document 02, §4).
// Not here: the grammar (`mesh_text`), the reader (`text_reading`), the building from lists (`building`), the definition and its
// claims (`text_meshes`).
// Contract: `build_text`. Definitions: `TextBuilding` of `text_meshes`. Laws: `proofs/Laws.antt`.
// The five lists of a text are local arrays of the sizes that the general limits allow, below 450 KiB of stack.
#![tactic(auto)]

ghost use Rattle.std.specs.Prelude.{◌≡◌, false, ◌*◌, ◌≤◌, length, take};
ghost use Rattle.tables.specs.Layout.{position_width};
ghost use Rattle.tables.specs.Mesh.{mesh_of};
ghost use Rattle.building_tests.specs.Lent.{lists_in, limits_of};
ghost use Rattle.built_meshes.specs.Lists.{general_limits};
ghost use Rattle.built_meshes.specs.Building.{build};
ghost use Rattle.text_meshes.specs.TextBuilding.{TextOutcome, told_outcome, build_text_if, build_text, text_numbers};

use building::build;
use building_tests::{Bounds, MOST_FACES, MOST_LISTED, MOST_POINTS};
use built_meshes::{Ground, LentLists, Version};
use mesh_text::ReadingGround;
use tables::{Counts, POSITION_WIDTH};
use text_answers::{is_too_long, told};
use text_meshes::TextRefusal;
use text_reading::read_text;

// Builds from the first entries of the lists: 3 for each of p points, 4 side lengths and first points for each of f faces, n listed
// points and intervals.
fn build_first(
    version: Version,
    coordinates: &[f64],
    sides: &[u32],
    firsts: &[u32],
    listed: &[u32],
    beside: &[f64],
    p: usize,
    f: usize,
    n: usize,
    positions: &mut [f64],
    points: &mut [u32],
    edges: &mut [u32],
    intervals: &mut [f64],
    faces: &mut [u32],
    bounds: Bounds,
) -> Result<Counts, TextRefusal>
    requires p_in_bounds { position_width * p ≤ length coordinates.now }
    requires f_in_bounds { 4 * f ≤ length sides.now }
    requires n_in_bounds { n ≤ length listed.now }
    requires n_in_bounds_2 { n ≤ length beside.now }
    requires f_in_bounds_2 { 4 * f ≤ length firsts.now }
    ensures { ◌≡◌ {A = TextOutcome}
        (record { answer = result; tables = mesh_of positions.new points.new edges.new intervals.new faces.new })
        (told_outcome
        (build (limits_of bounds)
        (lists_in version (take (position_width * p) coordinates.now) (take (4 * f) sides.now) (take (4 * f) firsts.now)
        (take n listed.now) (take n beside.now))
        (mesh_of positions.old points.old edges.old intervals.old faces.old))) }
{
    let a = POSITION_WIDTH * p;
    let b = 4 * f;
    let lists = LentLists {
        version,
        coordinates: &coordinates[..a],
        sides: &sides[..b],
        firsts: &firsts[..b],
        listed: &listed[..n],
        beside: &beside[..n],
    };
    let built = build(&lists, positions, points, edges, intervals, faces, bounds);
    told(built)
}

// Reads the text into the lists, which have room for the general limits, and builds from what was read.
fn read_and_build(
    text: &[u8],
    bounds: Bounds,
    coordinates: &mut [f64],
    sides: &mut [u32],
    firsts: &mut [u32],
    listed: &mut [u32],
    beside: &mut [f64],
    positions: &mut [f64],
    points: &mut [u32],
    edges: &mut [u32],
    intervals: &mut [f64],
    faces: &mut [u32],
) -> Result<Counts, TextRefusal>
    requires points_in_bounds { position_width * general_limits.points ≤ length coordinates.old }
    requires faces_in_bounds { 4 * general_limits.faces ≤ length sides.old }
    requires listed_in_bounds { general_limits.listed ≤ length listed.old }
    requires listed_in_bounds_2 { general_limits.listed ≤ length beside.old }
    requires faces_in_bounds_2 { 4 * general_limits.faces ≤ length firsts.old }
    ensures { ◌≡◌ {A = TextOutcome}
        (record { answer = result; tables = mesh_of positions.new points.new edges.new intervals.new faces.new })
        (build_text_if false bounds text.now
        (mesh_of positions.old points.old edges.old intervals.old faces.old)) }
{
    match read_text(
        text,
        bounds.most(),
        coordinates,
        sides,
        firsts,
        listed,
        beside,
    ) {
        Ok((version, c)) => build_first(
            version,
            coordinates,
            sides,
            firsts,
            listed,
            beside,
            c.points,
            c.faces,
            c.listed,
            positions,
            points,
            edges,
            intervals,
            faces,
            bounds,
        ),
        Err(ReadingGround::NotText) => Err(TextRefusal::NotText),
        Err(ReadingGround::OverLimits) => Err(TextRefusal::Refused(Ground::OverCounts)),
    }
}

// Builds a mesh from a text of any bytes in the lent tables, within the bounds.
pub fn build_text(
    text: &[u8],
    bounds: Bounds,
    positions: &mut [f64],
    points: &mut [u32],
    edges: &mut [u32],
    intervals: &mut [f64],
    faces: &mut [u32],
) -> Result<Counts, TextRefusal>
    ensures outcome { ◌≡◌ {A = TextOutcome}
        (record { answer = result; tables = mesh_of positions.new points.new edges.new intervals.new faces.new })
        (build_text bounds text.now
        (mesh_of positions.old points.old edges.old intervals.old faces.old)) }
    ensures told { text_numbers result
        ≡ text_numbers (build_text bounds text.now
        (mesh_of positions.old points.old edges.old intervals.old faces.old)).answer }
{
    if is_too_long(bounds, text.len()) {
        return Err(TextRefusal::Refused(Ground::OverCounts));
    }
    let mut coordinates = [0.0; POSITION_WIDTH * MOST_POINTS];
    let mut sides = [0u32; 4 * MOST_FACES];
    let mut firsts = [0u32; 4 * MOST_FACES];
    let mut listed = [0u32; MOST_LISTED];
    let mut beside = [0.0; MOST_LISTED];
    read_and_build(
        text,
        bounds,
        &mut coordinates,
        &mut sides,
        &mut firsts,
        &mut listed,
        &mut beside,
        positions,
        points,
        edges,
        intervals,
        faces,
    )
}
