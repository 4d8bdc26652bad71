// What is told of an edge of a mesh text of any bytes: its points, and the first face before its own that runs it the same way.
// Not here: the definition and what is claimed of it (`explained_edges`), where the text is refused (`text_places`), the lists alone
// (`edge_lookups`).
// Contract: `text_edge`. Definition: `specs/TextEdges.antt` of `explained_edges`. Laws: `proofs/Laws.antt`.
// The lists of a text are local arrays of the sizes that the general limits allow, below 430 KiB of stack.
#![tactic(auto)]

ghost use Rattle.std.specs.Prelude.{◌≡◌, false, [], ◌*◌, ◌≤◌, length, take};
ghost use Rattle.tables.specs.Layout.{position_width};
ghost use Rattle.building_tests.specs.Lent.{lists};
ghost use Rattle.built_meshes.specs.Lists.{general_limits};
ghost use Rattle.text_meshes.specs.TextBuilding.{is_too_long};
ghost use Rattle.told_edges.specs.Told.{told_edge};
ghost use Rattle.explained_edges.specs.TextEdges.{text_edge};

use building_tests::{Bounds, MOST_FACES, MOST_LISTED, MOST_POINTS};
use edge_lookups::told_edge;
use tables::POSITION_WIDTH;
use text_answers::is_too_long;
use text_reading::read_text;
use told_edges::ToldEdge;

// The edge at place i of face f, of the first nf faces and n listed points of the lists.
fn told_first(sides: &[u32], listed: &[u32], nf: usize, n: usize, f: usize, i: usize) -> ToldEdge
    requires nf_in_bounds { 4 * nf ≤ length sides.now }
    requires n_in_bounds { n ≤ length listed.now }
    requires nf_bound { nf ≤ 4096 }
    ensures { result ≡ told_edge (lists [] (take (4 * nf) sides.now) (take n listed.now) []) f i }
{
    let b = 4 * nf;
    told_edge(&sides[..b], &listed[..n], f, i)
}

// Reads the text into the lists, which have room for the general limits, and tells the edge by what was read.
fn read_and_tell(
    text: &[u8],
    bounds: Bounds,
    coordinates: &mut [f64],
    sides: &mut [u32],
    firsts: &mut [u32],
    listed: &mut [u32],
    beside: &mut [f64],
    f: usize,
    i: usize,
) -> ToldEdge
    requires points_in_bounds { position_width * general_limits.points ≤ length coordinates.old }
    requires faces_in_bounds { 4 * general_limits.faces ≤ length sides.old }
    requires listed_in_bounds { general_limits.listed ≤ length listed.old }
    requires listed_in_bounds_2 { general_limits.listed ≤ length beside.old }
    requires faces_in_bounds_2 { 4 * general_limits.faces ≤ length firsts.old }
    requires text_value { is_too_long bounds (length text.now) ≡ false }
    ensures { result ≡ text_edge bounds text.now f i }
{
    match read_text(
        text,
        bounds.most(),
        coordinates,
        sides,
        firsts,
        listed,
        beside,
    ) {
        Ok((_, c)) => told_first(sides, listed, c.faces, c.listed, f, i),
        Err(_) => ToldEdge::Missing,
    }
}

// The edge at place i of face f of a text of any bytes, within the bounds.
pub fn text_edge(text: &[u8], bounds: Bounds, f: usize, i: usize) -> ToldEdge
    ensures { result ≡ text_edge bounds text.now f i }
{
    if is_too_long(bounds, text.len()) {
        return ToldEdge::Missing;
    }
    let mut coordinates = [0.0; POSITION_WIDTH * MOST_POINTS];
    let mut sides = [0u32; 4 * MOST_FACES];
    let mut firsts = [0u32; 4 * MOST_FACES];
    let mut listed = [0u32; MOST_LISTED];
    let mut beside = [0.0; MOST_LISTED];
    read_and_tell(
        text,
        bounds,
        &mut coordinates,
        &mut sides,
        &mut firsts,
        &mut listed,
        &mut beside,
        f,
        i,
    )
}
