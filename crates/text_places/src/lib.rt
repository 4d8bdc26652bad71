// Where a mesh text of any bytes is refused: the line, the face and the edge of the first check that is met, for the grounds 10 to 15 and 43.
// Not here: which ground it is (`text_building`), what is met in the faces (`face_grounds`), the definition and its claims (`refusal_places`).
// Contract: `text_place`. Definitions: `specs/TextPlaces.antt`. Claim: that of `explained_texts`. Laws: `proofs/Laws.antt`.
// The lists of a text and those of its places are local arrays of the sizes that the general limits allow, below 760 KiB of stack.
#![tactic(auto)]

ghost use Rattle.std.specs.Prelude.{◌≡◌, false, List, [], ℕ, ◌*◌, ◌/◌, ◌≤◌, Float, length, take};
ghost use Rattle.tables.specs.Layout.{position_width};
ghost use Rattle.building_tests.specs.Lent.{lists_in, limits_of};
ghost use Rattle.built_meshes.specs.Lists.{general_limits, points_of};
ghost use Rattle.refusal_places.specs.Spots.{first_spot, spotted, where_of};
ghost use Rattle.text_places.specs.TextPlaces.{SpotRoom, FewFaces, place_at_check, text_place_if, text_place};

use building_lists::counts_fit;
use building_tests::{Bounds, MOST_FACES, MOST_LISTED, MOST_POINTS};
use built_meshes::{LentLists, Version};
use face_grounds::faces_spot;
use face_places::spread;
use list_numbers::numbers_fit;
use refusal_places::Spot;
use tables::POSITION_WIDTH;
use text_answers::is_too_long;
use text_reading::read_text;

// Where a ground is met in a text: the line from 1, the face and its edge from 0. What there is none of is `NOWHERE`.
#[derive(Clone, Copy)]
pub struct TextPlace {
    pub line: usize,
    pub face: usize,
    pub edge: usize,
}

// The number that stands for no line, no face or no edge.
pub const NOWHERE: usize = 0xffff_ffff_ffff_ffff;

// What is met first in the faces of lists whose lengths agree.
fn first_spot(
    version: Version,
    sides: &[u32],
    firsts: &[u32],
    listed: &[u32],
    beside: &[f64],
    np: usize,
) -> Result<(), Spot>
    requires { SpotRoom sides.now firsts.now listed.now beside.now np }
    ensures { (cs : List Float) → length cs / position_width ≡ np →
        result ≡ first_spot (lists_in version cs sides.now firsts.now listed.now beside.now) }
{
    let mut tos = [0u32; MOST_LISTED];
    let mut owners = [0u32; MOST_LISTED];
    let mut heads = [0u32; MOST_POINTS];
    let mut links = [0u32; MOST_LISTED];
    let mut mates = [0u32; MOST_LISTED];
    let mut seconds = [0u32; MOST_LISTED];
    spread(sides, listed, &mut tos, &mut owners);
    faces_spot(
        version,
        sides,
        firsts,
        listed,
        beside,
        &tos,
        &mut heads,
        &mut links,
        &mut mates,
        &mut seconds,
        np,
    )
}

// What is met first in the faces of lists that are within the bounds and whose numbers are fit.
fn spot_in(
    version: Version,
    coordinates: &[f64],
    sides: &[u32],
    firsts: &[u32],
    listed: &[u32],
    beside: &[f64],
    bounds: Bounds,
) -> Result<(), Spot>
    requires { length firsts.now ≡ length sides.now }
    ensures { result ≡ spotted (limits_of bounds)
        (lists_in version coordinates.now sides.now firsts.now listed.now beside.now) }
{
    let lists = LentLists {
        version,
        coordinates,
        sides,
        firsts,
        listed,
        beside,
    };
    if !counts_fit(&lists, bounds) {
        return Ok(());
    }
    if !numbers_fit(coordinates, beside) {
        return Ok(());
    }
    let np = coordinates.len() / POSITION_WIDTH;
    first_spot(version, sides, firsts, listed, beside, np)
}

// The place in a text with np points: the head, a line for each point, then a line for each face.
fn place_at(np: usize, spot: Result<(), Spot>) -> TextPlace
    requires np_bound { np ≤ 4096 }
    requires few_faces { FewFaces spot }
    ensures { result ≡ place_at_check np (where_of spot) }
{
    match spot {
        Ok(()) => TextPlace {
            line: NOWHERE,
            face: NOWHERE,
            edge: NOWHERE,
        },
        Err(Spot::Face(f, _)) => TextPlace {
            line: np + f + 2,
            face: f,
            edge: NOWHERE,
        },
        Err(Spot::Edge(f, i, _)) => TextPlace {
            line: np + f + 2,
            face: f,
            edge: i,
        },
    }
}

// The place in a text whose numbers are the first entries of the lists: 3 for each of p points, 4 side lengths and first points for each of f
// faces, n listed points and intervals.
fn place_first(
    version: Version,
    coordinates: &[f64],
    sides: &[u32],
    firsts: &[u32],
    listed: &[u32],
    beside: &[f64],
    p: usize,
    f: usize,
    n: usize,
    bounds: Bounds,
) -> TextPlace
    requires p_in_bounds { position_width * p ≤ length coordinates.now }
    requires f_in_bounds { 4 * f ≤ length sides.now }
    requires n_in_bounds { n ≤ length listed.now }
    requires n_in_bounds_2 { n ≤ length beside.now }
    requires f_in_bounds_2 { 4 * f ≤ length firsts.now }
    requires p_bound { p ≤ 4096 }
    requires f_bound { f ≤ 4096 }
    ensures { result ≡ place_at_check p (where_of (spotted (limits_of bounds)
        (lists_in version (take (position_width * p) coordinates.now) (take (4 * f) sides.now) (take (4 * f) firsts.now)
        (take n listed.now) (take n beside.now)))) }
{
    let a = POSITION_WIDTH * p;
    let b = 4 * f;
    let spot = spot_in(
        version,
        &coordinates[..a],
        &sides[..b],
        &firsts[..b],
        &listed[..n],
        &beside[..n],
        bounds,
    );
    place_at(p, spot)
}

// Reads the text into the lists, which have room for the general limits, and finds the place in what was read.
fn read_and_place(
    text: &[u8],
    bounds: Bounds,
    coordinates: &mut [f64],
    sides: &mut [u32],
    firsts: &mut [u32],
    listed: &mut [u32],
    beside: &mut [f64],
) -> TextPlace
    requires points_in_bounds { position_width * general_limits.points ≤ length coordinates.old }
    requires faces_in_bounds { 4 * general_limits.faces ≤ length sides.old }
    requires listed_in_bounds { general_limits.listed ≤ length listed.old }
    requires listed_in_bounds_2 { general_limits.listed ≤ length beside.old }
    requires faces_in_bounds_2 { 4 * general_limits.faces ≤ length firsts.old }
    ensures { result ≡ text_place_if false bounds text.now }
{
    match read_text(
        text,
        bounds.most(),
        coordinates,
        sides,
        firsts,
        listed,
        beside,
    ) {
        Ok((version, c)) => place_first(
            version,
            coordinates,
            sides,
            firsts,
            listed,
            beside,
            c.points,
            c.faces,
            c.listed,
            bounds,
        ),
        Err(_) => place_at(0, Ok(())),
    }
}

// Where a text of any bytes is refused, within the bounds.
pub fn text_place(text: &[u8], bounds: Bounds) -> TextPlace
    ensures { result ≡ text_place bounds text.now }
{
    if is_too_long(bounds, text.len()) {
        return place_at(0, Ok(()));
    }
    let mut coordinates = [0.0; POSITION_WIDTH * MOST_POINTS];
    let mut sides = [0u32; 4 * MOST_FACES];
    let mut firsts = [0u32; 4 * MOST_FACES];
    let mut listed = [0u32; MOST_LISTED];
    let mut beside = [0.0; MOST_LISTED];
    read_and_place(
        text,
        bounds,
        &mut coordinates,
        &mut sides,
        &mut firsts,
        &mut listed,
        &mut beside,
    )
}
