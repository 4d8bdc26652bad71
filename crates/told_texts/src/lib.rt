// What building answers to a mesh text of any bytes in tables with rows to spare, told without tables: the number of the answer.
// Not here: where a ground is met (`text_places`), what is met in the faces (`face_grounds`) and in the whole (`whole_tests`), the definition for
// lists and its claims (`whole_grounds`).
// Contract: `text_number`. Definitions: `specs/Told.antt`. Claim: that of `explained_texts`. Laws: `proofs/Laws.antt`.
// The lists of a text and those of its places are local arrays of the sizes that the general limits allow, below 760 KiB of stack.
#![tactic(auto)]

ghost use Rattle.std.specs.Prelude.{◌≡◌, true, false, List, [], ℕ, Ok, ◌*◌, ◌/◌, ◌≤◌, Float, length, take};
ghost use Rattle.tables.specs.Layout.{position_width};
ghost use Rattle.building_tests.specs.Lent.{lists_in, limits_of};
ghost use Rattle.built_meshes.specs.Lists.{general_limits};
ghost use Rattle.refusal_places.specs.Spots.{first_spot};
ghost use Rattle.text_places.specs.TextPlaces.{SpotRoom};
ghost use Rattle.whole_grounds.specs.Turning.{lists_met};
ghost use Rattle.told_texts.specs.Told.{Unpaired, Pairs, faces_met, verdict_number, told_if, told_number};

use answer_numbers::ground_number;
use building_lists::counts_fit;
use building_tests::{Bounds, MOST_FACES, MOST_LISTED, MOST_POINTS};
use built_meshes::{Ground, LentLists, Version};
use face_grounds::faces_spot;
use face_places::spread;
use list_numbers::numbers_fit;
use mesh_text::ReadingGround;
use refusal_places::Spot;
use tables::POSITION_WIDTH;
use text_answers::is_too_long;
use text_reading::read_text;
use whole_tests::whole_told;

// What is met first in the faces of lists whose lengths agree; if nothing is, the mates of their places and the places that they are mates of.
fn pair_spot(
    version: Version,
    sides: &[u32],
    firsts: &[u32],
    listed: &[u32],
    beside: &[f64],
    mates: &mut [u32],
    seconds: &mut [u32],
    np: usize,
) -> Result<(), Spot>
    requires spot_room { SpotRoom sides.now firsts.now listed.now beside.now np }
    requires unpaired { Unpaired listed.now mates.old seconds.old }
    ensures value { (cs : List Float) → length cs / position_width ≡ np →
        result ≡ first_spot (lists_in version cs sides.now firsts.now listed.now beside.now) }
    ensures pairs { result ≡ Ok tt → Pairs sides.now listed.now mates.new seconds.new }
{
    let mut tos = [0u32; MOST_LISTED];
    let mut owners = [0u32; MOST_LISTED];
    let mut heads = [0u32; MOST_POINTS];
    let mut links = [0u32; MOST_LISTED];
    spread(sides, listed, &mut tos, &mut owners);
    faces_spot(
        version, sides, firsts, listed, beside, &tos, &mut heads, &mut links, mates, seconds, np,
    )
}

// The ground that is met first in lists that pass 2 and 3: in the faces, then in the whole.
fn faces_and_whole(
    version: Version,
    sides: &[u32],
    firsts: &[u32],
    listed: &[u32],
    beside: &[f64],
    np: usize,
) -> Result<(), Ground>
    requires { SpotRoom sides.now firsts.now listed.now beside.now np }
    ensures { (cs : List Float) → length cs / position_width ≡ np →
        result ≡ faces_met (lists_in version cs sides.now firsts.now listed.now beside.now) }
{
    let n = listed.len();
    let mut mates = [0u32; MOST_LISTED];
    let mut seconds = [0u32; MOST_LISTED];
    match pair_spot(
        version,
        sides,
        firsts,
        listed,
        beside,
        &mut mates,
        &mut seconds,
        np,
    ) {
        Err(Spot::Face(_, g)) => Err(g),
        Err(Spot::Edge(_, _, g)) => Err(g),
        Ok(()) => whole_told(sides, listed, &mates[..n], &seconds[..n], np),
    }
}

// The ground that is met first in lists within the bounds.
fn met_in(
    version: Version,
    coordinates: &[f64],
    sides: &[u32],
    firsts: &[u32],
    listed: &[u32],
    beside: &[f64],
    bounds: Bounds,
) -> Result<(), Ground>
    requires { length firsts.now ≡ length sides.now }
    ensures { result ≡ lists_met (limits_of bounds)
        (lists_in version coordinates.now sides.now firsts.now listed.now beside.now) }
{
    let lists = LentLists {
        version,
        coordinates,
        sides,
        firsts,
        listed,
        beside,
    };
    if !counts_fit(&lists, bounds) {
        return Err(Ground::OverCounts);
    }
    if !numbers_fit(coordinates, beside) {
        return Err(Ground::UnfitNumber);
    }
    let np = coordinates.len() / POSITION_WIDTH;
    faces_and_whole(version, sides, firsts, listed, beside, np)
}

// The number of a verdict: 0, or that of the ground.
fn verdict_number(v: Result<(), Ground>) -> u32
    ensures { result ≡ verdict_number v }
{
    match v {
        Ok(()) => 0,
        Err(g) => ground_number(g),
    }
}

// The number of the answer to a text whose numbers are the first entries of the lists: 3 for each of p points, 4 side lengths and first points for
// each of f faces, n listed points and intervals.
fn number_first(
    version: Version,
    coordinates: &[f64],
    sides: &[u32],
    firsts: &[u32],
    listed: &[u32],
    beside: &[f64],
    p: usize,
    f: usize,
    n: usize,
    bounds: Bounds,
) -> u32
    requires p_in_bounds { position_width * p ≤ length coordinates.now }
    requires f_in_bounds { 4 * f ≤ length sides.now }
    requires n_in_bounds { n ≤ length listed.now }
    requires n_in_bounds_2 { n ≤ length beside.now }
    requires f_in_bounds_2 { 4 * f ≤ length firsts.now }
    ensures { result ≡ verdict_number (lists_met (limits_of bounds)
        (lists_in version (take (position_width * p) coordinates.now) (take (4 * f) sides.now) (take (4 * f) firsts.now)
        (take n listed.now) (take n beside.now))) }
{
    let a = POSITION_WIDTH * p;
    let b = 4 * f;
    let verdict = met_in(
        version,
        &coordinates[..a],
        &sides[..b],
        &firsts[..b],
        &listed[..n],
        &beside[..n],
        bounds,
    );
    verdict_number(verdict)
}

// Reads the text into the lists, which have room for the general limits, and answers by what was read.
fn read_and_number(
    text: &[u8],
    bounds: Bounds,
    coordinates: &mut [f64],
    sides: &mut [u32],
    firsts: &mut [u32],
    listed: &mut [u32],
    beside: &mut [f64],
) -> u32
    requires points_in_bounds { position_width * general_limits.points ≤ length coordinates.old }
    requires faces_in_bounds { 4 * general_limits.faces ≤ length sides.old }
    requires listed_in_bounds { general_limits.listed ≤ length listed.old }
    requires listed_in_bounds_2 { general_limits.listed ≤ length beside.old }
    requires faces_in_bounds_2 { 4 * general_limits.faces ≤ length firsts.old }
    ensures { result ≡ told_if false bounds text.now }
{
    match read_text(
        text,
        bounds.most(),
        coordinates,
        sides,
        firsts,
        listed,
        beside,
    ) {
        Ok((version, c)) => number_first(
            version,
            coordinates,
            sides,
            firsts,
            listed,
            beside,
            c.points,
            c.faces,
            c.listed,
            bounds,
        ),
        Err(ReadingGround::NotText) => 1,
        Err(ReadingGround::OverLimits) => 2,
    }
}

// The number of building's answer to a text of any bytes, within the bounds.
pub fn text_number(text: &[u8], bounds: Bounds) -> u32
    ensures { result ≡ told_number bounds text.now }
{
    if is_too_long(bounds, text.len()) {
        return 2;
    }
    let mut coordinates = [0.0; POSITION_WIDTH * MOST_POINTS];
    let mut sides = [0u32; 4 * MOST_FACES];
    let mut firsts = [0u32; 4 * MOST_FACES];
    let mut listed = [0u32; MOST_LISTED];
    let mut beside = [0.0; MOST_LISTED];
    read_and_number(
        text,
        bounds,
        &mut coordinates,
        &mut sides,
        &mut firsts,
        &mut listed,
        &mut beside,
    )
}
