// The mender of version 2 texts (document 02, §8): whole faces turned round in place, so that neighbours run opposite ways.
// Not here: the reader (`text_reading`), a text mended by its lists (`text_rewriting`), the definition and its claims (`mended_texts`).
// Contract: `mend_text`. Definitions: `Mending` of `mended_texts`; between the stages `Said` of `text_rewriting`. Laws: `proofs/Laws.antt`.
// The lists of a text are local arrays of the sizes that the general limits allow, with those of the choice below 1 MiB of stack.
#![tactic(auto)]

ghost use Rattle.std.specs.Prelude.{◌≡◌, true, ◌*◌, ◌≤◌, length, take};
ghost use Rattle.tables.specs.Layout.{position_width};
ghost use Rattle.text_numbers.specs.Form.{bytes, stands};
ghost use Rattle.built_meshes.specs.Lists.{general_limits};
ghost use Rattle.mended_texts.specs.Mending.{MendOutcome, mend_text, text_mending_number};
ghost use Rattle.text_rewriting.specs.Said.{Said};

use building_tests::{Bounds, MOST_FACES, MOST_LISTED, MOST_POINTS};
use built_meshes::Ground;
use mended_texts::TextMending;
use mesh_text::ReadingGround;
use tables::POSITION_WIDTH;
use text_numbers::stands;
use text_reading::read_text;
use text_rewriting::mend_by_lists;

// Mends a text by the first entries of the lists: 3 for each of p points, 4 side lengths and first points for each of f faces, n listed
// points and intervals.
fn mend_first(
    text: &mut [u8],
    coordinates: &[f64],
    sides: &mut [u32],
    firsts: &mut [u32],
    listed: &mut [u32],
    beside: &mut [f64],
    p: usize,
    f: usize,
    n: usize,
) -> TextMending
    requires p_in_bounds { position_width * p ≤ length coordinates.now }
    requires f_in_bounds { 4 * f ≤ length sides.old }
    requires f_in_bounds_2 { 4 * f ≤ length firsts.old }
    requires n_in_bounds { n ≤ length listed.old }
    requires n_in_bounds_2 { n ≤ length beside.old }
    requires said { Said text.old (take (position_width * p) coordinates.now) (take (4 * f) sides.old) (take (4 * f) firsts.old)
        (take n listed.old) (take n beside.old) }
    ensures { ◌≡◌ {A = MendOutcome} (record { answer = result; text = text.new }) (mend_text text.old) }
{
    let a = POSITION_WIDTH * p;
    let b = 4 * f;
    mend_by_lists(
        text,
        &coordinates[..a],
        &mut sides[..b],
        &mut firsts[..b],
        &mut listed[..n],
        &mut beside[..n],
    )
}

// Reads a text with the head of version 2 into the lists, which have room for the general limits, and mends it.
fn read_and_mend(
    text: &mut [u8],
    coordinates: &mut [f64],
    sides: &mut [u32],
    firsts: &mut [u32],
    listed: &mut [u32],
    beside: &mut [f64],
) -> TextMending
    requires points_in_bounds { position_width * general_limits.points ≤ length coordinates.old }
    requires faces_in_bounds { 4 * general_limits.faces ≤ length sides.old }
    requires faces_in_bounds_2 { 4 * general_limits.faces ≤ length firsts.old }
    requires listed_in_bounds { general_limits.listed ≤ length listed.old }
    requires listed_in_bounds_2 { general_limits.listed ≤ length beside.old }
    requires bytes_value { stands text.old 0 (bytes "[mesh 2]\n") ≡ true }
    ensures { ◌≡◌ {A = MendOutcome} (record { answer = result; text = text.new }) (mend_text text.old) }
{
    let bounds = Bounds::General;
    match read_text(
        text,
        bounds.most(),
        coordinates,
        sides,
        firsts,
        listed,
        beside,
    ) {
        Ok((version, c)) => mend_first(
            text,
            coordinates,
            sides,
            firsts,
            listed,
            beside,
            c.points,
            c.faces,
            c.listed,
        ),
        Err(ReadingGround::NotText) => TextMending::NotText,
        Err(ReadingGround::OverLimits) => TextMending::Refused(Ground::OverCounts),
    }
}

// Mends a version 2 text of any bytes in place, or says why not and leaves it as it is.
pub fn mend_text(text: &mut [u8]) -> TextMending
    ensures outcome { ◌≡◌ {A = MendOutcome} (record { answer = result; text = text.new }) (mend_text text.old) }
    ensures told { text_mending_number result ≡ text_mending_number (mend_text text.old).answer }
{
    if !stands(text, 0, b"[mesh 2]\n") {
        return TextMending::NotText;
    }
    let mut coordinates = [0.0; POSITION_WIDTH * MOST_POINTS];
    let mut sides = [0u32; 4 * MOST_FACES];
    let mut firsts = [0u32; 4 * MOST_FACES];
    let mut listed = [0u32; MOST_LISTED];
    let mut beside = [0.0; MOST_LISTED];
    read_and_mend(
        text,
        &mut coordinates,
        &mut sides,
        &mut firsts,
        &mut listed,
        &mut beside,
    )
}
