// The mender over lists of version 2 (document 02, §8): the first of its grounds that holds, or else the faces to turn.
// Not here: the tests of grounds 2 and 3 (`building_lists`, `list_numbers`), those of the faces and of the whole (`mending`), the choice
// of faces (`face_choices`), the lists turned round.
// Contract: `find_turns`. Definitions: `Mending` of `mended_lists`; `specs/Turning.antt`. Laws: `proofs/Laws.antt`.
#![tactic(auto)]

ghost use Rattle.std.specs.Prelude.{◌≡◌, true, ◌/◌, ◌≤◌, length};
ghost use Rattle.built_meshes.specs.Lists.{general_limits, counts_fit};
ghost use Rattle.built_meshes.specs.declared.Version.TheVariants.{Two};
ghost use Rattle.building_tests.specs.Lent.{lists_in};
ghost use Rattle.mended_lists.specs.Mending.{mending_if, mending};
ghost use Rattle.face_choices.specs.Mates.{MatesFit, Chosen};
ghost use Rattle.list_mending.specs.Turning.{TurningRoom, TurnsIf};

use building_lists::counts_fit;
use building_tests::{Bounds, MOST_FACES, MOST_LISTED};
use built_meshes::{Ground, LentLists, Version};
use face_choices::choose_faces;
use face_places::spread;
use list_numbers::numbers_fit;
use mended_lists::Unmended;
use mending::pair_faces;
use tables::POSITION_WIDTH;

// Finds the faces to turn, as many as `turned` has room for, and says whether no choice works.
fn choose_turns(listed: &[u32], faces: &[u32], mates: &[u32], turned: &mut [bool]) -> bool
    requires turned_len_bound { length turned.old ≤ general_limits.faces }
    requires mates_fit { MatesFit listed.now faces.now mates.now (length turned.old) }
    ensures { Chosen listed.now faces.now mates.now turned.new result }
{
    let nf = turned.len();
    let mut ups = [0u32; MOST_FACES];
    let mut odds = [false; MOST_FACES];
    choose_faces(
        listed,
        faces,
        mates,
        &mut ups[..nf],
        &mut odds[..nf],
        turned,
    )
}

// The answer to lists that meet neither 2 nor 3, and the faces to turn; `tos`, `faces` and `mates` are of the places.
fn mend_places(
    coordinates: &[f64],
    sides: &[u32],
    firsts: &[u32],
    listed: &[u32],
    beside: &[f64],
    tos: &mut [u32],
    faces: &mut [u32],
    mates: &mut [u32],
    turned: &mut [bool],
) -> Result<(), Unmended>
    requires beside_value { counts_fit general_limits (lists_in Two coordinates.now sides.now firsts.now listed.now beside.now) ≡ true }
    requires turning_room { TurningRoom sides.now listed.now tos.old faces.old mates.old turned.old }
    ensures value { result ≡ mending_if true true
        (lists_in Two coordinates.now sides.now firsts.now listed.now beside.now) }
    ensures turns_if { TurnsIf
        (lists_in Two coordinates.now sides.now firsts.now listed.now beside.now)
        turned.new result }
{
    let np = coordinates.len() / POSITION_WIDTH;
    spread(sides, listed, tos, faces);
    match pair_faces(sides, firsts, listed, beside, tos, mates, np) {
        Err(g) => Err(Unmended::Refused(g)),
        Ok(()) => {
            if choose_turns(listed, faces, mates, turned) {
                return Err(Unmended::Twisted);
            }
            Ok(())
        }
    }
}

// The same in local lists of the places.
fn mend_counted(
    coordinates: &[f64],
    sides: &[u32],
    firsts: &[u32],
    listed: &[u32],
    beside: &[f64],
    turned: &mut [bool],
) -> Result<(), Unmended>
    requires turned_len { length turned.old ≡ general_limits.faces }
    requires beside_value { counts_fit general_limits (lists_in Two coordinates.now sides.now firsts.now listed.now beside.now) ≡ true }
    ensures value { result ≡ mending_if true true
        (lists_in Two coordinates.now sides.now firsts.now listed.now beside.now) }
    ensures turns_if { TurnsIf
        (lists_in Two coordinates.now sides.now firsts.now listed.now beside.now)
        turned.new result }
{
    let n = listed.len();
    let nf = sides.len() / 4;
    let mut tos = [0u32; MOST_LISTED];
    let mut faces = [0u32; MOST_LISTED];
    let mut mates = [0u32; MOST_LISTED];
    mend_places(
        coordinates,
        sides,
        firsts,
        listed,
        beside,
        &mut tos,
        &mut faces,
        &mut mates[..n],
        &mut turned[..nf],
    )
}

// The mender's answer to lists of version 2 of any content and lengths; if they can be mended, `turned` says of each face whether it is to
// be turned.
pub fn find_turns(
    coordinates: &[f64],
    sides: &[u32],
    firsts: &[u32],
    listed: &[u32],
    beside: &[f64],
    turned: &mut [bool],
) -> Result<(), Unmended>
    requires { length turned.old ≡ general_limits.faces }
    ensures value { result ≡ mending general_limits
        (lists_in Two coordinates.now sides.now firsts.now listed.now beside.now) }
    ensures turns_if { TurnsIf
        (lists_in Two coordinates.now sides.now firsts.now listed.now beside.now)
        turned.new result }
{
    let lists = LentLists {
        version: Version::Two,
        coordinates,
        sides,
        firsts,
        listed,
        beside,
    };
    if !counts_fit(&lists, Bounds::General) {
        return Err(Unmended::Refused(Ground::OverCounts));
    }
    if !numbers_fit(coordinates, beside) {
        return Err(Unmended::Refused(Ground::UnfitNumber));
    }
    mend_counted(coordinates, sides, firsts, listed, beside, turned)
}
