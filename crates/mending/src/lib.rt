// The mender's grounds of the faces and of the whole but for 44 (document 02, §8), in local lists.
// Not here: the choice of faces (`face_choices`).
// Contract: `pair_faces`. Definitions: `Mending` of `mended_lists`; `specs/Shared.antt`. Laws: `proofs/Laws.antt`.
#![tactic(auto)]

ghost use Rattle.std.specs.Prelude.{◌≡◌, List, [], ℕ, ◌/◌, ◌≤◌, Float, length};
ghost use Rattle.tables.specs.Layout.{position_width};
ghost use Rattle.built_meshes.specs.Lists.{offset};
ghost use Rattle.built_meshes.specs.declared.Version.TheVariants.{Two};
ghost use Rattle.building_tests.specs.Lent.{lists, lists_in};
ghost use Rattle.mended_lists.specs.Edges.{places_of};
ghost use Rattle.mended_lists.specs.Mending.{faces_mend, edges_shared};
ghost use Rattle.face_mending.specs.Shown.{TosShown};
ghost use Rattle.mending.specs.Shared.{PairingRoom, then_shared, MatesIf};

use building_tests::{MOST_LISTED, MOST_POINTS};
use built_meshes::Ground;
use face_mending::mend_faces;
use shared_edges::are_shared;

// The first of the grounds 10, 11, 12, 43, 14 and 20 that holds of faces whose places run to the points `tos`; else each place has its mate.
pub fn pair_faces(
    sides: &[u32],
    firsts: &[u32],
    listed: &[u32],
    beside: &[f64],
    tos: &[u32],
    mates: &mut [u32],
    np: usize,
) -> Result<(), Ground>
    requires pairing_room { PairingRoom sides.now firsts.now listed.now beside.now tos.now mates.old np }
    requires tos_shown { TosShown sides.now listed.now tos.now }
    ensures value { (cs : List Float) → length cs / position_width ≡ np → result ≡ then_shared (faces_mend (lists_in Two cs sides.now
        firsts.now listed.now beside.now) (places_of (lists [] sides.now listed.now []))
        (length sides.now / 4)) (edges_shared (places_of (lists [] sides.now listed.now []))) }
    ensures mates_if { MatesIf (places_of (lists [] sides.now listed.now [])) mates.new result }
{
    let mut heads = [0u32; MOST_POINTS];
    let mut links = [0u32; MOST_LISTED];
    let mut seconds = [0u32; MOST_LISTED];
    mend_faces(
        sides,
        firsts,
        listed,
        beside,
        tos,
        &mut heads,
        &mut links,
        mates,
        &mut seconds,
        np,
    )?;
    if are_shared(mates, &seconds) {
        return Ok(());
    }
    Err(Ground::MissingFace)
}
