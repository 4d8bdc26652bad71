// The mender's grounds face by face (document 02, §8): 10, 11, 12, 43 as in building, then 14 for the edges of the face.
// Not here: ground 20 (`mending`), grounds 2, 3 and 44 (`list_mending`), the search of an edge (`shared_edges`).
// Contract: `mend_faces`. Definitions: `Mending` of `mended_lists`; `specs/Shown.antt`. Laws: `proofs/Laws.antt`.
#![tactic(auto)]

ghost use Rattle.std.specs.Prelude.{◌≡◌, not, List, [], ℕ, ◌+◌, ◌*◌, ◌/◌, ◌≤◌, ◌<◌, Float, length};
ghost use Rattle.tables.specs.Layout.{position_width};
ghost use Rattle.audited_meshes.specs.Folds.{every};
ghost use Rattle.built_meshes.specs.Lists.{size, offset};
ghost use Rattle.built_meshes.specs.Faces.{face_verdict};
ghost use Rattle.built_meshes.specs.declared.Version.TheVariants.{Two};
ghost use Rattle.building_tests.specs.Lent.{lists, lists_in};
ghost use Rattle.mended_lists.specs.Edges.{places_of};
ghost use Rattle.mended_lists.specs.Mending.{forgiven, then_edges, faces_mend};
ghost use Rattle.face_places.specs.Spread.{Spread};
ghost use Rattle.shared_edges.specs.Chains.{third_at, PlacesEntered};
ghost use Rattle.face_mending.specs.Shown.{FaceRoom, FacesRoom, TosShown, EnteredIf};

use building_tests::faces::{face_size, face_verdict};
use built_meshes::{Ground, Version};
use shared_edges::enter_places;

// A verdict of building, but for 13.
fn forgive(v: Result<(), Ground>) -> Result<(), Ground>
    ensures { result ≡ forgiven v }
{
    match v {
        Err(Ground::NonRectangularFace) => Ok(()),
        other => other,
    }
}

// The first of the grounds 10, 11, 12, 43 and 14 that holds of face f, whose n listed points stand from the place a on; its places are entered.
fn enter_face(
    sides: &[u32],
    firsts: &[u32],
    listed: &[u32],
    beside: &[f64],
    tos: &[u32],
    heads: &mut [u32],
    links: &mut [u32],
    mates: &mut [u32],
    seconds: &mut [u32],
    np: usize,
    f: usize,
    a: usize,
    n: usize,
) -> Result<(), Ground>
    requires face_room { FaceRoom sides.now firsts.now listed.now beside.now tos.now (length heads.old) links.old mates.old seconds.old np f a n }
    requires places_entered { PlacesEntered listed.now tos.now heads.old links.old mates.old seconds.old a }
    ensures value { (cs : List Float) → result ≡ then_edges (forgiven (face_verdict (lists_in Two cs sides.now firsts.now
        listed.now beside.now) np f a)) (every n (λ i. not (third_at listed.now tos.now (a + i)))) }
    ensures entered_if { EnteredIf listed.now tos.now heads.new links.new mates.new
        seconds.new (a + n) result }
{
    forgive(face_verdict(Version::Two, sides, firsts, listed, beside, np, f, a, n))?;
    if enter_places(listed, tos, heads, links, mates, seconds, a, n) {
        return Ok(());
    }
    Err(Ground::EdgeTripleFace)
}

// The first of these grounds, face by face; the places of all faces are entered if there is none.
pub fn mend_faces(
    sides: &[u32],
    firsts: &[u32],
    listed: &[u32],
    beside: &[f64],
    tos: &[u32],
    heads: &mut [u32],
    links: &mut [u32],
    mates: &mut [u32],
    seconds: &mut [u32],
    np: usize,
) -> Result<(), Ground>
    requires faces_room { FacesRoom sides.now firsts.now listed.now beside.now tos.now (length heads.old) links.old mates.old seconds.old np }
    requires tos_shown { TosShown sides.now listed.now tos.now }
    requires places_entered { PlacesEntered listed.now tos.now heads.old links.old mates.old seconds.old 0 }
    ensures value { (cs : List Float) → length cs / position_width ≡ np → result ≡ faces_mend (lists_in Two cs sides.now firsts.now
        listed.now beside.now) (places_of (lists [] sides.now listed.now []))
        (length sides.now / 4) }
    ensures entered_if { EnteredIf listed.now tos.now heads.new links.new mates.new
        seconds.new (length listed.now) result }
{
    let nf = sides.len() / 4;
    let mut a = 0;
    for f in 0..nf {
        let n = face_size(sides, f);
        enter_face(
            sides, firsts, listed, beside, tos, heads, links, mates, seconds, np, f, a, n,
        )?;
        a += n;
    }
    Ok(())
}
