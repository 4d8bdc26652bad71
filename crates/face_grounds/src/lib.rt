// The first ground that is met in the faces of lists, and where (documents 01 and 02): face by face 10, 11, 12, 43 and 13, then 14 and 15 edge
// by edge.
// Not here: the grounds of the lists and of the whole (`building`), the search of an edge (`shared_edges`), local lists (`first_grounds`).
// Contract: `faces_spot`. Definitions: `Spots` of `refusal_places`; `specs/Found.antt`. Laws: `proofs/Laws.antt`.
#![tactic(auto)]

ghost use Rattle.std.specs.Prelude.{◌≡◌, List, [], ℕ, ◌+◌, ◌*◌, ◌/◌, ◌≤◌, ◌<◌, Float, length};
ghost use Rattle.tables.specs.Layout.{position_width};
ghost use Rattle.built_meshes.specs.Faces.{face_verdict};
ghost use Rattle.building_tests.specs.Lent.{lists, lists_in};
ghost use Rattle.mended_lists.specs.Edges.{places_of};
ghost use Rattle.face_mending.specs.Shown.{FaceRoom, FacesRoom, TosShown};
ghost use Rattle.shared_edges.specs.Chains.{mate_at, third_at, LinksRoom, PairRoom, PlacesRoom, PlacesEntered};
ghost use Rattle.refusal_places.specs.Spots.{then_spot, spot_at, verdict_spot, faces_spot};
ghost use Rattle.face_grounds.specs.Found.{runs_with_at, edges_spot_at, FoundIf};

use building_tests::faces::{face_size, face_verdict};
use built_meshes::{Ground, Version};
use refusal_places::Spot;
use shared_edges::enter_places;
use tables::index;

// Whether place k begins at the same point as its mate, which the link m leads to: m is 0, or 1 more than a place before k.
fn runs_with(listed: &[u32], m: u32, k: usize) -> bool
    requires k_in_bounds { k < length listed.now }
    requires m_le_k { m ≤ k }
    ensures { result ≡ runs_with_at listed.now m k }
{
    if m == 0 {
        return false;
    }
    let j = index(m - 1);
    listed[j] == listed[k]
}

// Enters place k, which is place i of face f, and says what is met there.
fn enter_edge(
    listed: &[u32],
    tos: &[u32],
    heads: &mut [u32],
    links: &mut [u32],
    mates: &mut [u32],
    seconds: &mut [u32],
    f: usize,
    i: usize,
    k: usize,
) -> Result<(), Spot>
    requires links_room { LinksRoom listed.now tos.now (length heads.old) links.old k }
    requires pair_room { PairRoom mates.old seconds.old k }
    requires places_entered { PlacesEntered listed.now tos.now heads.old links.old mates.old seconds.old k }
    ensures value { result ≡ spot_at f i (third_at listed.now tos.now k)
        (runs_with_at listed.now (mate_at listed.now tos.now k) k) }
    ensures found_if { FoundIf listed.now tos.now heads.new links.new mates.new
        seconds.new (k + 1) result }
{
    if !enter_places(listed, tos, heads, links, mates, seconds, k, 1) {
        return Err(Spot::Edge(f, i, Ground::EdgeTripleFace));
    }
    let m = mates[k];
    if runs_with(listed, m, k) {
        return Err(Spot::Edge(f, i, Ground::SameWay));
    }
    Ok(())
}

// Enters the n places of face f, which stand from place a on, and says what is met first; past that no more are entered.
fn enter_edges(
    listed: &[u32],
    tos: &[u32],
    heads: &mut [u32],
    links: &mut [u32],
    mates: &mut [u32],
    seconds: &mut [u32],
    f: usize,
    a: usize,
    n: usize,
) -> Result<(), Spot>
    requires places_room { PlacesRoom listed.now tos.now (length heads.old) links.old mates.old seconds.old a n }
    requires places_entered { PlacesEntered listed.now tos.now heads.old links.old mates.old seconds.old a }
    ensures value { result ≡ edges_spot_at listed.now tos.now f a n }
    ensures found_if { FoundIf listed.now tos.now heads.new links.new mates.new
        seconds.new (a + n) result }
{
    for i in 0..n {
        enter_edge(listed, tos, heads, links, mates, seconds, f, i, a + i)?;
    }
    Ok(())
}

// What is met first in face f, whose n listed points stand from the place a on; its places are entered.
fn enter_face(
    version: Version,
    sides: &[u32],
    firsts: &[u32],
    listed: &[u32],
    beside: &[f64],
    tos: &[u32],
    heads: &mut [u32],
    links: &mut [u32],
    mates: &mut [u32],
    seconds: &mut [u32],
    np: usize,
    f: usize,
    a: usize,
    n: usize,
) -> Result<(), Spot>
    requires face_room { FaceRoom sides.now firsts.now listed.now beside.now tos.now (length heads.old) links.old mates.old seconds.old np f a n }
    requires places_entered { PlacesEntered listed.now tos.now heads.old links.old mates.old seconds.old a }
    ensures value { (cs : List Float) → result ≡ then_spot (verdict_spot f (face_verdict (lists_in version cs sides.now firsts.now
        listed.now beside.now) np f a)) (edges_spot_at listed.now tos.now f a n) }
    ensures found_if { FoundIf listed.now tos.now heads.new links.new mates.new
        seconds.new (a + n) result }
{
    match face_verdict(version, sides, firsts, listed, beside, np, f, a, n) {
        Err(g) => Err(Spot::Face(f, g)),
        Ok(()) => enter_edges(listed, tos, heads, links, mates, seconds, f, a, n),
    }
}

// What is met first, face by face; the places of all faces are entered if nothing is.
pub fn faces_spot(
    version: Version,
    sides: &[u32],
    firsts: &[u32],
    listed: &[u32],
    beside: &[f64],
    tos: &[u32],
    heads: &mut [u32],
    links: &mut [u32],
    mates: &mut [u32],
    seconds: &mut [u32],
    np: usize,
) -> Result<(), Spot>
    requires faces_room { FacesRoom sides.now firsts.now listed.now beside.now tos.now (length heads.old) links.old mates.old seconds.old np }
    requires tos_shown { TosShown sides.now listed.now tos.now }
    requires places_entered { PlacesEntered listed.now tos.now heads.old links.old mates.old seconds.old 0 }
    ensures value { (cs : List Float) → length cs / position_width ≡ np → result ≡ faces_spot (lists_in version cs sides.now firsts.now
        listed.now beside.now) (places_of (lists [] sides.now listed.now []))
        (length sides.now / 4) }
    ensures found_if { FoundIf listed.now tos.now heads.new links.new mates.new
        seconds.new (length listed.now) result }
{
    let nf = sides.len() / 4;
    let mut a = 0;
    for f in 0..nf {
        let n = face_size(sides, f);
        enter_face(
            version, sides, firsts, listed, beside, tos, heads, links, mates, seconds, np, f, a, n,
        )?;
        a += n;
    }
    Ok(())
}
