// The edges that places of faces share (document 02, §8), whichever way they run: each place is paired with the last one before it on its
// edge. Places are chained by the lower of their two points, so that a search passes only places at that point.
// Not here: the tests of a face, the parts of the mesh (`face_parts`).
// Contracts: `enter_places`, `are_shared`. Definitions: `Edges` of `mended_lists`; `specs/Chains.antt`. Laws: `proofs/Laws.antt`.
#![tactic(auto)]

ghost use Rattle.std.specs.Prelude.{◌≡◌, not, ◌&&◌, ℕ, ◌+◌, ◌≤◌, ◌<◌, min, eqb, length, get_or};
ghost use Rattle.audited_meshes.specs.Folds.{every};
ghost use Rattle.mended_lists.specs.Edges.{latest};
ghost use Rattle.shared_edges.specs.Chains.{joins_at, low_at, mate_at, third_at, PairRoom, PlacesRoom, LinksRoom, ChainLinks, PlacesChained, PairedAt, PlacesEntered, EnteredTo};

use tables::index;

// Whether place j joins the points p and q, in either direction.
fn joins(listed: &[u32], tos: &[u32], j: usize, p: u32, q: u32) -> bool
    requires j_in_bounds { j < length listed.now }
    requires j_in_bounds_2 { j < length tos.now }
    ensures { result ≡ joins_at listed.now tos.now p q j }
{
    let from = listed[j];
    let to = tos[j];
    from == p && to == q || from == q && to == p
}

// 1 more than the last of k places that joins the points p and q, or 0, found along the chain that begins with the link from.
fn search(listed: &[u32], tos: &[u32], links: &[u32], k: usize, from: u32, p: u32, q: u32) -> u32
    requires k_in_bounds { k ≤ length listed.now }
    requires k_in_bounds_2 { k ≤ length tos.now }
    requires k_in_bounds_3 { k ≤ length links.now }
    requires chain_links { ChainLinks listed.now tos.now links.now k }
    requires from_value { from ≡ latest (λ i. eqb (low_at listed.now tos.now i) (min p q)) k }
    ensures { result ≡ latest (λ i. joins_at listed.now tos.now p q i) k }
{
    let mut link = from;
    while 0 < link {
        let j = index(link - 1);
        if joins(listed, tos, j, p, q) {
            return link;
        }
        link = links[j];
    }
    0
}

// Chains place k at the lower of its points, and finds its mate.
fn chain_place(listed: &[u32], tos: &[u32], heads: &mut [u32], links: &mut [u32], k: usize) -> u32
    requires links_room { LinksRoom listed.now tos.now (length heads.old) links.old k }
    requires places_chained { PlacesChained listed.now tos.now heads.old links.old k }
    ensures value { result ≡ mate_at listed.now tos.now k }
    ensures places_chained_2 { PlacesChained listed.now tos.now heads.new links.new (k + 1) }
{
    let p = listed[k];
    let q = tos[k];
    let low = index(p.min(q));
    let head = heads[low];
    let mate = search(listed, tos, links, k, head, p, q);
    links[k] = head;
    heads[low] = k as u32 + 1;
    mate
}

// Pairs place k with its mate m, and says whether that one has no mate yet.
fn pair_place(mates: &mut [u32], seconds: &mut [u32], k: usize, m: u32) -> bool
    requires pair_room { PairRoom mates.old seconds.old k }
    requires m_le_k { m ≤ k }
    ensures { PairedAt mates.old seconds.old mates.new seconds.new k m result }
{
    mates[k] = m;
    if m == 0 {
        return true;
    }
    let j = index(m - 1);
    seconds[j] = k as u32 + 1;
    mates[j] == 0
}

// Enters place k, and says whether it is not the third on its edge.
fn enter(
    listed: &[u32],
    tos: &[u32],
    heads: &mut [u32],
    links: &mut [u32],
    mates: &mut [u32],
    seconds: &mut [u32],
    k: usize,
) -> bool
    requires links_room { LinksRoom listed.now tos.now (length heads.old) links.old k }
    requires pair_room { PairRoom mates.old seconds.old k }
    requires places_entered { PlacesEntered listed.now tos.now heads.old links.old mates.old seconds.old k }
    ensures value { result ≡ not (third_at listed.now tos.now k) }
    ensures places_entered_2 { PlacesEntered listed.now tos.now heads.new links.new mates.new
        seconds.new (k + 1) }
{
    let mate = chain_place(listed, tos, heads, links, k);
    pair_place(mates, seconds, k, mate)
}

// Enters n places from place a on, and says whether none is the third on its edge; past one that is, no more are entered.
pub fn enter_places(
    listed: &[u32],
    tos: &[u32],
    heads: &mut [u32],
    links: &mut [u32],
    mates: &mut [u32],
    seconds: &mut [u32],
    a: usize,
    n: usize,
) -> bool
    requires places_room { PlacesRoom listed.now tos.now (length heads.old) links.old mates.old seconds.old a n }
    requires places_entered { PlacesEntered listed.now tos.now heads.old links.old mates.old seconds.old a }
    ensures value { result ≡ every n (λ i. not (third_at listed.now tos.now (a + i))) }
    ensures entered_to { EnteredTo listed.now tos.now heads.new links.new mates.new
        seconds.new (a + n) result }
{
    for i in 0..n {
        if !enter(listed, tos, heads, links, mates, seconds, a + i) {
            return false;
        }
    }
    true
}

// Whether each place has a mate or is the mate of another.
pub fn are_shared(mates: &[u32], seconds: &[u32]) -> bool
    requires { length mates.now ≤ length seconds.now }
    ensures { result ≡ every (length mates.now) (λ k. not (eqb (get_or mates.now k 0) 0
        && eqb (get_or seconds.now k 0) 0)) }
{
    for k in 0..mates.len() {
        if mates[k] == 0 && seconds[k] == 0 {
            return false;
        }
    }
    true
}
