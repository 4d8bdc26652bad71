// Grounds 20, 21 and 22 of lists, told by the places of their faces, in local lists.
// Not here: the pairing of places (`shared_edges`), the grounds in the faces (`face_grounds`), the definition and its claims (`whole_grounds`).
// Contract: `whole_told`. Definitions: `Turning` of `whole_grounds`; `specs/Whole.antt`. Laws: `proofs/Laws.antt`.
#![tactic(auto)]

ghost use Rattle.std.specs.Prelude.{◌≡◌, not, List, [], ℕ, ◌-◌, ◌/◌, ◌≤◌, ◌<◌, eqb, Float, length, get_or};
ghost use Rattle.tables.specs.Layout.{position_width};
ghost use Rattle.audited_meshes.specs.Folds.{every};
ghost use Rattle.building_tests.specs.Lent.{lists};
ghost use Rattle.mended_lists.specs.Edges.{latest};
ghost use Rattle.whole_grounds.specs.Turning.{linked_to, turn_from, comes, whole_met};
ghost use Rattle.whole_tests.specs.Whole.{step_at, TurnRoom, StartRoom, WholeRoom};

use building_tests::{MOST_LISTED, MOST_POINTS};
use built_meshes::Ground;
use face_places::spread;
use shared_edges::are_shared;
use tables::index;

// Writes at each point the link to the last place that begins there.
fn start_points(listed: &[u32], starts: &mut [u32])
    requires { StartRoom listed.now starts.old }
    ensures { (p : ℕ) → p < length starts.old →
        get_or starts.new p 0 ≡ latest (λ k. eqb (get_or listed.now k 0) p) (length listed.now) }
{
    for k in 0..listed.len() {
        let p = index(listed[k]);
        starts[p] = k as u32 + 1;
    }
}

// Whether a place begins at each of np points.
fn all_begun(starts: &[u32], np: usize) -> bool
    requires { np ≤ length starts.now }
    ensures { result ≡ every np (λ p. not (eqb (get_or starts.now p 0) 0)) }
{
    for p in 0..np {
        if starts[p] == 0 {
            return false;
        }
    }
    true
}

// Writes the numbers of n places.
fn number_places(numbers: &mut [u32], n: usize)
    requires n_in_bounds { n ≤ length numbers.old }
    requires n_bound { n ≤ 16384 }
    ensures { (k : ℕ) → k < n → get_or numbers.new k 0 ≡ k }
{
    for k in 0..n {
        numbers[k] = k as u32;
    }
}

// The number that a link leads to.
fn link_place(link: u32) -> usize
    ensures { result ≡ link - 1 }
{
    index(link.saturating_sub(1))
}

// The other place on an edge, by the links to the mate and to the place whose mate it is.
fn other(mate: u32, second: u32) -> usize
    ensures { result ≡ linked_to mate second }
{
    if mate == 0 {
        return link_place(second);
    }
    link_place(mate)
}

// Whether turning at most n times from place k leads to place s, of n places.
fn comes_to(nexts: &[u32], mates: &[u32], seconds: &[u32], n: usize, k: usize, s: usize) -> bool
    requires turn_room { TurnRoom nexts.now mates.now seconds.now n }
    requires k_lt_n { k < n }
    ensures { result ≡ comes (step_at nexts.now mates.now seconds.now) n k s }
{
    let mut at = k;
    for _turn in 0..n {
        if at == s {
            return true;
        }
        let j = other(mates[at], seconds[at]);
        at = index(nexts[j]);
    }
    at == s
}

// Whether turning from each of n places leads to the last one that begins at its point.
fn all_come(
    listed: &[u32],
    nexts: &[u32],
    mates: &[u32],
    seconds: &[u32],
    starts: &[u32],
    n: usize,
) -> bool
    requires turn_room { TurnRoom nexts.now mates.now seconds.now n }
    requires n_in_bounds { n ≤ length listed.now }
    requires by_index { (k : ℕ) → k < n → get_or listed.now k 0 < length starts.now }
    requires starts_len_bound { length starts.now ≤ 4096 }
    ensures { result ≡ every n (λ k. comes (step_at nexts.now mates.now seconds.now) n k
        (get_or starts.now (get_or listed.now k 0) 0 - 1)) }
{
    for k in 0..n {
        let p = index(listed[k]);
        let s = link_place(starts[p]);
        if !comes_to(nexts, mates, seconds, n, k, s) {
            return false;
        }
    }
    true
}

// Whether turning about each point passes all places that begin there.
fn turns_come(sides: &[u32], listed: &[u32], mates: &[u32], seconds: &[u32], starts: &[u32]) -> bool
    requires whole_room { WholeRoom sides.now listed.now mates.now seconds.now (length starts.now) }
    requires starts_len_bound { length starts.now ≤ 4096 }
    ensures { result ≡ every (length listed.now) (λ k. comes (turn_from (lists [] sides.now listed.now []))
        (length listed.now) k (get_or starts.now (get_or listed.now k 0) 0 - 1)) }
{
    let n = listed.len();
    let mut numbers = [0u32; MOST_LISTED];
    let mut nexts = [0u32; MOST_LISTED];
    let mut owners = [0u32; MOST_LISTED];
    number_places(&mut numbers, n);
    spread(sides, &numbers[..n], &mut nexts, &mut owners);
    all_come(listed, &nexts, mates, seconds, starts, n)
}

// The first of the grounds 20, 21 and 22 that is met in lists with np points, whose places have these mates and seconds.
pub fn whole_told(
    sides: &[u32],
    listed: &[u32],
    mates: &[u32],
    seconds: &[u32],
    np: usize,
) -> Result<(), Ground>
    requires whole_room { WholeRoom sides.now listed.now mates.now seconds.now np }
    requires np_bound { np ≤ 4096 }
    ensures { (cs : List Float) → length cs / position_width ≡ np → result ≡ whole_met (lists cs sides.now listed.now []) }
{
    if !are_shared(mates, seconds) {
        return Err(Ground::MissingFace);
    }
    let mut starts = [0u32; MOST_POINTS];
    start_points(listed, &mut starts);
    if !all_begun(&starts, np) {
        return Err(Ground::NoEdge);
    }
    if !turns_come(sides, listed, mates, seconds, &starts) {
        return Err(Ground::MissedEdge);
    }
    Ok(())
}
