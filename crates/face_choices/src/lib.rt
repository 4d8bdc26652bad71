// The faces to turn, of faces whose shared edges are known (document 02, §8): the parts of the mesh are joined place by place, and a face
// is turned if it is turned differently from the lowest of its part.
// Not here: how parts are kept (`face_parts`), which places share an edge (`shared_edges`).
// Contract: `choose_faces`. Definitions: `Parts` of `mended_lists`; `specs/Mates.antt`. Laws: `proofs/Laws.antt`.
#![tactic(auto)]

ghost use Rattle.std.specs.Prelude.{◌≡◌, ◌||◌, List, ℕ, ◌≤◌, ◌<◌, length, get_or};
ghost use Rattle.mended_lists.specs.Parts.{parts_to};
ghost use Rattle.mended_lists.specs.Edges.{FacePlace};
ghost use Rattle.face_parts.specs.Kept.{Falling, PartsKept};
ghost use Rattle.face_choices.specs.Mates.{MatesFit, Mates, Started, JoinedAt, JoinedTo, Settled, Chosen};

use face_parts::{find_part, join};
use tables::index;

// Lets each face be a part by itself.
fn start(ups: &mut [u32], odds: &mut [bool])
    requires odds_len { length odds.old ≡ length ups.old }
    requires ups_len_bound { length ups.old ≤ 4096 }
    ensures { Started ups.new odds.new }
{
    for f in 0..ups.len() {
        ups[f] = f as u32;
        odds[f] = false;
    }
}

// Joins the face of place k and that of its mate, if it has one, and says whether that is twisted.
fn join_place(
    listed: &[u32],
    faces: &[u32],
    mates: &[u32],
    k: usize,
    ups: &mut [u32],
    odds: &mut [bool],
) -> bool
    requires falling { Falling ups.old odds.old }
    requires mates_fit { MatesFit listed.now faces.now mates.now (length ups.old) }
    requires k_in_bounds { k < length mates.now }
    ensures { JoinedAt listed.now faces.now mates.now k ups.old odds.old
        ups.new odds.new result }
{
    let m = index(mates[k]);
    if m == 0 {
        return false;
    }
    let j = m - 1;
    join(ups, odds, faces[j], faces[k], listed[j] == listed[k])
}

// Joins the faces of all places, and says whether that is twisted.
fn join_places(
    listed: &[u32],
    faces: &[u32],
    mates: &[u32],
    ups: &mut [u32],
    odds: &mut [bool],
) -> bool
    requires started { Started ups.old odds.old }
    requires mates_fit { MatesFit listed.now faces.now mates.now (length ups.old) }
    ensures { JoinedTo listed.now faces.now mates.now (length mates.now) (length ups.old)
        ups.new odds.new result }
{
    let mut twisted = false;
    for k in 0..mates.len() {
        twisted |= join_place(listed, faces, mates, k, ups, odds);
    }
    twisted
}

// Says of each face whether it is turned differently from the lowest of its part.
fn settle(ups: &mut [u32], odds: &mut [bool], turned: &mut [bool])
    requires falling { Falling ups.old odds.old }
    requires turned_len { length turned.old ≡ length ups.old }
    requires ups_len_bound { length ups.old ≤ 4096 }
    ensures { Settled ups.old odds.old turned.new }
{
    for f in 0..turned.len() {
        turned[f] = find_part(ups, odds, f as u32).odd;
    }
}

// Finds the faces to turn, and says whether no choice works.
pub fn choose_faces(
    listed: &[u32],
    faces: &[u32],
    mates: &[u32],
    ups: &mut [u32],
    odds: &mut [bool],
    turned: &mut [bool],
) -> bool
    requires odds_len { length odds.old ≡ length ups.old }
    requires turned_len { length turned.old ≡ length ups.old }
    requires ups_len_bound { length ups.old ≤ 4096 }
    requires mates_fit { MatesFit listed.now faces.now mates.now (length ups.old) }
    ensures { Chosen listed.now faces.now mates.now turned.new result }
{
    start(ups, odds);
    let twisted = join_places(listed, faces, mates, ups, odds);
    settle(ups, odds, turned);
    twisted
}
