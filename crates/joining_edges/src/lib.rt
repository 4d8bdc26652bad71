// The edge that joins a face point to the midpoint of a place of the perimeter, by value.
// Carries over the fields that `global_subdivide` (t_nurcc/mod.rs) gives it.
// Not here: the places of the perimeter (`ring_places`), the joining edges in the tables (`ring_edges`).
// Contract: `join_edge`. Definitions: `refined_meshes`, specs/Ring.antt; `ring_rows`, specs/Rings.antt. Laws: `proofs/Laws.antt`.
#![tactic(auto)]

ghost use Rattle.std.specs.Prelude.{◌≡◌, List, ℕ, ◌+◌, ◌<◌};
ghost use Rattle.refined_meshes.specs.State.{State, put_edge};
ghost use Rattle.refined_meshes.specs.Ring.{put_join};
ghost use Rattle.ring_rows.specs.Rings.{ring, Small};

use perimeters::{next_place, prev_place};
use ring_rows::{RingRows, face_row};
use t_spline::TnurccEdge;
use tables::LONGEST_PERIMETER;

// The joining edge to the midpoint of place i.
pub fn join_edge(
    firsts: &[u32; LONGEST_PERIMETER],
    seconds: &[u32; LONGEST_PERIMETER],
    mids: &[u32; LONGEST_PERIMETER],
    found: &[f64; LONGEST_PERIMETER],
    rows: RingRows,
    i: usize,
) -> TnurccEdge
    requires small { Small rows }
    requires i_lt_size { i < rows.size }
    ensures { (es : List ℕ) (s : State) →
        put_edge (rows.joins + i) result s ≡
        put_join (ring rows es firsts.now seconds.now mids.now found.now) i s }
{
    let next = next_place(rows.size, i);
    let prev = prev_place(rows.size, i);
    TnurccEdge {
        connections: [
            (rows.joins + next) as u32,
            seconds[i],
            firsts[i],
            (rows.joins + prev) as u32,
        ],
        face_left: face_row(rows, next),
        face_right: face_row(rows, i),
        origin: rows.centre as u32,
        dest: mids[i],
        knot_interval: found[next] + found[prev],
    }
}
