// The places of a face's perimeter once it is split: which halves and midpoints stand there, and the intervals found on arriving.
// Carries over the reading half of `global_subdivide`'s loop over the faces (t_nurcc/mod.rs).
// Not here: the places stepped (`perimeters`), the halves of one edge and the rows of a ring (`ring_rows`), what is written about the
// face (`ring_edges`, `ring_faces`), the splitting (`splitting`).
// Definitions: `refined_meshes`, specs/Ring.antt; `ring_rows`, specs/Rings.antt. Laws: `proofs/Filling.antt`.
#![tactic(auto)]

ghost use Rattle.std.specs.Prelude.{◌≡◌, ℕ, ◌+◌, ◌*◌, ◌≤◌, ◌<◌, length, get_or};
ghost use Rattle.std.specs.Float.{nan};
ghost use Rattle.tables.specs.Layout.{edge_width, dest_word, longest_perimeter};
ghost use Rattle.refined_meshes.specs.Turns.{filled};
ghost use Rattle.refined_meshes.specs.Ring.{first_half_of, second_half_of};
ghost use Rattle.ring_rows.specs.Rings.{EdgesThere};

use ring_rows::{first_half, on_left, second_half};
use tables::{DEST_WORD, EDGE_WIDTH, LONGEST_PERIMETER, index};

// Stores the intervals of the first n edges of a perimeter.
pub fn put_found(
    intervals: &[f64],
    perimeter: &[u32; LONGEST_PERIMETER],
    n: usize,
    found: &mut [f64; LONGEST_PERIMETER],
)
    requires n_le_longest_perimeter { n ≤ longest_perimeter }
    requires by_index { (i : ℕ) → i < n → get_or perimeter.now i 0 < length intervals.now }
    ensures { found.new ≡ filled n (λ i. get_or intervals.now (get_or perimeter.now i 0) nan) found.old }
{
    for i in 0..n {
        let e = index(perimeter[i]);
        found[i] = intervals[e];
    }
}

// Stores what stands at the places of the perimeter of face f, once it is split: the half of the edge at its first point, the half
// at its second, the midpoint.
pub fn put_places(
    edges: &[u32],
    newedges: &[u32],
    perimeter: &[u32; LONGEST_PERIMETER],
    f: usize,
    n: usize,
    firsts: &mut [u32; LONGEST_PERIMETER],
    seconds: &mut [u32; LONGEST_PERIMETER],
    mids: &mut [u32; LONGEST_PERIMETER],
)
    requires n_le_longest_perimeter { n ≤ longest_perimeter }
    requires edges_there { EdgesThere edges.now perimeter.now n }
    requires edges_there_2 { EdgesThere newedges.now perimeter.now n }
    ensures firsts_after { firsts.new ≡
        filled n (λ i. first_half_of edges.now newedges.now f (get_or perimeter.now i 0)) firsts.old }
    ensures seconds_after { seconds.new ≡
        filled n (λ i. second_half_of edges.now newedges.now f (get_or perimeter.now i 0)) seconds.old }
    ensures mids_after { mids.new ≡ filled n (λ i. get_or newedges.now (get_or perimeter.now i 0 * edge_width + dest_word) 0) mids.old }
{
    for i in 0..n {
        let e = perimeter[i];
        let row = index(e);
        let left = on_left(edges, f, row);
        firsts[i] = first_half(newedges, left, e);
        seconds[i] = second_half(newedges, left, e);
        mids[i] = newedges[row * EDGE_WIDTH + DEST_WORD];
    }
}
