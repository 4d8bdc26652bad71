// Beside which point of a perimeter the interval of an edge is written, in either version of the lists (document 02, §4).
// Not here: the places stepped (`perimeters`), the edges entered (`building_faces`).
// Contract: `interval_place`. Definition: `Perimeters` of `built_meshes`.
#![tactic(auto)]

ghost use Rattle.std.specs.Prelude.{◌≡◌, ℕ, ◌<◌};
ghost use Rattle.perimeters.specs.Places.{next_place};
ghost use Rattle.built_meshes.specs.Perimeters.{interval_place};

use built_meshes::Version;

// The place beside whose point the interval of place i is written; `next` is the place after it.
pub fn interval_place(version: Version, n: usize, i: usize, next: usize) -> usize
    requires i_lt_n { i < n }
    requires next_value { next ≡ next_place n i }
    ensures value { result ≡ interval_place version n i }
    ensures upper_bound { result < n }
{
    match version {
        Version::One => i,
        Version::Two => next,
    }
}
