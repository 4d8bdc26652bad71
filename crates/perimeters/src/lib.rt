// The places of a perimeter stepped, round to the start: the place after a place, and the place before it. The answers are those of
// the remainder by the number of places, and no division and no remainder is made.
// Not here: what stands at the places (`ring_places`, `building_faces`, `face_points`).
// Contracts: `next_place`, `prev_place`. Definitions: `specs/Places.antt`. Laws for callers: `proofs/Laws.antt`.
#![tactic(auto)]

ghost use Rattle.std.specs.Prelude.{◌≡◌, ◌<◌};
ghost use Rattle.perimeters.specs.Places.{next_place, prev_place};

// The place after i on a perimeter of n.
pub fn next_place(n: usize, i: usize) -> usize
    requires { i < n }
    ensures value { result ≡ next_place n i }
    ensures upper_bound { result < n }
{
    if i + 1 == n {
        return 0;
    }
    i + 1
}

// The place before i on a perimeter of n.
pub fn prev_place(n: usize, i: usize) -> usize
    requires { i < n }
    ensures value { result ≡ prev_place n i }
    ensures upper_bound { result < n }
{
    if i == 0 {
        return n - 1;
    }
    i - 1
}
