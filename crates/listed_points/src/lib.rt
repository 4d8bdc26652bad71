// The tests of the listed points of one face, which stand from the place a on: each is a point, and none comes twice (grounds 11 and 12).
// Not here: the other tests of a face, and which ground they give it (`building_tests`).
// Definitions: `Faces` of `built_meshes`; `specs/Lent.antt`. Laws for callers: `proofs/Laws.antt`.
#![tactic(auto)]

ghost use Rattle.std.specs.Prelude.{◌≡◌, not, [], ◌+◌, ◌≤◌, ◌<◌, eqb, length, get_or};
ghost use Rattle.audited_meshes.specs.Folds.{every};
ghost use Rattle.built_meshes.specs.Faces.{listed_in_range, no_point_twice};
ghost use Rattle.listed_points.specs.Lent.{lists};

use tables::index;

// Whether n listed points are below np.
pub fn are_points(listed: &[u32], np: usize, a: usize, n: usize) -> bool
    requires { a + n ≤ length listed.now }
    ensures { result ≡ listed_in_range (lists [] [] listed.now []) np a n }
{
    for i in 0..n {
        if np <= index(listed[a + i]) {
            return false;
        }
    }
    true
}

// Whether the listed point i of a face is none of those before it.
fn is_new(listed: &[u32], a: usize, i: usize) -> bool
    requires { a + i < length listed.now }
    ensures { result ≡ every i (λ j. not (eqb (get_or listed.now (a + i) 0) (get_or listed.now (a + j) 0))) }
{
    let p = listed[a + i];
    for j in 0..i {
        if p == listed[a + j] {
            return false;
        }
    }
    true
}

// Whether no point is listed twice among n.
pub fn no_point_twice(listed: &[u32], a: usize, n: usize) -> bool
    requires { a + n ≤ length listed.now }
    ensures { result ≡ no_point_twice (lists [] [] listed.now []) a n }
{
    for i in 0..n {
        if !is_new(listed, a, i) {
            return false;
        }
    }
    true
}
