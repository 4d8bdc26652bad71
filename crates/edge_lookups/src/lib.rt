// What is told of an edge by the lists: the points that it runs from and to, and the first face before its own that runs it the same way.
// Not here: the definitions and what is claimed of them (`told_edges`), which edge it is (`text_places`), the lists of a text
// (`text_edges`).
// Contract: `told_edge`. Definitions: `specs/Told.antt` of `told_edges`. Laws: `proofs/Laws.antt`.
#![tactic(auto)]

ghost use Rattle.std.specs.Prelude.{◌≡◌, not, ◌&&◌, [], ◌+◌, ◌/◌, ◌≤◌, ◌<◌, eqb, length, get_or};
ghost use Rattle.perimeters.specs.Places.{next_place};
ghost use Rattle.audited_meshes.specs.Folds.{every};
ghost use Rattle.built_meshes.specs.Lists.{offset};
ghost use Rattle.building_tests.specs.Lent.{lists};
ghost use Rattle.told_edges.specs.Told.{same_way_before, told_edge};

use building_tests::faces::face_size;
use perimeters::next_place;
use told_edges::ToldEdge;

// Whether place j of a face, whose n listed points stand from a on, runs from p to q.
fn runs(listed: &[u32], a: usize, n: usize, j: usize, p: u32, q: u32) -> bool
    requires n_in_bounds { a + n ≤ length listed.now }
    requires j_lt_n { j < n }
    ensures { result ≡ (eqb (get_or listed.now (a + j) 0) p && eqb (get_or listed.now (a + next_place n j) 0) q) }
{
    let k = next_place(n, j);
    listed[a + j] == p && listed[a + k] == q
}

// Whether no place of the face runs from p to q.
fn none_runs(listed: &[u32], a: usize, n: usize, p: u32, q: u32) -> bool
    requires { a + n ≤ length listed.now }
    ensures { result ≡ every n (λ j. not (eqb (get_or listed.now (a + j) 0) p && eqb (get_or listed.now (a + next_place n j) 0) q)) }
{
    for j in 0..n {
        if runs(listed, a, n, j, p, q) {
            return false;
        }
    }
    true
}

// The edge from p to q as it is told of face f, whose listed points are all there.
fn same_way_before(sides: &[u32], listed: &[u32], f: usize, p: u32, q: u32) -> ToldEdge
    requires f_in_bounds { f ≤ length sides.now / 4 }
    requires f_in_bounds_2 { offset (lists [] sides.now listed.now []) f ≤ length listed.now }
    ensures { result ≡ same_way_before (lists [] sides.now listed.now []) p q f }
{
    let mut a = 0;
    for g in 0..f {
        let n = face_size(sides, g);
        if !none_runs(listed, a, n, p, q) {
            return ToldEdge::Again(p, q, g);
        }
        a += n;
    }
    ToldEdge::First(p, q)
}

// Place i of face f, whose listed points stand from a on.
fn told_from(sides: &[u32], listed: &[u32], f: usize, a: usize, i: usize) -> ToldEdge
    requires f_in_bounds { f < length sides.now / 4 }
    requires a_value { a ≡ offset (lists [] sides.now listed.now []) f }
    requires a_in_bounds { a ≤ length listed.now }
    ensures { result ≡ told_edge (lists [] sides.now listed.now []) f i }
{
    let n = face_size(sides, f);
    if listed.len() - a < n {
        return ToldEdge::Missing;
    }
    if n <= i {
        return ToldEdge::Missing;
    }
    let j = next_place(n, i);
    same_way_before(sides, listed, f, listed[a + i], listed[a + j])
}

// Place i of face f of lists of any content.
pub fn told_edge(sides: &[u32], listed: &[u32], f: usize, i: usize) -> ToldEdge
    ensures { result ≡ told_edge (lists [] sides.now listed.now []) f i }
{
    if sides.len() / 4 <= f {
        return ToldEdge::Missing;
    }
    let mut a = 0;
    for g in 0..f {
        let n = face_size(sides, g);
        if listed.len() - a < n {
            return ToldEdge::Missing;
        }
        a += n;
    }
    told_from(sides, listed, f, a, i)
}
