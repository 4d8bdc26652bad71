// The tests of the audit about the walks of faces: each comes back and passes no point twice, and their sizes add up.
// Not here: the rows of faces (`face_rows`), the audit made of them (`audit`).
// Definitions: `Parts` of `audit_tests`, `Quick` of `audited_meshes`. Laws: `proofs/FaceTests.antt`.
#![tactic(auto)]

ghost use Rattle.std.specs.Prelude.{◌≡◌, ◌+◌, ◌*◌, ◌≤◌, length};
ghost use Rattle.tables.specs.Layout.{edge_width, face_width, longest_perimeter, longest_border};
ghost use Rattle.audited_meshes.specs.Folds.{every};
ghost use Rattle.audit_tests.specs.Parts.{differ_at, face_size, faces_walked};
ghost use Rattle.tables.specs.Parts.{face_tables};

use audit_tests::points::is_new_among;
use t_nurcc_face::lay_border;
use tables::{LONGEST_BORDER, LONGEST_PERIMETER};

// Whether no point stands twice in the first four places: the same as below for a face of four edges, as nearly all have, with no
// loop within a loop.
fn four_are_distinct(points: &[u32; LONGEST_BORDER]) -> bool
    ensures { result ≡ every 4 (λ i. every i (λ j. differ_at points.now i j)) }
{
    let first = points[0];
    let second = points[1];
    let third = points[2];
    let fourth = points[3];
    if second == first {
        return false;
    }
    if third == first {
        return false;
    }
    if third == second {
        return false;
    }
    if fourth == first {
        return false;
    }
    if fourth == second {
        return false;
    }
    if fourth == third {
        return false;
    }
    true
}

// Whether no point stands twice in the first n places.
fn are_distinct(points: &[u32; LONGEST_BORDER], n: usize) -> bool
    requires { n ≤ longest_perimeter }
    ensures { result ≡ every n (λ i. every i (λ j. differ_at points.now i j)) }
{
    if n == 4 {
        return four_are_distinct(points);
    }
    for i in 0..n {
        if !is_new_among(points, i, points[i]) {
            return false;
        }
    }
    true
}

// The number of edges of face f; none if its walk does not come back, passes fewer than 3 edges or a point twice. The border of the face
// is laid into the lent arrays, which may hold anything before.
fn face_size(
    edges: &[u32],
    faces: &[u32],
    ne: usize,
    f: usize,
    perimeter: &mut [u32; LONGEST_PERIMETER],
    points: &mut [u32; LONGEST_BORDER],
) -> Option<usize>
    requires edge_width_in_bounds { ne * edge_width ≤ length edges.now }
    requires face_width_in_bounds { f * face_width + face_width ≤ length faces.now }
    requires perimeter_len { length perimeter.old ≡ longest_perimeter }
    requires points_len { length points.old ≡ longest_border }
    ensures value { result ≡ face_size (face_tables edges.now faces.now) ne f }
    ensures perimeter_len_2 { length perimeter.new ≡ longest_perimeter }
    ensures points_len_2 { length points.new ≡ longest_border }
{
    let n = lay_border(edges, faces, ne, f, perimeter, points)?;
    if n < 3 {
        return None;
    }
    if !are_distinct(points, n) {
        return None;
    }
    Some(n)
}

// Whether the walk about each of the first nf faces comes back and passes no point twice, and their sizes add up to a total. The
// sum stops where it is past the total. One pair of arrays holds the border of each face in its turn.
pub fn face_walks_fit(edges: &[u32], faces: &[u32], ne: usize, nf: usize, total: usize) -> bool
    requires edge_width_in_bounds { ne * edge_width ≤ length edges.now }
    requires face_width_in_bounds { nf * face_width ≤ length faces.now }
    requires total_bound { total * 4 ≤ 18446744073709551615 }
    ensures { result ≡ faces_walked (face_tables edges.now faces.now) ne nf total }
{
    let mut perimeter = [0u32; LONGEST_PERIMETER];
    let mut points = [0u32; LONGEST_BORDER];
    let mut sum = 0;
    for f in 0..nf {
        let Some(n) = face_size(edges, faces, ne, f, &mut perimeter, &mut points) else {
            return false;
        };
        sum += n;
        if total < sum {
            return false;
        }
    }
    sum == total
}
