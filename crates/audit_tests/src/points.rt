// The tests about points, and whether a point is new among those that a walk has passed.
ghost use Rattle.std.specs.Prelude.{◌≡◌, [], ◌+◌, ◌*◌, ◌≤◌, eqb, length};
ghost use Rattle.closed_meshes.specs.Renumbering.{sum_to};
ghost use Rattle.tables.specs.Layout.{position_width, point_width};
ghost use Rattle.tables.specs.Mesh.{valence};
ghost use Rattle.audited_meshes.specs.Folds.{every};
ghost use Rattle.audited_meshes.specs.Quick.{point_fit};
ghost use Rattle.tables.specs.Parts.{point_tables, position_tables};
ghost use Rattle.audit_tests.specs.Parts.{new_among};

use records::load_position;
use tables::{MARK_WORD, POINT_WIDTH, START_WORD, index};

// The test of point p.
fn point_fit(positions: &[f64], points: &[u32], ne: usize, p: usize) -> bool
    requires position_width_in_bounds { p * position_width + position_width ≤ length positions.now }
    requires point_width_in_bounds { p * point_width + point_width ≤ length points.now }
    ensures { result ≡ point_fit (position_tables positions.now points.now) ne p }
{
    let b = p * POINT_WIDTH;
    if ne <= index(points[b + START_WORD]) {
        return false;
    }
    if !load_position(positions, p).is_finite() {
        return false;
    }
    if points[b] < 2 {
        return false;
    }
    if points[b + MARK_WORD] == 0 {
        return true;
    }
    points[b + MARK_WORD] == 1
}

// The test of the first np points.
pub fn points_fit(positions: &[f64], points: &[u32], ne: usize, np: usize) -> bool
    requires position_width_in_bounds { np * position_width ≤ length positions.now }
    requires point_width_in_bounds { np * point_width ≤ length points.now }
    ensures { result ≡ every np (λ p. point_fit (position_tables positions.now points.now) ne p) }
{
    for p in 0..np {
        if !point_fit(positions, points, ne, p) {
            return false;
        }
    }
    true
}

// Whether the valences of the first np points add up to a total. The sum stops where it is past the total.
pub fn valences_fit(points: &[u32], np: usize, total: usize) -> bool
    requires point_width_in_bounds { np * point_width ≤ length points.now }
    requires total_bound { total * 4 ≤ 18446744073709551615 }
    ensures { result ≡ eqb (sum_to np (λ p. valence (point_tables points.now []) p)) total }
{
    let mut sum = 0;
    for p in 0..np {
        sum += index(points[p * POINT_WIDTH]);
        if total < sum {
            return false;
        }
    }
    sum == total
}

// Whether q stands at none of the first n places of points.
pub fn is_new_among(points: &[u32], n: usize, q: u32) -> bool
    requires { n ≤ length points.now }
    ensures { result ≡ new_among points.now n q }
{
    for point in &points[..n] {
        if *point == q {
            return false;
        }
    }
    true
}
