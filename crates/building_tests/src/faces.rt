// Grounds 10 to 13 and 43: the tests of one face, whose listed points stand from the place a on.
ghost use Rattle.std.specs.Prelude.{◌≡◌, List, [], ◌+◌, ◌*◌, ◌≤◌, ◌<◌, eqb, Float, length, get_or};
ghost use Rattle.built_meshes.specs.Lists.{size};
ghost use Rattle.built_meshes.specs.Faces.{size_fit, last_before, firsts_fit, side_sum, sums_fit, face_verdict};
ghost use Rattle.built_meshes.specs.declared.Version.TheVariants.{Two};
ghost use Rattle.building_tests.specs.Lent.{lists, lists_in, FirstsGiven};

use built_meshes::{Ground, Version};
use listed_points::{are_points, no_point_twice};
use side_sums::sums_agree;
use tables::{LONGEST_PERIMETER, index};

// The number of listed points of all four sides of face f.
pub fn face_size(sides: &[u32], f: usize) -> usize
    requires { f * 4 + 4 ≤ length sides.now }
    ensures { result ≡ size (lists [] sides.now [] []) f }
{
    let b = f * 4;
    index(sides[b]) + index(sides[b + 1]) + index(sides[b + 2]) + index(sides[b + 3])
}

// Whether a face of n points has 3 to 64.
fn size_fits(n: usize) -> bool
    ensures { result ≡ size_fit n }
{
    if n < 3 {
        return false;
    }
    n <= LONGEST_PERIMETER
}

// Of n places going round, the last of the b places that stand before one.
fn last_before(n: usize, b: usize) -> usize
    requires n_nonzero { 0 < n }
    requires b_le_n { b ≤ n }
    ensures value { result ≡ last_before n b }
    ensures upper_bound { result < n }
{
    if b == 0 {
        return n - 1;
    }
    b - 1
}

// Whether the first point at the place s of its list is the last of the b points of its face that are listed before its side.
fn first_fits(firsts: &[u32], listed: &[u32], s: usize, a: usize, n: usize, b: usize) -> bool
    requires s_in_bounds { s < length firsts.now }
    requires n_in_bounds { a + n ≤ length listed.now }
    requires n_nonzero { 0 < n }
    requires b_le_n { b ≤ n }
    ensures { result ≡ eqb (get_or firsts.now s 0) (get_or listed.now (a + last_before n b) 0) }
{
    let j = last_before(n, b);
    firsts[s] == listed[a + j]
}

// Whether the first point of each side of face f is the point listed last before it, going round.
fn firsts_fit(sides: &[u32], firsts: &[u32], listed: &[u32], f: usize, a: usize, n: usize) -> bool
    requires f_in_bounds { f * 4 + 4 ≤ length sides.now }
    requires f_in_bounds_2 { f * 4 + 4 ≤ length firsts.now }
    requires n_value { n ≡ size (lists [] sides.now [] []) f }
    requires n_in_bounds { a + n ≤ length listed.now }
    requires n_nonzero { 0 < n }
    ensures { result ≡ firsts_fit Two (lists_in Two [] sides.now firsts.now listed.now []) f a }
{
    let s = f * 4;
    let mut b = 0;
    for k in 0..4 {
        if !first_fits(firsts, listed, s + k, a, n, b) {
            return false;
        }
        b = b + index(sides[s + k]);
    }
    true
}

// Whether the first points of face f are as the version asks.
fn firsts_agree(
    version: Version,
    sides: &[u32],
    firsts: &[u32],
    listed: &[u32],
    f: usize,
    a: usize,
    n: usize,
) -> bool
    requires f_in_bounds { f * 4 + 4 ≤ length sides.now }
    requires firsts_given { FirstsGiven version sides.now firsts.now }
    requires n_value { n ≡ size (lists [] sides.now [] []) f }
    requires n_in_bounds { a + n ≤ length listed.now }
    requires n_nonzero { 0 < n }
    ensures { result ≡ firsts_fit version (lists_in version [] sides.now firsts.now listed.now []) f a }
{
    match version {
        Version::One => true,
        Version::Two => firsts_fit(sides, firsts, listed, f, a, n),
    }
}

// The sum of n intervals from the place a on, from +0.
fn side_sum(beside: &[f64], a: usize, n: usize) -> f64
    requires { a + n ≤ length beside.now }
    ensures { result ≡ side_sum beside.now a n }
{
    let mut sum = 0.0;
    for i in 0..n {
        sum = sum + beside[a + i];
    }
    sum
}

// Whether the side sums of face f agree.
fn sums_fit(version: Version, sides: &[u32], beside: &[f64], f: usize, a: usize) -> bool
    requires f_in_bounds { f * 4 + 4 ≤ length sides.now }
    requires f_in_bounds_2 { a + size (lists [] sides.now [] []) f ≤ length beside.now }
    ensures { result ≡ sums_fit version (lists [] sides.now [] beside.now) f a }
{
    let b = f * 4;
    let n0 = index(sides[b]);
    let n1 = index(sides[b + 1]);
    let n2 = index(sides[b + 2]);
    let n3 = index(sides[b + 3]);
    let s0 = side_sum(beside, a, n0);
    let s1 = side_sum(beside, a + n0, n1);
    let s2 = side_sum(beside, a + n0 + n1, n2);
    let s3 = side_sum(beside, a + n0 + n1 + n2, n3);
    sums_agree(version, s0, s1, s2, s3)
}

// The first of the grounds 10, 11, 12, 43 and 13 that holds of face f, whose n listed points stand from the place a on.
pub fn face_verdict(
    version: Version,
    sides: &[u32],
    firsts: &[u32],
    listed: &[u32],
    beside: &[f64],
    np: usize,
    f: usize,
    a: usize,
    n: usize,
) -> Result<(), Ground>
    requires f_in_bounds { f * 4 + 4 ≤ length sides.now }
    requires n_value { n ≡ size (lists [] sides.now [] []) f }
    requires n_in_bounds { a + n ≤ length listed.now }
    requires n_in_bounds_2 { a + n ≤ length beside.now }
    requires firsts_given { FirstsGiven version sides.now firsts.now }
    ensures { (cs : List Float) → result
        ≡ face_verdict (lists_in version cs sides.now firsts.now listed.now beside.now) np f a }
{
    if !size_fits(n) {
        return Err(Ground::FaceSize);
    }
    if !are_points(listed, np, a, n) {
        return Err(Ground::OutOfRange);
    }
    if !no_point_twice(listed, a, n) {
        return Err(Ground::PointTwice);
    }
    if !firsts_agree(version, sides, firsts, listed, f, a, n) {
        return Err(Ground::FirstPoint);
    }
    if !sums_fit(version, sides, beside, f, a) {
        return Err(Ground::NonRectangularFace);
    }
    Ok(())
}
