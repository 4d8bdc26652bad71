// The places of all faces as two lists: the point that each runs to, and its face. The point that it runs from is the listed one.
// Contract: `spread`. Definitions: `Edges` of `mended_lists`; `specs/Spread.antt`. Laws: `proofs/Laws.antt`.
#![tactic(auto)]

ghost use Rattle.std.specs.Prelude.{◌≡◌, [], ◌+◌, ◌/◌, ◌≤◌, ◌<◌, length};
ghost use Rattle.built_meshes.specs.Lists.{offset};
ghost use Rattle.building_tests.specs.Lent.{lists};
ghost use Rattle.face_places.specs.Spread.{FaceSpread, Spread};

use building_tests::faces::face_size;
use perimeters::next_place;
use tables::index;

// Spreads face f, whose n listed points stand from the place a on.
fn spread_face(listed: &[u32], tos: &mut [u32], faces: &mut [u32], f: u32, a: usize, n: usize)
    requires n_in_bounds { a + n ≤ length listed.now }
    requires n_in_bounds_2 { a + n ≤ length tos.old }
    requires n_in_bounds_3 { a + n ≤ length faces.old }
    requires listed_len_bound { length listed.now ≤ 16384 }
    ensures { FaceSpread listed.now f a n tos.old faces.old tos.new faces.new }
{
    for i in 0..n {
        let j = next_place(n, i);
        tos[a + i] = listed[a + j];
        faces[a + i] = f;
    }
}

// Spreads all faces.
pub fn spread(sides: &[u32], listed: &[u32], tos: &mut [u32], faces: &mut [u32])
    requires sides_len_bound { length sides.now / 4 ≤ 4096 }
    requires sides_value { offset (lists [] sides.now [] []) (length sides.now / 4) ≡ length listed.now }
    requires listed_in_bounds { length listed.now ≤ length tos.old }
    requires listed_in_bounds_2 { length listed.now ≤ length faces.old }
    requires listed_len_bound { length listed.now ≤ 16384 }
    ensures { Spread (lists [] sides.now listed.now []) tos.new faces.new (length listed.now) }
{
    let nf = sides.len() / 4;
    let mut a = 0;
    for f in 0..nf {
        let n = face_size(sides, f);
        spread_face(listed, tos, faces, f as u32, a, n);
        a = a + n;
    }
}
