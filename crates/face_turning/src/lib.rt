// Faces turned round in place (document 02, §8): the sides of a turned face in opposite order, each side backwards, each interval staying
// on its pair of points.
// Not here: which faces are turned (`face_choices`), what a turned face is (`mended_lists`).
// Contract: `turn_faces`. Definitions: `Reversal` of `mended_lists`; `specs/Moved.antt`. Laws: `proofs/Moves.antt`, `proofs/Faces.antt`.
#![tactic(auto)]

ghost use Rattle.std.specs.Prelude.{◌≡◌, false, [], ◌+◌, ◌-◌, ◌*◌, ◌/◌, ◌≤◌, length, get_or};
ghost use Rattle.std.specs.Float.{nan};
ghost use Rattle.built_meshes.specs.declared.Version.TheVariants.{Two};
ghost use Rattle.building_tests.specs.Lent.{lists_in};
ghost use Rattle.mended_lists.specs.Reversal.{turned_interval};
ghost use Rattle.mended_lists.specs.Claims.{Fitting};
ghost use Rattle.face_turning.specs.Moved.{Moved, FaceTurned, AllTurned};

use building_tests::faces::face_size;

// Puts the n items from the place a on into opposite order.
fn reverse_within<T>(items: &mut [T], a: usize, n: usize)
    requires { a + n ≤ length items.old }
    ensures { (d : T) → Moved d a n (λ i. turned_interval n i) items.old items.new }
{
    items[a..a + n].reverse();
}

// Turns face f, whose n listed points stand from the place a on, or leaves it.
fn turn_face(
    sides: &mut [u32],
    firsts: &mut [u32],
    listed: &mut [u32],
    beside: &mut [f64],
    turned: bool,
    f: usize,
    a: usize,
    n: usize,
)
    requires f_in_bounds { f * 4 + 4 ≤ length sides.old }
    requires f_in_bounds_2 { f * 4 + 4 ≤ length firsts.old }
    requires n_in_bounds { a + n ≤ length listed.old }
    requires n_in_bounds_2 { a + n ≤ length beside.old }
    ensures { FaceTurned turned f a n
        (lists_in Two [] sides.old firsts.old listed.old beside.old)
        (lists_in Two [] sides.new firsts.new listed.new beside.new) }
{
    if !turned {
        return;
    }
    let b = f * 4;
    let m = n.saturating_sub(1);
    reverse_within(sides, b, 4);
    reverse_within(firsts, b + 1, 3);
    reverse_within(listed, a, m);
    reverse_within(beside, a, n);
}

// Turns the faces that are to be turned.
pub fn turn_faces(
    sides: &mut [u32],
    firsts: &mut [u32],
    listed: &mut [u32],
    beside: &mut [f64],
    turned: &[bool],
)
    requires fitting { Fitting (lists_in Two [] sides.old firsts.old listed.old beside.old) }
    requires sides_len_bound { length sides.old / 4 ≤ 4096 }
    requires sides_in_bounds { length sides.old / 4 ≤ length turned.now }
    requires listed_len_bound { length listed.old ≤ 16384 }
    ensures { AllTurned (λ f. get_or turned.now f false)
        sides.old firsts.old listed.old beside.old
        sides.new firsts.new listed.new beside.new }
{
    let nf = sides.len() / 4;
    let mut a = 0;
    for f in 0..nf {
        let n = face_size(sides, f);
        turn_face(sides, firsts, listed, beside, turned[f], f, a, n);
        a = a + n;
    }
}
