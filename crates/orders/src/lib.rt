// Whether a visiting order is each face once (document 01, ground 31).
// The entries are marked in a local table of 65,536 places, one pass for each 65,536 faces, so that no memory is lent and
// a mesh within the ceilings takes one pass.
// Contract: `each_face_once`. Definitions: `each_face_once` of `steps`, specs/Step.antt; `specs/Orders.antt` for the passes.
#![tactic(auto)]

ghost use Rattle.std.specs.Prelude.{◌≡◌, true, ◌↔◌, ℕ, ◌+◌, ◌≤◌, ◌<◌, ltb, length, get_or};
ghost use Rattle.audited_meshes.specs.Folds.{every, distinct};
ghost use Rattle.steps.specs.Step.{each_face_once};
ghost use Rattle.orders.specs.Orders.{fresh, noted, ApartAbove};

use tables::index;

// How many faces one pass looks at.
const WINDOW: usize = 65536;

// Whether an order names each of nf faces once: as many entries as faces, each a face, no face twice.
pub fn each_face_once(order: &[u32], nf: usize) -> bool
    ensures { result ≡ each_face_once nf order.now }
{
    if order.len() != nf {
        return false;
    }
    if !all_below(order, nf) {
        return false;
    }
    all_apart(order)
}

// Whether each of the first nf entries is below nf.
fn all_below(order: &[u32], nf: usize) -> bool
    requires { nf ≤ length order.now }
    ensures { result ≡ every nf (λ i. ltb (get_or order.now i 0) nf) }
{
    for i in 0..nf {
        if nf <= index(order[i]) {
            return false;
        }
    }
    true
}

// Whether no entry stands twice, of an order whose entries are below its length.
fn all_apart(order: &[u32]) -> bool
    requires { (i : ℕ) → i < length order.now → get_or order.now i 0 < length order.now }
    ensures { result ≡ distinct order.now }
{
    let passes = order.len() / WINDOW + 1;
    for k in 0..passes {
        if !apart_above(order, k * WINDOW) {
            return false;
        }
    }
    true
}

// Whether no face of the window from base on stands twice.
fn apart_above(order: &[u32], base: usize) -> bool
    ensures { (result ≡ true) ↔ ApartAbove base order.now }
{
    let mut seen = [false; WINDOW];
    for face in order {
        if !mark(&mut seen, base, index(*face)) {
            return false;
        }
    }
    true
}

// Marks a face of the window from base on, and says whether it was not marked yet; a face out of the window is passed over.
fn mark(seen: &mut [bool; WINDOW], base: usize, o: usize) -> bool
    ensures value { result ≡ fresh base seen.old o }
    ensures seen_after { seen.new ≡ noted base seen.old o }
{
    if o < base {
        return true;
    }
    let k = o - base;
    if WINDOW <= k {
        return true;
    }
    let was = seen[k];
    seen[k] = true;
    !was
}
