// The parts of a mesh, kept in two lists: for each face a face of its part that is not above it, and whether the two are turned
// differently. A search halves its way, so that few faces are passed.
// Not here: which faces share an edge (`shared_edges`), the choice of faces (`face_choices`).
// Contracts: `find_part`, `join`. Definitions: `Parts` of `mended_lists`; `specs/Kept.antt`. Laws: `proofs/Laws.antt`.
#![tactic(auto)]

ghost use Rattle.std.specs.Prelude.{◌≡◌, Bool, false, ◌||◌, List, ℕ, ◌≤◌, ◌<◌, eqb, length, get_or, set};
ghost use Rattle.mended_lists.specs.Edges.{FacePlace};
ghost use Rattle.mended_lists.specs.Parts.{Parts, differ, parts_joined, parts_to};
ghost use Rattle.face_parts.specs.Kept.{Falling, PartsKept, FoundPart, JoinedParts};

use mended_lists::Part;
use tables::index;

// Lets face g skip the face that it points to.
fn skip(ups: &mut [u32], odds: &mut [bool], g: usize)
    requires falling { Falling ups.old odds.old }
    requires g_in_bounds { g < length ups.old }
    ensures ups_after { ups.new ≡ set ups.old g (get_or ups.old (get_or ups.old g 0) 0) }
    ensures odds_after { odds.new ≡ set odds.old g (differ (get_or odds.old g false)
        (get_or odds.old (get_or ups.old g 0) false)) }
{
    let u = index(ups[g]);
    let w = ups[u];
    let o = odds[g] != odds[u];
    ups[g] = w;
    odds[g] = o;
}

// The part of face f.
pub fn find_part(ups: &mut [u32], odds: &mut [bool], f: u32) -> Part
    requires falling { Falling ups.old odds.old }
    requires f_in_bounds { f < length ups.old }
    ensures { FoundPart ups.old odds.old ups.new odds.new f result }
{
    let mut g = f;
    let mut odd = false;
    let mut up = ups[index(f)];
    while up != g {
        let h = index(g);
        skip(ups, odds, h);
        odd = odd != odds[h];
        g = ups[h];
        up = ups[index(g)];
    }
    Part { root: g, odd }
}

// Lets face high point to face low.
fn hang(ups: &mut [u32], odds: &mut [bool], high: u32, low: u32, d: bool)
    requires high_in_bounds { high < length ups.old }
    requires high_in_bounds_2 { high < length odds.old }
    ensures ups_after { ups.new ≡ set ups.old high low }
    ensures odds_after { odds.new ≡ set odds.old high d }
{
    let h = index(high);
    ups[h] = low;
    odds[h] = d;
}

// Joins the parts of the faces f and g, which have an edge in common that they run the same way or not, and says whether that is twisted.
pub fn join(ups: &mut [u32], odds: &mut [bool], f: u32, g: u32, way: bool) -> bool
    requires falling { Falling ups.old odds.old }
    requires f_in_bounds { f < length ups.old }
    requires g_in_bounds { g < length ups.old }
    ensures { JoinedParts ups.old odds.old ups.new odds.new f g way result }
{
    let a = find_part(ups, odds, f);
    let b = find_part(ups, odds, g);
    let d = (a.odd != b.odd) != way;
    let x = a.root;
    let y = b.root;
    if x == y {
        return d;
    }
    if x < y {
        hang(ups, odds, y, x, d);
        return false;
    }
    hang(ups, odds, x, y, d);
    false
}
