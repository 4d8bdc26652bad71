// The depth finder: the lowest-numbered edge of a mesh that crosses a depth, in tables of any content (document 02, §2 and §9). It
// takes the time of the audit and of one pass over the edges.
// Not here: what crosses and what is answered (`crossings`), the audit (`audit`).
// Contract: `find_depth`. Definitions: `specs/Ends.antt`, and `Crossings` of `crossings`. Laws: `proofs/Laws.antt`.
#![tactic(auto)]

ghost use Rattle.std.specs.Prelude.{◌≡◌, ℕ, ◌+◌, ◌*◌, ◌≤◌, ◌<◌, length};
ghost use Rattle.tables.specs.Layout.{edge_width};
ghost use Rattle.tables.specs.Lent.{tables_of};
ghost use Rattle.crossings.specs.Crossings.{between, spans, crosses, first_from, find};
ghost use Rattle.depth_finder.specs.Ends.{end_tables, EndsStand};

use audit::audit;
use crossings::NoCrossing;
use positions::is_finite;
use records::{load_edge_words, load_position};
use tables::{Counts, MeshTables, index};

// Whether a depth is at or above one number and at or below another.
fn is_between(low: f64, high: f64, depth: f64) -> bool
    ensures { result ≡ between low high depth }
{
    if low <= depth {
        return depth <= high;
    }
    false
}

// Whether of two numbers one is at or above a depth, the other at or below. The numbers are compared, and nothing is computed
// of them: a product of differences would under- and overflow.
fn spans_depth(a: f64, b: f64, depth: f64) -> bool
    ensures { result ≡ spans a b depth }
{
    if is_between(a, b, depth) {
        return true;
    }
    is_between(b, a, depth)
}

// Whether edge e crosses a depth.
fn crosses_depth(positions: &[f64], edges: &[u32], e: usize, depth: f64) -> bool
    requires edge_width_in_bounds { e * edge_width + edge_width ≤ length edges.now }
    requires ends_stand { EndsStand positions.now edges.now e }
    ensures { result ≡ crosses (end_tables positions.now edges.now) depth e }
{
    let edge = load_edge_words(edges, e);
    let origin = load_position(positions, index(edge.origin));
    let dest = load_position(positions, index(edge.dest));
    spans_depth(origin.z, dest.z, depth)
}

// The first of ne edges that crosses a depth.
fn search(positions: &[f64], edges: &[u32], ne: usize, depth: f64) -> Result<usize, NoCrossing>
    requires edge_width_in_bounds { ne * edge_width ≤ length edges.now }
    requires by_index { (e : ℕ) → e < ne → EndsStand positions.now edges.now e }
    ensures { result ≡ first_from (λ e. crosses (end_tables positions.now edges.now) depth e) ne 0 }
{
    for e in 0..ne {
        if crosses_depth(positions, edges, e, depth) {
            return Ok(e);
        }
    }
    Err(NoCrossing::Nowhere)
}

// The lowest-numbered edge of the mesh that crosses a depth, or the ground on which there is none.
pub fn find_depth(t: &MeshTables, counts: Counts, depth: f64) -> Result<usize, NoCrossing>
    ensures { result ≡ find (tables_of t.now) counts depth }
{
    if !is_finite(depth) {
        return Err(NoCrossing::NotFiniteDepth);
    }
    if !audit(t, counts) {
        return Err(NoCrossing::NotClosed);
    }
    search(t.positions, t.edges, counts.edges, depth)
}
