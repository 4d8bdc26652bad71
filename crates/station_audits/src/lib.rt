// The audit and the depth finder as C callers are told them: the answer as its number, and the edge that crosses.
// Not here: the audit (`audit`), the depth finder (`depth_finder`), the numbers of an answer (`station_answers`), the C functions (`station`).
// Contracts: `audit_told`, `find_depth_told`. Definitions: `specs/Told.antt`. Laws: `proofs/Laws.antt`.
#![tactic(auto)]

ghost use Rattle.std.specs.Prelude.{◌≡◌};
ghost use Rattle.tables.specs.Lent.{tables_of};
ghost use Rattle.crossings.specs.Crossings.{find};
ghost use Rattle.station_answers.specs.Answers.{counts_in};
ghost use Rattle.station_audits.specs.Told.{audited, Finding, found};

use audit::audit;
use depth_finder::find_depth;
use station_answers::{load_counts, tell_crossing};
use tables::MeshTables;

// Whether the tables are a closed mesh with these counts: 0, or 30 if they are not.
pub fn audit_told(t: &MeshTables, counts: &[usize; 3]) -> u32
    ensures { result
        ≡ audited (tables_of t.now) (counts_in counts.now) }
{
    if audit(t, load_counts(counts)) { 0 } else { 30 }
}

// Finds the lowest-numbered edge of the mesh that crosses a depth, which is a z coordinate. The edge is written if there is one.
pub fn find_depth_told(
    t: &MeshTables,
    counts: &[usize; 3],
    depth: f64,
    edge: &mut [usize; 1],
) -> u32
    ensures { ◌≡◌ {A = Finding} (record { answer = result; edge = edge.new })
        (found edge.old
        (find (tables_of t.now)
        (counts_in counts.now) depth)) }
{
    let answer = find_depth(t, load_counts(counts), depth);
    tell_crossing(edge, answer)
}
