// The counts of a refined mesh, and whether counts are within the ceilings.
// Not here: whether tables have the rows (`counted_rows`), the rows copied (`row_copies`).
// Contracts: `refined_counts`, `within_ceilings`. Definitions: `steps`, specs/Step.antt.
#![tactic(auto)]

ghost use Rattle.std.specs.Prelude.{◌≡◌, ◌+◌, ◌*◌, ◌<◌};
ghost use Rattle.steps.specs.Step.{refined_counts, within_ceilings};

use tables::{Counts, EDGE_CEILING, FACE_CEILING, POINT_CEILING};

// The counts of a mesh after one step.
pub fn refined_counts(c: Counts) -> Counts
    requires faces_bound { c.points + c.edges + c.faces < 18446744073709551616 }
    requires edges_bound { 4 * c.edges < 18446744073709551616 }
    ensures { result ≡ refined_counts c }
{
    Counts {
        points: c.points + c.edges + c.faces,
        edges: 4 * c.edges,
        faces: 2 * c.edges,
    }
}

// Whether a mesh with these counts is within the ceilings.
#[tactic(auto, unfolding(steps::specs::Step::within_ceilings))]
pub fn within_ceilings(c: Counts) -> bool
    ensures { result ≡ within_ceilings c }
{
    c.points <= POINT_CEILING && c.edges <= EDGE_CEILING && c.faces <= FACE_CEILING
}
