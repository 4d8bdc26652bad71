// The position rules of one refinement (document 01, "One refinement") as definitions, and the code that all three share: the
// intervals about the ends of an edge, weighted sums, the places of the new points.
// Not here: the code of the rules (`face_points`, `edge_points`, `old_points`), the rows of the new points, and the step.
// Definitions: `specs/FacePoint.antt`, `specs/EdgePoint.antt`, `specs/OldPoint.antt`, and `specs/Rules.antt` for all three over a
// mesh. What is proved of them: `specs/Claims.antt`. What the contracts require (`specs/Fits.antt`) holds on an audited mesh:
// `proofs/Audited.antt`.
#![tactic(auto)]

ghost use Rattle.std.specs.Prelude.{◌≡◌};
ghost use Rattle.position_rules.specs.Sums.{with_term};

use positions::Position;

pub mod intervals;
pub mod places;

// A sum of weighted positions, and the sum of their weights.
#[derive(Clone, Copy)]
pub struct WeightedSum {
    pub sum: Position,
    pub weight: f64,
}

// The shares of the left and the right face point in an edge point.
#[derive(Clone, Copy)]
pub struct Shares {
    pub left: f64,
    pub right: f64,
}

impl WeightedSum {
    // The sum with one more position.
    pub fn with_term(self, p: Position, w: f64) -> Self
        ensures { result ≡ with_term self p w }
    {
        WeightedSum {
            sum: self.sum.plus(p.times(w)),
            weight: self.weight + w,
        }
    }
}
