// The topology of one refinement in the order handed in (document 01, "One refinement"), and its closed form.
// Not here: the positions of the points after it (`position_rules`), and the code that makes both (`visiting`, `placing`).
// Definitions: `specs/Visits.antt` (the visits of the faces in the scratch tables), over `specs/State.antt` (the tables and the rows
// taken), `specs/Split.antt` (the splitting of an edge), `specs/Ring.antt` (what is written about a face) and `specs/Turns.antt`;
// `specs/Settled.antt` (what the second edition settles after the visits).
// Theorems: `VisitsRefine` of `specs/Refines.antt` (visits in an order that names each face once make the refinement on kinds, under
// the numbering that they make, in either edition; proved in `proofs/Refines.antt` and `proofs/Settled.antt`); `VisitsFit` and `AllTaken` of `specs/Fits.antt` (every row that is
// stored fits, and all are taken in the end; `proofs/Fits.antt`).
// The definitions computed on the oracle's records: `mesh_cases`. Laws for callers: `proofs/Turns.antt`, `proofs/Laws.antt`.
#![tactic(auto)]

// The editions of a step, of which the caller chooses one (document 02, §5).
#[derive(Clone, Copy)]
pub enum Edition {
    // the Rust's: edge points weigh at old points, and a joining interval is the sum of two intervals as found on arriving
    First,
    // the published rule: equation 15's m weighs at old points, and a joining interval is a quarter of the sum of two whole intervals
    Second,
}
