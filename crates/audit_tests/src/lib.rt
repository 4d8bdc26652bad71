// The tests of the audit (document 01, "Audit") about points: `points` has the test of one row, the loops over the rows, and
// whether a point is new among others.
// Not here: the walks about points (`sole_edges`), the tests about edges (`audit_edges`) and faces (`audit_faces`), the audit made of
// them (`audit`), what is asked (`audited_meshes`).
// Definitions, of all of them: `specs/Parts.antt`. Laws for all of them: `proofs/Laws.antt`.
#![tactic(auto)]

pub mod points;
