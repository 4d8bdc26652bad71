// What building asks of the tables after the faces are entered: grounds 20 to 22, and the marks of extraordinary points.
// Not here: ground 4 (`counted_rows`), single faces (`building_tests`), the faces entered (`building_faces`), the whole (`building`).
// Definitions: `Whole` of `built_meshes`. Laws: `proofs/Laws.antt`.
#![tactic(auto)]

pub mod whole;
