// Whether tables of rows are a closed mesh (document 01, "Audit").
// Not here: closed meshes over any types and their refinement (`closed_meshes`), the code that walks and audits.
// Definitions: `specs/Walks.antt` (walks about faces and points), `specs/Audit.antt` (the audit as a test that computes),
// `specs/Audited.antt` (the same as propositions), `specs/Quick.antt` (the test in near linear time that code makes),
// `specs/Rows.antt` (the closed mesh over bounded numbers whose words stand in the tables).
// Theorems: tables pass the audit exactly if they hold a closed mesh over bounded numbers (`specs/Claims.antt`); the test and the
// propositions are equivalent, and the quick test equals the test (`specs/Forms.antt`).
// Proofs: `audit-is-audited` in `proofs/Audited.antt`, `quick-is-audit` in `proofs/Quick.antt`, `audit-is-closed` in
// `proofs/Holds.antt`. Laws for callers: `proofs/Tests.antt`, `proofs/Walks.antt`, `proofs/Audited.antt`, and of closed meshes
// `closed-rows` in `proofs/Closed.antt`. Computed meshes: `mesh_cases`.
#![tactic(auto)]
