// Definitions about meshes computed on small ones, closed, spoilt and recorded from the oracle: that they say what they are meant to, on
// figures from outside. No functions. They stand apart from their definitions, so that a wrong edit of those does not compute them again.
// Not here: document 01's starred pieces (`filed_pieces`), texts (`text_cases`), and the cases of building (`built_meshes`).
// Meshes: `proofs/Meshes.antt` (closed and spoilt), `proofs/Records.antt` (as the Rust leaves them). Computed on them: `proofs/Audited.antt`
// (the audit), `proofs/Crossings.antt` (depths), `proofs/Refined.antt` (the visits), `proofs/Rules.antt` (new positions),
// `proofs/Steps.antt` (the step and its grounds), `proofs/Agreement.antt` (two orders of one mesh).
#![tactic(auto)]
