// Two runs of refining steps from one accepted mesh (document 01, "Naming for the runs" and the two paragraphs after it).
// Not here: the step (`steps`), names and what is shared (`closed_meshes`).
// Statement: `Demand3` in `specs/Runs.antt`. Proof: `theorem` in `proofs/Runs.antt`.
#![tactic(auto)]
