// Document 01's starred pieces, and pieces of document 02, §4, computed on the definitions of building and of the step.
// Not here: the pieces without a star, which are run (`oracle_runs`), and the cases that the definitions' own crates compute.
// Lists and claims: `specs/Pieces.antt`, `specs/TextTwo.antt`. Proofs: `theorem` in `proofs/Pieces.antt`, `proofs/TextTwo.antt`.
#![tactic(auto)]
