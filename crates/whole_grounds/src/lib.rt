// Grounds 20, 21 and 22 told by the places of faces in which nothing else is met, as a definition, and that they are building's.
// Not here: the code (`whole_tests`), the grounds in the faces (`refusal_places`).
// Definitions: `specs/Turning.antt`. Claims: `specs/Claims.antt`, proved in `proofs/Theorem.antt`. Laws: `proofs/Turning.antt`, `proofs/Steps.antt`.
#![tactic(auto)]
