// What the program `refine` writes for the bytes of a text (document 01, "Mesh text"), as a definition, with its theorems: the step of
// a mesh that is accepted is made or meets 33, 256 bytes hold every output, and document 01's cube has document 01's three lines.
// Not here: the code that writes it (`refine_parts`, `refine`).
// Definitions: `specs/Output.antt`; `specs/FirstPoint.antt` (point 0 after a step). Claims: `specs/Claims.antt`, `specs/Bytes.antt`, proved in
// `proofs/Theorem.antt`. Laws for the code: `proofs/Orders.antt`, `proofs/FirstPoint.antt`. Computed outputs: `text_cases`.
#![tactic(auto)]
