// What the program `handover` writes for the bytes of a text (document 02, §1), as a definition, with its claims: the listing of the
// mesh after one step in numbered order, or the line of one ground alone.
// Not here: the code that writes it (`handover_parts`, `handover`).
// Definitions: `specs/Output.antt`. Claims: `specs/Claims.antt`, proved in `proofs/Theorem.antt`. Computed outputs: `proofs/Cases.antt`.
#![tactic(auto)]
