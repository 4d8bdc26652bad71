// What is told of an edge of a mesh text of any bytes, as a definition, and what is claimed of it where building refuses the text by
// 14 or 15 (no functions).
// Not here: the code that tells it (`text_edges`), where the text is refused (`text_places`), the lists alone (`told_edges`).
// Definitions: `specs/TextEdges.antt`. Claims: `specs/Claims.antt`, proved in `proofs/Theorem.antt`. Laws: `proofs/Laws.antt`.
#![tactic(auto)]
