// Demand 1 in one place: what becomes of every lists, every text and every tables that are handed in, with what is left in every row.
// Not here: what is proved of building (`built_meshes`), of texts (`text_meshes`), of the audit (`audited_meshes`) and of the step (`steps`),
// which is cited.
// Claims: `specs/Outcomes.antt`, proved in `proofs/Theorem.antt`.
