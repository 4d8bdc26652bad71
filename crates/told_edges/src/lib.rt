// What is told of an edge of a face by the lists, as a definition, and what is claimed of it (no functions).
// Not here: the code that looks it up (`edge_lookups`), which edge it is (`text_places`), the edges of a text (`explained_edges`).
// Definitions: `specs/Told.antt`. Claims: `specs/Claims.antt`, proved in `proofs/Theorem.antt`. Laws: `proofs/Laws.antt`.
#![tactic(auto)]

// An edge of a face: there is none, or the points that it runs from and to, and the first face before that runs it the same way, if one does.
#[derive(Clone, Copy)]
pub enum ToldEdge {
    Missing,
    First(u32, u32),
    Again(u32, u32, usize),
}
