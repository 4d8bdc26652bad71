// Where the first ground among the faces of lists is met, of those that stand at a face or at an edge: 10 to 15 and 43.
// Not here: the code that finds it (`face_grounds`), and the grounds of the lists and of the whole, which have no place.
// Definitions: `specs/Spots.antt`. Claims: `specs/Claims.antt`, proved in `proofs/Theorem.antt`. Laws of edges: `proofs/Edges.antt`.
#![tactic(auto)]

use built_meshes::Ground;

// The place of a ground: a face, or an edge of it by its place in the face, both from 0, with the ground.
#[derive(Clone, Copy)]
pub enum Spot {
    Face(usize, Ground),
    Edge(usize, usize, Ground),
}
