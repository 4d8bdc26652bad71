// Lists of version 2 in which whole faces are turned round (document 02, §8), as definitions, and what is claimed of the choice of faces.
// Not here: the code that chooses (`face_choices`, `list_mending`).
// Definitions, in the order of reading: `specs/InTurn.antt` (lists given by their parts), `specs/Reversal.antt` (faces reversed),
// `specs/Edges.antt` (the places of all faces in their order, and which of them are on one edge), `specs/Parts.antt` (parts, and the choice
// of faces), `specs/Mending.antt` (the mender's answer), `specs/Grounds.antt` (when each ground is met). Claims: `specs/Claims.antt`, proved in
// `proofs/Theorem.antt`, `proofs/Passed.antt`, `proofs/Again.antt`; those of the order: `specs/Grounds.antt`, proved in `proofs/Grounds.antt`;
// a computed face and meshes: `proofs/Cases.antt`.
#![tactic(auto)]

use built_meshes::Ground;

// The part of a face: the lowest-numbered face of the part, and whether the face is turned if that one stays.
#[derive(Clone, Copy)]
pub struct Part {
    pub root: u32,
    pub odd: bool,
}

// Why lists are not mended. The number stands beside the ground that building does not have.
#[derive(Clone, Copy)]
pub enum Unmended {
    Refused(Ground),
    // 44: no choice of faces makes all neighbours run opposite ways
    Twisted,
}
