// Depths that edges of a mesh cross (document 02, §2 and §9), as definitions, and what is claimed of the finder's answers.
// Not here: the code that finds (`depth_finder`).
// Definitions: `specs/Crossings.antt`. Claims: `specs/Claims.antt`, proved in `proofs/Theorem.antt` over `proofs/First.antt` (the first
// number that passes a test) and `proofs/Joined.antt` (chains of edges); computed meshes: `mesh_cases`.
#![tactic(auto)]

// The ground on which the depth finder names no edge. Its number stands beside it.
#[derive(Clone, Copy)]
pub enum NoCrossing {
    // 42: the depth is not finite
    NotFiniteDepth,
    // 30: the audit fails
    NotClosed,
    // 41: no edge crosses
    Nowhere,
}
