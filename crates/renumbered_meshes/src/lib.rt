// Meshes in tables that are one but for the numbers of their rows: walks go along with the numbers, and every position of one
// refinement is the same bit for bit (document 02, §7).
// No function: definitions, one claim, and its proof. Not here: two runs (`runs`).
//
// Definitions and claims: `specs/Renumbered.antt` (what it is to be renumbered), `specs/Claims.antt` (what goes along).
// Proofs, in the order in which they build on each other:
//     proofs/Steps.antt          one step about a point and about a face
//     proofs/Walks.antt          walks, borders, the edge to a neighbour
//     proofs/Intervals.antt      A1 to C2, d + A2 + C2
//     proofs/FacePoints.antt     windows and face points
//     proofs/EdgePoints.antt     m of equation 15, edge points
//     proofs/OldPoints.antt      the face between two edges about a point, old points
//     proofs/Rules.antt          all of it: `rules-follow`
//     proofs/Isomorphisms.antt   an isomorphism of closed meshes that keeps start edges and numbers renumbers: `isomorphism-renumbers`
#![tactic(auto)]
