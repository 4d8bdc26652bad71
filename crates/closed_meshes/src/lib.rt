// The mathematics of closed meshes: what document 01 calls closed, one refinement, names, and what two runs share.
// No function and no table: meshes are over any types of points, edges and faces.
// Not here: the audit over tables (`audited_meshes`), positions and intervals, the step as code.
//
// Definitions, in the order in which to read them:
//     specs/Mesh.antt          a mesh and its darts (an edge seen from one side)
//     specs/Cycles.antt        walks that come round
//     specs/Closed.antt        when a mesh is closed
//     specs/Refinement.antt    one refinement in closed form, on kinds of rows
//     specs/Renumbering.antt   isomorphisms, rows as numbers
//     specs/Borders.antt       what walks pass: each dart once, the border of a new face
//     specs/Names.antt         the names of rows in a run
//     specs/Shared.antt        what two meshes with names share
//     specs/Runs.antt          runs of refinements
//
// Claims and their proofs:
//     StaysClosed     a refined closed mesh is closed                              proofs/Refinement.antt, stays_closed
//     NewBorders      the walk about a new face passes its border                  proofs/NewBorders.antt, new-borders
//     NewCorners      its corners are the points of the walk from the face point   proofs/NewBorders.antt, new-corners
//     CarriesOver     closed carries over any isomorphism                          proofs/Isomorphisms.antt, carries_over
//     RunsNameApart   no two rows of a kind share a name                           proofs/Names.antt, names-differ
//     TwoRuns         two runs with equally many steps are shared                  proofs/TwoRuns.antt, theorem
//     SharedIsAll     nothing but row numbers and start edges is left out of it    proofs/SharedIsAll.antt, shared-is-all
// Laws for callers: a walk passes each dart once, any start will do, lengths are unique (proofs/Cycles.antt); next darts, sizes and
// start darts are settled by the mesh (proofs/Unique.antt); injective numbers in range are a numbering (proofs/Counting.antt); counts
// of rows (proofs/Counts.antt); any numbering makes a step (proofs/Runs.antt). An instance: two triangles back to back
// (proofs/Cases.antt).
#![tactic(auto)]
