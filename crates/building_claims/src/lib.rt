// What else is claimed of building (`built_meshes`): that what lent tables held shows nowhere, and that every `connect` finds a state.
// With building computed on small lists.
// Not here: the definition of building and the theorem about it (`built_meshes`); document 01's own pieces (`filed_pieces`).
// Claims: `specs/LentContent.antt` and `specs/Connects.antt`, proved in the files of `proofs/` with their names. Computed pieces:
// `specs/Pieces.antt`, `proofs/Cases.antt`, `proofs/Pyramid.antt`.
#![tactic(auto)]
