// Definitions about texts computed on small ones, of which the answers are known: document 01's cube to the byte among them. No functions.
// They stand apart from their definitions, so that a wrong edit of those does not compute them again.
// Computed: `proofs/Texts.antt` (building from a text), `proofs/Outputs.antt` (the program `refine`), `proofs/Mended.antt` (the mender).
#![tactic(auto)]
