// Version 2 texts in which whole faces are turned round (document 02, §8), as definitions, and what is claimed of a mended text.
// Not here: the choice of faces (`mended_lists`), the grammar and the printing of texts (`mesh_text`, `mesh_printing`), the code that
// mends (`text_mending`).
// Definitions, in the order of reading: `specs/Turning.antt` (a face of a text turned round), `specs/Mending.antt` (the mender's answer
// and what it leaves of the text). Claims: `specs/Claims.antt`, proved in `proofs/Theorem.antt`; computed texts: `text_cases`.
#![tactic(auto)]

use built_meshes::Ground;

// The mender's answer to a text. The number stands beside each ground that building from lists does not have.
#[derive(Clone, Copy)]
pub enum TextMending {
    Mended,
    // 1: not of the form, or of version 1
    NotText,
    Refused(Ground),
    // 44: no choice of faces makes all neighbours run opposite ways
    Twisted,
}
