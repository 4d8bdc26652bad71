// What building makes of a text of any bytes (document 01, "Mesh text" and grounds 1 to 22), as a definition, with its theorems: when
// a text is accepted, when 1 and 2 are answered and what they leave, and that what is accepted is a mesh within the limits.
// Not here: the grammar (`mesh_text`), what building makes of lists (`built_meshes`), the code that builds (`text_building`).
// Definitions: `specs/TextBuilding.antt`. Claims: `specs/Claims.antt`, `specs/Within.antt`, proved in `proofs/Theorem.antt`. Computed pieces:
// `text_cases`.
#![tactic(auto)]

use built_meshes::Ground;

// Why there is no mesh of a text.
#[derive(Clone, Copy)]
pub enum TextRefusal {
    // 1: not of the form
    NotText,
    // 2 and later
    Refused(Ground),
}
