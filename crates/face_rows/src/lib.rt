// The tests of the audit about the rows of faces: the test of one row and the loop over the rows.
// Not here: the walks about faces (`audit_faces`), the audit made of them (`audit`).
// Contract: `faces_fit`. Definition: `Quick` of `audited_meshes`. Laws: `proofs/RowTests.antt`.
#![tactic(auto)]

ghost use Rattle.std.specs.Prelude.{◌≡◌, ◌||◌, [], ◌+◌, ◌*◌, ◌≤◌, eqb, ltb, length};
ghost use Rattle.tables.specs.Layout.{face_width};
ghost use Rattle.tables.specs.Mesh.{none};
ghost use Rattle.tables.specs.Parts.{face_tables};
ghost use Rattle.audited_meshes.specs.Folds.{every};
ghost use Rattle.audited_meshes.specs.Quick.{face_fit};

use edge_ends::NONE;
use tables::{
    FACE_WIDTH, FIRST_CORNER_WORD, FOURTH_CORNER_WORD, SECOND_CORNER_WORD, THIRD_CORNER_WORD, index,
};

// Whether a corner is a point number or the none mark.
fn corner_fit(word: u32, np: usize) -> bool
    ensures { result ≡ (ltb word np || eqb word none) }
{
    if index(word) < np {
        return true;
    }
    word == NONE
}

// The test of face f.
fn face_fit(faces: &[u32], np: usize, ne: usize, f: usize) -> bool
    requires { f * face_width + face_width ≤ length faces.now }
    ensures { result ≡ face_fit (face_tables [] faces.now) np ne f }
{
    let b = f * FACE_WIDTH;
    if ne <= index(faces[b]) {
        return false;
    }
    if !corner_fit(faces[b + FIRST_CORNER_WORD], np) {
        return false;
    }
    if !corner_fit(faces[b + SECOND_CORNER_WORD], np) {
        return false;
    }
    if !corner_fit(faces[b + THIRD_CORNER_WORD], np) {
        return false;
    }
    corner_fit(faces[b + FOURTH_CORNER_WORD], np)
}

// The test of the first nf faces.
pub fn faces_fit(faces: &[u32], np: usize, ne: usize, nf: usize) -> bool
    requires { nf * face_width ≤ length faces.now }
    ensures { result ≡ every nf (λ f. face_fit (face_tables [] faces.now) np ne f) }
{
    for f in 0..nf {
        if !face_fit(faces, np, ne, f) {
            return false;
        }
    }
    true
}
