// The two ends of mesh texts 1 and 2 (document 01, "Mesh text"; document 02, §4): the head, which names the version, and the end line,
// which is the last of the text.
// Not here: the grammar (`mesh_text`), the lines between the two (`point_lines`, `face_lines`), the whole text (`text_sizes`).
// Contracts: `read_head`, `ends`. Definitions and laws: `mesh_text`.
#![tactic(auto)]

ghost use Rattle.std.specs.Prelude.{◌≡◌, ◌≤◌, length};
ghost use Rattle.mesh_text.specs.Text.{head_form, ends};
ghost use Rattle.mesh_text.specs.Parts.{head_of};

use built_meshes::Version;
use text_numbers::stands;

// The version that the head of a text names.
pub fn read_head(s: &[u8]) -> Option<Version>
    ensures { result ≡ head_of (head_form s.now 0) }
{
    if stands(s, 0, b"[mesh 1]\n") {
        return Some(Version::One);
    }
    if stands(s, 0, b"[mesh 2]\n") {
        return Some(Version::Two);
    }
    None
}

// Whether the end line stands at a place and is the last of the text.
pub fn ends(s: &[u8], at: usize) -> bool
    requires { at ≤ length s.now }
    ensures { result ≡ ends s.now at }
{
    if !stands(s, at, b"[end]\n") {
        return false;
    }
    at + 6 == s.len()
}
