// The first scan of mesh texts 1 and 2 (document 01, "Mesh text"; document 02, §4): whether a text is of the form, what it has, and
// whether that is within the limits. Nothing is stored.
// Not here: the grammar (`mesh_text`), the head and the end line (`text_ends`), the second scan, which stores (`text_reading`).
// Contracts: `sizes`, `within`. Definitions and laws: `mesh_text`.
#![tactic(auto)]

ghost use Rattle.std.specs.Prelude.{◌≡◌};
ghost use Rattle.mesh_text.specs.Text.{text};
ghost use Rattle.mesh_text.specs.Reading.{within};
ghost use Rattle.mesh_text.specs.Parts.{total_of};

use built_meshes::Version;
use face_lines::count_faces;
use point_lines::count_points;
use tables::Sizes;
use text_ends::{ends, read_head};

// The version of a text, and how many points, faces and listed points it has. Its numbers are stored nowhere.
pub fn sizes(s: &[u8]) -> Option<(Version, Sizes)>
    ensures { result ≡ total_of (text s.now) }
{
    let version = read_head(s)?;
    let (points, i) = count_points(s, 9)?;
    let lines = count_faces(s, i)?;
    if !ends(s, lines.after) {
        return None;
    }
    let counts = Sizes {
        points,
        faces: lines.faces,
        listed: lines.listed,
    };
    Some((version, counts))
}

// Whether the counts are within the limits and within the rooms of the five lists.
pub fn within(
    c: Sizes,
    limits: Sizes,
    xs: usize,
    ls: usize,
    ps: usize,
    ds: usize,
    qs: usize,
) -> bool
    ensures { result ≡ within c limits xs ls ps ds qs }
{
    c.points <= limits.points
        && c.faces <= limits.faces
        && c.listed <= limits.listed
        && c.listed <= 4294967295
        && c.points <= xs / 3
        && c.faces <= ls / 4
        && c.listed <= ps
        && c.listed <= ds
        && c.faces <= qs / 4
}
