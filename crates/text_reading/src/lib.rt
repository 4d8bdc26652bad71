// The reader of mesh texts 1 and 2 (document 01, "Mesh text"; document 02, §4): a text that is of the form and within the limits is
// stored in lent lists.
// Not here: the grammar (`mesh_text`), the first scan, which tests the form and counts (`text_sizes`), grounds 3 and later (building).
// Contract: `read_text`. Definitions and laws: `mesh_text`.
#![tactic(auto)]

ghost use Rattle.std.specs.Prelude.{◌≡◌};
ghost use Rattle.mesh_lines.specs.Parts.{Parses, stored};
ghost use Rattle.mesh_text.specs.Text.{text};
ghost use Rattle.mesh_text.specs.Reading.{ReadOutcome, read_into, reading_numbers};
ghost use Rattle.mesh_text.specs.Lists.{coordinates, firsts, listed_points, intervals};
ghost use Rattle.mesh_text.specs.Parts.{length_words};

use built_meshes::Version;
use face_lines::store_faces;
use mesh_text::ReadingGround;
use point_lines::store_points;
use tables::Sizes;
use text_sizes::{sizes, within};

// Stores the numbers of a text in the lists, as far as these have rows.
fn store(s: &[u8], xs: &mut [f64], ls: &mut [u32], qs: &mut [u32], ps: &mut [u32], ds: &mut [f64])
    requires { Parses (text s.now) }
    ensures coordinates { xs.new ≡ stored coordinates xs.old 0 (text s.now) }
    ensures lengths { ls.new ≡ stored length_words ls.old 0 (text s.now) }
    ensures firsts { qs.new ≡ stored firsts qs.old 0 (text s.now) }
    ensures points { ps.new ≡ stored listed_points ps.old 0 (text s.now) }
    ensures intervals { ds.new ≡ stored intervals ds.old 0 (text s.now) }
{
    let i = store_points(s, 9, xs);
    store_faces(s, i, ls, qs, ps, ds);
}

// Reads a text, and answers its version and its sizes: the coordinates of its points, the lengths and first points of its sides, the listed points and their intervals, each at the front of its list.
// A text that is not of the form, or is over the limits or the room of the lists, leaves the lists as they are.
pub fn read_text(
    s: &[u8],
    limits: Sizes,
    xs: &mut [f64],
    ls: &mut [u32],
    qs: &mut [u32],
    ps: &mut [u32],
    ds: &mut [f64],
) -> Result<(Version, Sizes), ReadingGround>
    ensures outcome { ◌≡◌ {A = ReadOutcome}
        (record { reading = result; lists = record { coordinates = xs.new; lengths = ls.new; firsts = qs.new; listed = ps.new; intervals = ds.new } })
        (read_into s.now limits
        (record { coordinates = xs.old; lengths = ls.old; firsts = qs.old; listed = ps.old; intervals = ds.old })) }
    ensures told { reading_numbers result
        ≡ reading_numbers (read_into s.now limits
        (record { coordinates = xs.old; lengths = ls.old; firsts = qs.old; listed = ps.old; intervals = ds.old })
        ).reading }
{
    let (version, c) = sizes(s).ok_or(ReadingGround::NotText)?;
    if !within(c, limits, xs.len(), ls.len(), ps.len(), ds.len(), qs.len()) {
        return Err(ReadingGround::OverLimits);
    }
    store(s, xs, ls, qs, ps, ds);
    Ok((version, c))
}
