// The border of a face: its edges and its points.
// Carries over t_nurcc_face.rs. Not here: the steps about a face, and what a border is (`walks`).
// Definitions: `walks`, specs/Border.antt.
#![tactic(auto)]

ghost use Rattle.std.specs.Prelude.{◌≡◌, List, ℕ, ◌+◌, ◌*◌, ◌≤◌, ◌<◌, length, replicate};
ghost use Rattle.tables.specs.Layout.{edge_width, face_width, longest_perimeter, longest_border};
ghost use Rattle.tables.specs.Parts.{face_tables};
ghost use Rattle.audited_meshes.specs.Folds.{again};
ghost use Rattle.walks.specs.declared.FaceBorder.{FaceBorder};
ghost use Rattle.walks.specs.Border.{laid, border, BorderLaid};

use tables::{FACE_WIDTH, LONGEST_BORDER, LONGEST_PERIMETER, index};
use walks::{FaceBorder, face_step};

// Stores the first four points once more behind the first n.
fn put_first_four(points: &mut [u32; LONGEST_BORDER], n: usize)
    requires n_le_longest_perimeter { n ≤ longest_perimeter }
    requires n_nonzero { 0 < n }
    ensures { (ps qs : List ℕ) → length ps ≡ n → length qs ≡ longest_border → points.old ≡ laid ps qs →
        points.new ≡ laid (again 4 ps) qs }
{
    points[n] = points[0];
    points[n + 1] = points[1];
    points[n + 2] = points[2];
    points[n + 3] = points[3];
}

// Lays the border of face f, from its start edge along the edges below ne, into arrays of any content: its edges, and its points with
// the first four again. Answers the number of its edges, none where the walk is lost. Further places of the arrays keep what they hold, so
// that one pair of arrays serves for the borders of many faces.
pub fn lay_border(
    edges: &[u32],
    faces: &[u32],
    ne: usize,
    f: usize,
    perimeter: &mut [u32; LONGEST_PERIMETER],
    points: &mut [u32; LONGEST_BORDER],
) -> Option<usize>
    requires edge_width_in_bounds { ne * edge_width ≤ length edges.now }
    requires face_width_in_bounds { f * face_width + face_width ≤ length faces.now }
    requires perimeter_len { length perimeter.old ≡ longest_perimeter }
    requires points_len { length points.old ≡ longest_border }
    ensures { BorderLaid (face_tables edges.now faces.now) ne f result perimeter.new points.new
        perimeter.old points.old }
{
    let start = faces[f * FACE_WIDTH];
    let mut e = start;
    for n in 0..LONGEST_PERIMETER {
        let step = face_step(edges, ne, f, index(e))?;
        perimeter[n] = e;
        points[n] = step.point;
        if step.next == start {
            put_first_four(points, n + 1);
            return Some(n + 1);
        }
        e = step.next;
    }
    None
}

// Makes the arrays of a border 0, for a walk that is lost.
fn clear(perimeter: &mut [u32; LONGEST_PERIMETER], points: &mut [u32; LONGEST_BORDER])
    ensures perimeter_after { perimeter.new ≡ replicate longest_perimeter 0 }
    ensures points_after { points.new ≡ replicate longest_border 0 }
{
    *perimeter = [0; LONGEST_PERIMETER];
    *points = [0; LONGEST_BORDER];
}

// Stores the border of face f, from its start edge along the edges below ne, in arrays of 0: its edges, and its points with the
// first four again. Answers the number of its edges, none where the walk is lost; then the arrays are 0.
pub fn put_border(
    edges: &[u32],
    faces: &[u32],
    ne: usize,
    f: usize,
    perimeter: &mut [u32; LONGEST_PERIMETER],
    points: &mut [u32; LONGEST_BORDER],
) -> Option<usize>
    requires edge_width_in_bounds { ne * edge_width ≤ length edges.now }
    requires face_width_in_bounds { f * face_width + face_width ≤ length faces.now }
    requires perimeter_value { perimeter.old ≡ replicate longest_perimeter 0 }
    requires points_value { points.old ≡ replicate longest_border 0 }
    ensures { ◌≡◌ {A = FaceBorder}
        (record { passed = result; edges = perimeter.new; points = points.new })
        (border (face_tables edges.now faces.now) ne f) }
{
    let passed = lay_border(edges, faces, ne, f, perimeter, points);
    if passed.is_none() {
        clear(perimeter, points);
    }
    passed
}

// The border of face f, from its start edge, along the edges below ne.
pub fn border(edges: &[u32], faces: &[u32], ne: usize, f: usize) -> FaceBorder
    requires edge_width_in_bounds { ne * edge_width ≤ length edges.now }
    requires face_width_in_bounds { f * face_width + face_width ≤ length faces.now }
    ensures { result ≡ border (face_tables edges.now faces.now) ne f }
{
    let mut perimeter = [0u32; LONGEST_PERIMETER];
    let mut points = [0u32; LONGEST_BORDER];
    let passed = put_border(edges, faces, ne, f, &mut perimeter, &mut points);
    FaceBorder {
        passed,
        edges: perimeter,
        points,
    }
}
