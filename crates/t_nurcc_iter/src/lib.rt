// The walks about a face and about a point, which count the edges that they pass.
// Carries over t_nurcc_iter.rs. Not here: the steps of a walk, and what a walk is (`walks`).
// Definitions: `walks`, specs/Steps.antt; `audited_meshes`, specs/Walks.antt.
#![tactic(auto)]

ghost use Rattle.std.specs.Prelude.{◌≡◌, ◌+◌, ◌*◌, ◌≤◌, length};
ghost use Rattle.tables.specs.Layout.{point_width, edge_width, face_width};
ghost use Rattle.tables.specs.Parts.{face_tables, point_tables};
ghost use Rattle.audited_meshes.specs.Walks.{face_walk, point_walk};
ghost use Rattle.walks.specs.Steps.{passed_by};

use tables::{FACE_WIDTH, LONGEST_PERIMETER, POINT_WIDTH, START_WORD, index};
use walks::{face_step, point_step};

// The number of edges that the walk about face f passes, of at most 64; none where the walk is lost.
pub fn face_walk(edges: &[u32], faces: &[u32], ne: usize, f: usize) -> Option<usize>
    requires edge_width_in_bounds { ne * edge_width ≤ length edges.now }
    requires face_width_in_bounds { f * face_width + face_width ≤ length faces.now }
    ensures { result ≡ passed_by (face_walk (face_tables edges.now faces.now) ne f) }
{
    let start = faces[f * FACE_WIDTH];
    let mut e = start;
    for n in 0..LONGEST_PERIMETER {
        let step = face_step(edges, ne, f, index(e))?;
        if step.next == start {
            return Some(n + 1);
        }
        e = step.next;
    }
    None
}

// The number of edges that the walk about point p passes, of at most k; none where the walk is lost.
pub fn point_walk(edges: &[u32], points: &[u32], ne: usize, k: usize, p: usize) -> Option<usize>
    requires edge_width_in_bounds { ne * edge_width ≤ length edges.now }
    requires point_width_in_bounds { p * point_width + point_width ≤ length points.now }
    ensures { result ≡ passed_by (point_walk (point_tables points.now edges.now) ne k p) }
{
    let start = points[p * POINT_WIDTH + START_WORD];
    let mut e = start;
    for v in 0..k {
        let step = point_step(edges, ne, p, index(e))?;
        if step.next == start {
            return Some(v + 1);
        }
        e = step.next;
    }
    None
}
