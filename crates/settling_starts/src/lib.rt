// The start edges of points that the second edition of a step settles in the scratch tables once all faces are visited (document 02, §6
// and §7): an old point keeps its start edge, or has the new half of it; a midpoint has its destination half, a face point the joining edge
// for its face's old start edge.
// Names: `newpoints`, `newedges` and `newfaces` are the tables of points, edges and faces of the refined mesh.
// Not here: the visits (`visiting`), the intervals of joining edges (`settling`).
// Contract: `settle_starts`. Definitions: `refined_meshes`, specs/Starts.antt; what the functions ask: specs/Fits.antt.
#![tactic(auto)]

ghost use Rattle.std.specs.Prelude.{◌≡◌, []};
ghost use Rattle.tables.specs.Mesh.{mesh_of, edge_table, dest, corner};
ghost use Rattle.refined_meshes.specs.declared.Edition.TheVariants.{Second};
ghost use Rattle.refined_meshes.specs.State.{state_of};
ghost use Rattle.refined_meshes.specs.Starts.{new_half, old_start, centre_join, starts_put, points_of_edition};
ghost use Rattle.settling_starts.specs.Fits.{HalfFits, OldFits, CentreFits, OldsFit, MidsFit, CentresFit, StartsFit};

use tables::{
    Counts, DEST_WORD, EDGE_WIDTH, FACE_WIDTH, FIRST_CORNER_WORD, LEFT_ACW_WORD, LEFT_FACE_WORD,
    POINT_WIDTH, RIGHT_CW_WORD, START_WORD, index,
};

// The destination half of the old edge e: LeftAcw of the joining edge on its left.
fn new_half(newedges: &[u32], e: usize) -> u32
    requires { HalfFits newedges.now e }
    ensures { result ≡ new_half (edge_table newedges.now) e }
{
    let join = index(newedges[e * EDGE_WIDTH + LEFT_ACW_WORD]);
    newedges[join * EDGE_WIDTH + LEFT_ACW_WORD]
}

// The start edge of the old point p.
fn old_start(points: &[u32], edges: &[u32], newedges: &[u32], p: usize) -> u32
    requires { OldFits points.now edges.now newedges.now p }
    ensures { result ≡ old_start (mesh_of [] points.now edges.now [] []) (edge_table newedges.now) p }
{
    let start = points[p * POINT_WIDTH + START_WORD];
    let e = index(start);
    let far = index(edges[e * EDGE_WIDTH + DEST_WORD]);
    if far == p {
        new_half(newedges, e)
    } else {
        start
    }
}

// The start edge of the face point of face f.
fn centre_start(edges: &[u32], faces: &[u32], newedges: &[u32], f: usize) -> u32
    requires { CentreFits edges.now faces.now newedges.now f }
    ensures { result ≡ centre_join (mesh_of [] [] edges.now [] faces.now) (edge_table newedges.now) f }
{
    let e = index(faces[f * FACE_WIDTH]);
    let b = e * EDGE_WIDTH;
    let left = index(edges[b + LEFT_FACE_WORD]);
    if left == f {
        newedges[b + LEFT_ACW_WORD]
    } else {
        newedges[b + RIGHT_CW_WORD]
    }
}

// Settles the start edges of the old points.
fn settle_olds(points: &[u32], edges: &[u32], np: usize, newedges: &[u32], newpoints: &mut [u32])
    requires { OldsFit points.now edges.now np newedges.now newpoints.old }
    ensures { newpoints.new
        ≡ starts_put np (λ p. p) (old_start (mesh_of [] points.now edges.now [] []) (edge_table newedges.now))
        newpoints.old }
{
    for p in 0..np {
        let start = old_start(points, edges, newedges, p);
        newpoints[p * POINT_WIDTH + START_WORD] = start;
    }
}

// Settles the start edges of the midpoints.
fn settle_mids(ne: usize, newedges: &[u32], newpoints: &mut [u32])
    requires { MidsFit ne newedges.now newpoints.old }
    ensures { newpoints.new
        ≡ starts_put ne (dest (edge_table newedges.now)) (new_half (edge_table newedges.now)) newpoints.old }
{
    for e in 0..ne {
        let p = index(newedges[e * EDGE_WIDTH + DEST_WORD]);
        let start = new_half(newedges, e);
        newpoints[p * POINT_WIDTH + START_WORD] = start;
    }
}

// Settles the start edges of the face points.
fn settle_centres(
    edges: &[u32],
    faces: &[u32],
    nf: usize,
    newedges: &[u32],
    newfaces: &[u32],
    newpoints: &mut [u32],
)
    requires { CentresFit edges.now faces.now nf newedges.now newfaces.now newpoints.old }
    ensures { newpoints.new
        ≡ starts_put nf (λ f. corner (mesh_of [] [] [] [] newfaces.now) f 0)
        (centre_join (mesh_of [] [] edges.now [] faces.now) (edge_table newedges.now))
        newpoints.old }
{
    for f in 0..nf {
        let p = index(newfaces[f * FACE_WIDTH + FIRST_CORNER_WORD]);
        let start = centre_start(edges, faces, newedges, f);
        newpoints[p * POINT_WIDTH + START_WORD] = start;
    }
}

// Settles the start edges of all points of the refined mesh.
pub fn settle_starts(
    points: &[u32],
    edges: &[u32],
    faces: &[u32],
    counts: Counts,
    newedges: &[u32],
    newfaces: &[u32],
    newpoints: &mut [u32],
)
    requires { StartsFit points.now edges.now faces.now counts newedges.now newfaces.now newpoints.old }
    ensures { newpoints.new
        ≡ points_of_edition Second (mesh_of [] points.now edges.now [] faces.now) counts.points counts.edges
        counts.faces (state_of newpoints.old newedges.now [] newfaces.now 0 0 0) }
{
    settle_olds(points, edges, counts.points, newedges, newpoints);
    settle_mids(counts.edges, newedges, newpoints);
    settle_centres(edges, faces, counts.faces, newedges, newfaces, newpoints);
}
