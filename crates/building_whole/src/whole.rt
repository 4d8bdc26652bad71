// Grounds 20 to 22, and the marks of extraordinary points.
ghost use Rattle.std.specs.Prelude.{◌≡◌, not, List, [], ℕ, ◌+◌, ◌*◌, ◌≤◌, ltb, Float, length};
ghost use Rattle.tables.specs.Layout.{point_width, edge_width};
ghost use Rattle.tables.specs.Mesh.{valence, mesh_of};
ghost use Rattle.audited_meshes.specs.Walks.{passed, point_walk};
ghost use Rattle.built_meshes.specs.Whole.{no_missing_face, every_edged, no_missed_edge, whole_verdict, mark_of, marked};
ghost use Rattle.tables.specs.Parts.{point_tables};

use built_meshes::Ground;
use edge_ends::NONE;
use t_nurcc_iter::point_walk;
use tables::{EDGE_WIDTH, MARK_WORD, POINT_WIDTH, RIGHT_FACE_WORD, index};

// Whether each of ne edges has a face on its right.
fn no_missing_face(edges: &[u32], ne: usize) -> bool
    requires { ne * edge_width ≤ length edges.now }
    ensures { result ≡ no_missing_face (point_tables [] edges.now) ne }
{
    for e in 0..ne {
        if edges[e * EDGE_WIDTH + RIGHT_FACE_WORD] == NONE {
            return false;
        }
    }
    true
}

// Whether each of np points has an edge.
fn every_edged(points: &[u32], np: usize) -> bool
    requires { np * point_width ≤ length points.now }
    ensures { result ≡ every_edged (point_tables points.now []) np }
{
    for p in 0..np {
        if points[p * POINT_WIDTH] == 0 {
            return false;
        }
    }
    true
}

// Whether the walk about point p passes as many edges as its valence.
fn walk_passes_all(points: &[u32], edges: &[u32], ne: usize, p: usize) -> bool
    requires point_width_in_bounds { p * point_width + point_width ≤ length points.now }
    requires edge_width_in_bounds { ne * edge_width ≤ length edges.now }
    ensures { result ≡ not (ltb (passed (point_walk (point_tables points.now edges.now) ne (valence
        (point_tables points.now []) p) p)) (valence (point_tables points.now []) p)) }
{
    let v = index(points[p * POINT_WIDTH]);
    match point_walk(edges, points, ne, v, p) {
        Some(n) => !(n < v),
        None => !(0 < v),
    }
}

// Whether no walk about one of np points misses an edge.
fn no_missed_edge(points: &[u32], edges: &[u32], np: usize, ne: usize) -> bool
    requires point_width_in_bounds { np * point_width ≤ length points.now }
    requires edge_width_in_bounds { ne * edge_width ≤ length edges.now }
    ensures { result ≡ no_missed_edge (point_tables points.now edges.now) np ne }
{
    for p in 0..np {
        if !walk_passes_all(points, edges, ne, p) {
            return false;
        }
    }
    true
}

// The first of the grounds 20 to 22 that holds.
pub fn whole_verdict(points: &[u32], edges: &[u32], np: usize, ne: usize) -> Result<(), Ground>
    requires point_width_in_bounds { np * point_width ≤ length points.now }
    requires edge_width_in_bounds { ne * edge_width ≤ length edges.now }
    ensures { (ps : List Float) (is : List Float) (fs : List ℕ) → result ≡ whole_verdict (mesh_of ps points.now edges.now is fs) np ne }
{
    if !no_missing_face(edges, ne) {
        return Err(Ground::MissingFace);
    }
    if !every_edged(points, np) {
        return Err(Ground::NoEdge);
    }
    if !no_missed_edge(points, edges, np, ne) {
        return Err(Ground::MissedEdge);
    }
    Ok(())
}

// The mark of a point by its valence.
fn mark_of(v: u32) -> u32
    ensures { result ≡ mark_of v }
{
    if v == 4 { 0 } else { 1 }
}

// Marks the first np points by their valences.
pub fn mark_points(points: &mut [u32], np: usize)
    requires { np * point_width ≤ length points.old }
    ensures { points.new ≡ marked np points.old }
{
    for p in 0..np {
        let b = p * POINT_WIDTH;
        points[b + MARK_WORD] = mark_of(points[b]);
    }
}
