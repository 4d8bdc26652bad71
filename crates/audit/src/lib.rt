// Whether tables of any content, with counts of any size, are a closed mesh (document 01, "Audit").
// It is linear in the mesh, save that past 32,768 points those with many edges are walked about once for each so many
// (`sole_edges`); it has no memory but locals and writes nothing.
// Not here: what is asked (`audited_meshes`: `audit`, and its quick form, which this code follows), the tests of its rows and
// walks (`audit_tests`, `audit_edges`, `face_rows`, `audit_faces`, `sole_edges`).
// Contract: `audit`. Definitions: `specs/Parts.antt`. Laws: `proofs/Whole.antt`.
#![tactic(auto)]

ghost use Rattle.std.specs.Prelude.{◌≡◌, [], ℕ, ◌*◌, ◌≤◌, ◌<◌, length};
ghost use Rattle.tables.specs.Layout.{position_width, point_width, edge_width, face_width};
ghost use Rattle.tables.specs.Mesh.{valence};
ghost use Rattle.tables.specs.Lent.{tables_of};
ghost use Rattle.audited_meshes.specs.Audit.{audit};
ghost use Rattle.tables.specs.Parts.{face_tables, point_tables};
ghost use Rattle.few_edges.specs.Rounds.{Ends};
ghost use Rattle.audit.specs.Parts.{rows_fit, walks_fit};

use audit_edges::edges_fit;
use audit_faces::face_walks_fit;
use audit_tests::points::{points_fit, valences_fit};
use counted_rows::rows_for;
use face_rows::faces_fit;
use sole_edges::walks_with_sole_edges;
use tables::{Counts, MeshTables};

// The tests of single rows.
fn rows_fit(t: &MeshTables, counts: Counts) -> bool
    requires position_width_in_bounds { counts.points * position_width ≤ length t.now.positions.now }
    requires point_width_in_bounds { counts.points * point_width ≤ length t.now.points.now }
    requires edge_width_in_bounds { counts.edges * edge_width ≤ length t.now.edges.now }
    requires edges_in_bounds { counts.edges ≤ length t.now.intervals.now }
    requires face_width_in_bounds { counts.faces * face_width ≤ length t.now.faces.now }
    ensures { result
        ≡ rows_fit t.now.positions.now t.now.points.now t.now.edges.now t.now.intervals.now t.now.faces.now
        counts.points counts.edges counts.faces }
{
    let np = counts.points;
    let ne = counts.edges;
    let nf = counts.faces;
    if !points_fit(t.positions, t.points, ne, np) {
        return false;
    }
    if !edges_fit(t.edges, t.intervals, np, ne, nf) {
        return false;
    }
    faces_fit(t.faces, np, ne, nf)
}

// The sums and the walks.
fn walks_fit(points: &[u32], edges: &[u32], faces: &[u32], counts: Counts) -> bool
    requires point_width_in_bounds { counts.points * point_width ≤ length points.now }
    requires edge_width_in_bounds { counts.edges * edge_width ≤ length edges.now }
    requires face_width_in_bounds { counts.faces * face_width ≤ length faces.now }
    requires ends { Ends (face_tables edges.now []) counts.points counts.edges }
    requires by_index { (p : ℕ) → p < counts.points → 2 ≤ valence (point_tables points.now []) p }
    ensures { result ≡ walks_fit points.now edges.now faces.now counts.points counts.edges counts.faces }
{
    let np = counts.points;
    let ne = counts.edges;
    let nf = counts.faces;
    let total = 2 * ne;
    if !valences_fit(points, np, total) {
        return false;
    }
    if !face_walks_fit(edges, faces, ne, nf, total) {
        return false;
    }
    walks_with_sole_edges(points, edges, np, ne)
}

// Whether the tables are a closed mesh.
pub fn audit(t: &MeshTables, counts: Counts) -> bool
    ensures { result ≡ audit (tables_of t.now) counts.points counts.edges counts.faces }
{
    if !rows_for(counts, t) {
        return false;
    }
    if !rows_fit(t, counts) {
        return false;
    }
    walks_fit(t.points, t.edges, t.faces, counts)
}
