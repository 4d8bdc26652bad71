// The visits of the faces, in the order handed in, which make the refined mesh's topology in the scratch tables.
// Carries over the loop over the faces of `global_subdivide` (t_nurcc/mod.rs). A visit takes a row for the face point, reads the
// perimeter's intervals as found on arriving, splits what is not yet split, and writes the ring.
// Not here: positions (`placing`), whether the mesh may be refined (`step_grounds`).
// Definitions: `refined_meshes`, specs/Visits.antt; `specs/Visiting.antt` for what must hold. Laws for callers: `proofs/Laws.antt`.
#![tactic(auto)]

ghost use Rattle.std.specs.Prelude.{◌≡◌, List, [], ℕ, ◌+◌, ◌-◌, ◌*◌, ◌≤◌, ◌<◌, length, Float};
ghost use Rattle.tables.specs.Layout.{edge_width, face_width, longest_perimeter};
ghost use Rattle.tables.specs.declared.Counts.{Counts};
ghost use Rattle.tables.specs.Parts.{face_tables};
ghost use Rattle.refined_meshes.specs.Turns.{turns};
ghost use Rattle.refined_meshes.specs.State.{State, copied};
ghost use Rattle.refined_meshes.specs.Ring.{put_join, put_first, put_second};
ghost use Rattle.refined_meshes.specs.Visits.{ring_of, put_ring, visit_along, visit, visits, refined_rows};
ghost use Rattle.refined_meshes.specs.Fits.{VisitFits};
ghost use Rattle.splitting.specs.Scratch.{tables_of};
ghost use Rattle.ring_rows.specs.Rings.{ring, Small, EdgesThere};
ghost use Rattle.visiting.specs.Visiting.{RowsThere, Ceilings, PlacesLent, RingFits, AlongFits, EachVisitFits};
ghost use Rattle.tables.specs.Mesh.{mesh_of};

use ring_edges::{put_firsts, put_joins, put_seconds};
use ring_faces::{put_face_point, put_new_faces};
use ring_places::{put_found, put_places};
use ring_rows::RingRows;
use splitting::split_all;
use t_nurcc_face::put_border;
use tables::{
    Counts, EDGE_WIDTH, FACE_WIDTH, LONGEST_BORDER, LONGEST_PERIMETER, POINT_WIDTH, copy_first,
    index,
};

// Stores the edges of a ring: the joining edges, then the halves on the side of the face.
fn put_ring_edges(
    edges: &[u32],
    newedges: &mut [u32],
    newintervals: &mut [f64],
    perimeter: &[u32; LONGEST_PERIMETER],
    firsts: &[u32; LONGEST_PERIMETER],
    seconds: &[u32; LONGEST_PERIMETER],
    mids: &[u32; LONGEST_PERIMETER],
    found: &[f64; LONGEST_PERIMETER],
    rows: RingRows,
)
    requires small { Small rows }
    requires edge_width_in_bounds { (rows.joins + rows.size) * edge_width ≤ length newedges.old }
    requires size_in_bounds { rows.joins + rows.size ≤ length newintervals.old }
    requires edges_there { EdgesThere edges.now perimeter.now rows.size }
    requires edges_there_2 { EdgesThere newedges.old firsts.now rows.size }
    requires edges_there_3 { EdgesThere newedges.old seconds.now rows.size }
    ensures { (ps fs : List ℕ) (c : Counts) →
        ◌≡◌ {A = State}
        (tables_of ps newedges.new newintervals.new fs c)
        (turns rows.size
        (put_second (face_tables edges.now [])
        (ring rows perimeter.now firsts.now seconds.now mids.now found.now))
        (turns rows.size
        (put_first (face_tables edges.now [])
        (ring rows perimeter.now firsts.now seconds.now mids.now found.now))
        (turns rows.size
        (put_join (ring rows perimeter.now firsts.now seconds.now mids.now found.now))
        (tables_of ps newedges.old newintervals.old fs c)))) }
{
    put_joins(newedges, newintervals, firsts, seconds, mids, found, rows);
    put_firsts(edges, newedges, perimeter, firsts, seconds, rows);
    put_seconds(edges, newedges, perimeter, firsts, seconds, rows);
}

// Writes the ring of a face whose perimeter is split: the next rows of edges are its joining edges, the next rows of faces its
// new faces but the first.
fn put_ring(
    edges: &[u32],
    newpoints: &mut [u32],
    newedges: &mut [u32],
    newintervals: &mut [f64],
    newfaces: &mut [u32],
    perimeter: &[u32; LONGEST_PERIMETER],
    found: &[f64; LONGEST_PERIMETER],
    firsts: &mut [u32; LONGEST_PERIMETER],
    seconds: &mut [u32; LONGEST_PERIMETER],
    mids: &mut [u32; LONGEST_PERIMETER],
    rows: RingRows,
)
    requires ring_fits { RingFits edges.now perimeter.now rows newpoints.old newedges.old newintervals.old newfaces.old }
    requires places_lent { PlacesLent firsts.old seconds.old mids.old }
    ensures by_index { (p : ℕ) →
        ◌≡◌ {A = State}
        (tables_of newpoints.new newedges.new newintervals.new newfaces.new
        (record { points = p; edges = rows.joins + rows.size; faces = rows.faces + (rows.size - 1) }))
        (put_ring (face_tables edges.now [])
        (ring_of (face_tables edges.now []) rows.face perimeter.now rows.size rows.centre found.now
        (tables_of newpoints.old newedges.old newintervals.old newfaces.old
        (record { points = p; edges = rows.joins; faces = rows.faces })))
        (tables_of newpoints.old newedges.old newintervals.old newfaces.old
        (record { points = p; edges = rows.joins; faces = rows.faces }))) }
    ensures places_lent_2 { PlacesLent firsts.new seconds.new mids.new }
{
    put_places(
        edges, newedges, perimeter, rows.face, rows.size, firsts, seconds, mids,
    );
    put_ring_edges(
        edges,
        newedges,
        newintervals,
        perimeter,
        firsts,
        seconds,
        mids,
        found,
        rows,
    );
    put_new_faces(edges, newfaces, perimeter, firsts, mids, rows);
    put_face_point(newpoints, rows);
}

// Visits the face f along its perimeter of n edges. np is the number of old points; answers the rows taken then.
fn visit_along(
    edges: &[u32],
    newpoints: &mut [u32],
    newedges: &mut [u32],
    newintervals: &mut [f64],
    newfaces: &mut [u32],
    np: usize,
    f: usize,
    perimeter: &[u32; LONGEST_PERIMETER],
    n: usize,
    taken: Counts,
    found: &mut [f64; LONGEST_PERIMETER],
    firsts: &mut [u32; LONGEST_PERIMETER],
    seconds: &mut [u32; LONGEST_PERIMETER],
    mids: &mut [u32; LONGEST_PERIMETER],
) -> Counts
    requires along_fits { AlongFits edges.now np f perimeter.now n (tables_of newpoints.old newedges.old newintervals.old newfaces.old taken) }
    requires found_len { length found.old ≡ longest_perimeter }
    requires places_lent { PlacesLent firsts.old seconds.old mids.old }
    ensures fact { ◌≡◌ {A = State}
        (tables_of newpoints.new newedges.new newintervals.new newfaces.new result)
        (visit_along (face_tables edges.now []) np f perimeter.now n
        (tables_of newpoints.old newedges.old newintervals.old newfaces.old taken)) }
    ensures found_len_2 { length found.new ≡ longest_perimeter }
    ensures places_lent_2 { PlacesLent firsts.new seconds.new mids.new }
{
    put_found(newintervals, perimeter, n, found);
    let first = Counts {
        points: taken.points + 1,
        edges: taken.edges,
        faces: taken.faces,
    };
    let all = split_all(newpoints, newedges, newintervals, np, perimeter, n, first);
    let rows = RingRows {
        face: f,
        size: n,
        centre: taken.points,
        joins: all.edges,
        faces: all.faces,
    };
    put_ring(
        edges,
        newpoints,
        newedges,
        newintervals,
        newfaces,
        perimeter,
        found,
        firsts,
        seconds,
        mids,
        rows,
    );
    Counts {
        points: all.points,
        edges: all.edges + n,
        faces: all.faces + (n - 1),
    }
}

// Visits the face f of the mesh with the counts `old`; answers the rows taken then.
fn visit(
    edges: &[u32],
    faces: &[u32],
    newpoints: &mut [u32],
    newedges: &mut [u32],
    newintervals: &mut [f64],
    newfaces: &mut [u32],
    old: Counts,
    f: usize,
    taken: Counts,
    found: &mut [f64; LONGEST_PERIMETER],
    firsts: &mut [u32; LONGEST_PERIMETER],
    seconds: &mut [u32; LONGEST_PERIMETER],
    mids: &mut [u32; LONGEST_PERIMETER],
) -> Counts
    requires ceilings { Ceilings old.points old.edges old.faces }
    requires edge_width_in_bounds { old.edges * edge_width ≤ length edges.now }
    requires face_width_in_bounds { old.faces * face_width ≤ length faces.now }
    requires visit_fits { VisitFits (face_tables edges.now faces.now) old.points old.edges old.faces f
        (tables_of newpoints.old newedges.old newintervals.old newfaces.old taken) }
    requires found_len { length found.old ≡ longest_perimeter }
    requires places_lent { PlacesLent firsts.old seconds.old mids.old }
    ensures fact { ◌≡◌ {A = State}
        (tables_of newpoints.new newedges.new newintervals.new newfaces.new result)
        (visit (face_tables edges.now faces.now) old.points old.edges f
        (tables_of newpoints.old newedges.old newintervals.old newfaces.old taken)) }
    ensures found_len_2 { length found.new ≡ longest_perimeter }
    ensures places_lent_2 { PlacesLent firsts.new seconds.new mids.new }
{
    let mut perimeter = [0u32; LONGEST_PERIMETER];
    let mut about = [0u32; LONGEST_BORDER];
    let Some(n) = put_border(edges, faces, old.edges, f, &mut perimeter, &mut about) else {
        return taken;
    };
    visit_along(
        edges,
        newpoints,
        newedges,
        newintervals,
        newfaces,
        old.points,
        f,
        &perimeter,
        n,
        taken,
        found,
        firsts,
        seconds,
        mids,
    )
}

// Visits the faces in the order; answers the rows taken then. What stands at the places of a perimeter is held in arrays that all visits
// share: each fills the first places of them, and reads no others.
fn visits(
    edges: &[u32],
    faces: &[u32],
    newpoints: &mut [u32],
    newedges: &mut [u32],
    newintervals: &mut [f64],
    newfaces: &mut [u32],
    old: Counts,
    order: &[u32],
) -> Counts
    requires { EachVisitFits (face_tables edges.now faces.now) old.points old.edges old.faces order.now
        (tables_of newpoints.old newedges.old newintervals.old newfaces.old old) }
    ensures { ◌≡◌ {A = State}
        (tables_of newpoints.new newedges.new newintervals.new newfaces.new result)
        (visits (face_tables edges.now faces.now) old.points old.edges old.faces order.now
        (tables_of newpoints.old newedges.old newintervals.old newfaces.old old)) }
{
    let mut found = [0.0; LONGEST_PERIMETER];
    let mut firsts = [0u32; LONGEST_PERIMETER];
    let mut seconds = [0u32; LONGEST_PERIMETER];
    let mut mids = [0u32; LONGEST_PERIMETER];
    let mut taken = old;
    for i in 0..old.faces {
        let f = index(order[i]);
        taken = visit(
            edges,
            faces,
            newpoints,
            newedges,
            newintervals,
            newfaces,
            old,
            f,
            taken,
            &mut found,
            &mut firsts,
            &mut seconds,
            &mut mids,
        );
    }
    taken
}

// Copies the rows of a mesh with the counts `old` into the scratch tables.
fn copy_rows(
    points: &[u32],
    edges: &[u32],
    intervals: &[f64],
    faces: &[u32],
    newpoints: &mut [u32],
    newedges: &mut [u32],
    newintervals: &mut [f64],
    newfaces: &mut [u32],
    old: Counts,
)
    requires rows_there { RowsThere (mesh_of [] points.now edges.now intervals.now faces.now) old.points old.edges old.faces }
    requires rows_there_2 { RowsThere (mesh_of [] newpoints.old newedges.old newintervals.old newfaces.old) old.points old.edges old.faces }
    ensures { ◌≡◌ {A = State}
        (tables_of newpoints.new newedges.new newintervals.new newfaces.new old)
        (copied (mesh_of [] points.now edges.now intervals.now faces.now)
        old.points old.edges old.faces
        (mesh_of [] newpoints.old newedges.old newintervals.old newfaces.old)) }
{
    copy_first(points, newpoints, old.points * POINT_WIDTH);
    copy_first(edges, newedges, old.edges * EDGE_WIDTH);
    copy_first(intervals, newintervals, old.edges);
    copy_first(faces, newfaces, old.faces * FACE_WIDTH);
}

// Makes the topology of the refined mesh in the scratch tables: the mesh's rows are copied, then its faces are visited in the
// order. Answers the counts of the refined mesh.
pub fn refined_rows(
    points: &[u32],
    edges: &[u32],
    intervals: &[f64],
    faces: &[u32],
    newpoints: &mut [u32],
    newedges: &mut [u32],
    newintervals: &mut [f64],
    newfaces: &mut [u32],
    old: Counts,
    order: &[u32],
) -> Counts
    requires rows_there { RowsThere (mesh_of [] points.now edges.now intervals.now faces.now) old.points old.edges old.faces }
    requires rows_there_2 { RowsThere (mesh_of [] newpoints.old newedges.old newintervals.old newfaces.old) old.points old.edges old.faces }
    requires each_visit_fits { EachVisitFits (face_tables edges.now faces.now) old.points old.edges old.faces order.now
        (copied (mesh_of [] points.now edges.now intervals.now faces.now) old.points old.edges old.faces
        (mesh_of [] newpoints.old newedges.old newintervals.old newfaces.old)) }
    ensures { (qs ps : List Float) →
        ◌≡◌ {A = State}
        (tables_of newpoints.new newedges.new newintervals.new newfaces.new result)
        (refined_rows (mesh_of qs points.now edges.now intervals.now faces.now)
        old.points old.edges old.faces order.now
        (mesh_of ps newpoints.old newedges.old newintervals.old newfaces.old)) }
{
    copy_rows(
        points,
        edges,
        intervals,
        faces,
        newpoints,
        newedges,
        newintervals,
        newfaces,
        old,
    );
    visits(
        edges,
        faces,
        newpoints,
        newedges,
        newintervals,
        newfaces,
        old,
        order,
    )
}
