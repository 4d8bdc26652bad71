// Faces entered into the tables: one place of a perimeter after the other, each edge connected to the one before and the first to
// the last, then the face's row (document 01, "Building"; grounds 10 to 15 and 43).
// Carries over the loop of `try_new` of t_nurcc/mod.rs.
// Not here: the places stepped (`perimeters`), where the interval of an edge is written (`interval_places`), the grounds of the lists
// and of the whole (`building_lists`, `list_numbers`, `building_whole`).
// Definitions: `Perimeters` and `Building` of `built_meshes`; `specs/Rings.antt`. Laws: `proofs/Turns.antt`.
#![tactic(auto)]

ghost use Rattle.std.specs.Prelude.{◌≡◌, List, [], ℕ, ◌+◌, ◌*◌, ◌/◌, ◌≤◌, ◌<◌, Float, length};
ghost use Rattle.built_meshes.specs.Lists.{offset, general_limits};
ghost use Rattle.built_meshes.specs.Perimeters.{FaceState, BuildState, Progress, on, turn, places, closed_up};
ghost use Rattle.built_meshes.specs.Building.{face_passed, faces_from};
ghost use Rattle.building_tests.specs.Lent.{lists, lists_in, FirstsGiven};
ghost use Rattle.edge_search.specs.Chains.{Standing};
ghost use Rattle.tables.specs.Layout.{position_width, face_width};
ghost use Rattle.tables.specs.Mesh.{mesh_of};
ghost use Rattle.building_faces.specs.Rings.{face_state_of, face_state_at, turned_state, state_at, faced_state, ListedRoom, ListedFrom, Sided, Closing, TurnStands, FaceStands};

use building_tests::faces::{face_size, face_verdict};
use built_meshes::{Ground, Version};
use edge_ends::NONE;
use edge_search::enter;
use interval_places::interval_place;
use perimeters::next_place;
use records::store_face;
use t_nurcc_edge::connect;
use t_spline::TnurccFace;
use tables::index;

// A perimeter under way: how many edges there are, the perimeter's first edge and the one of the place before.
#[derive(Clone, Copy)]
pub struct RingEdges {
    pub edges: u32,
    pub first: u32,
    pub before: u32,
}

// Enters place i of the perimeter of face f, and connects its edge to the one before.
fn turn_place(
    version: Version,
    listed: &[u32],
    beside: &[f64],
    points: &mut [u32],
    edges: &mut [u32],
    intervals: &mut [f64],
    chain: &mut [u32],
    np: usize,
    ring: RingEdges,
    f: u32,
    a: usize,
    n: usize,
    i: usize,
) -> Result<RingEdges, Ground>
    requires standing { Standing np points.old edges.old chain.old ring.edges }
    requires listed_room { ListedRoom listed.now beside.now edges.old intervals.old chain.old }
    requires listed_from { ListedFrom np listed.now a n }
    requires i_lt_n { i < n }
    requires edges_bound { ring.edges ≤ a + i }
    requires closing { 0 < i → Closing ring }
    ensures fact { (cs : List Float) (ss qs : List ℕ) (ps : List Float) (fs : List ℕ) → ◌≡◌ {A = Progress FaceState} (turned_state (mesh_of ps
        points.new edges.new intervals.new fs) result) (turn (lists_in version cs ss qs listed.now
        beside.now) f a n i (face_state_of (mesh_of ps points.old edges.old intervals.old
        fs) ring)) }
    ensures turn_stands { TurnStands np points.new edges.new chain.new (a + i + 1) result }
{
    let p = listed[a + i];
    let next = next_place(n, i);
    let q = listed[a + next];
    let v = beside[a + interval_place(version, n, i, next)];
    let k = ring.edges;
    let place = enter(points, edges, intervals, chain, np, k, f, p, q, v)?;
    if i == 0 {
        return Ok(RingEdges {
            edges: place.edges,
            first: place.edge,
            before: place.edge,
        });
    }
    connect(edges, intervals, place.edge, ring.before);
    Ok(RingEdges {
        edges: place.edges,
        first: ring.first,
        before: place.edge,
    })
}

// Enters all n places of the perimeter of face f, while k edges stand.
fn enter_places(
    version: Version,
    listed: &[u32],
    beside: &[f64],
    points: &mut [u32],
    edges: &mut [u32],
    intervals: &mut [f64],
    chain: &mut [u32],
    np: usize,
    k: u32,
    f: u32,
    a: usize,
    n: usize,
) -> Result<RingEdges, Ground>
    requires standing { Standing np points.old edges.old chain.old k }
    requires listed_room { ListedRoom listed.now beside.now edges.old intervals.old chain.old }
    requires listed_from { ListedFrom np listed.now a n }
    requires n_nonzero { 0 < n }
    requires k_le_a { k ≤ a }
    ensures fact { (cs : List Float) (ss qs : List ℕ) (ps : List Float) (fs : List ℕ) → ◌≡◌ {A = Progress FaceState} (turned_state (mesh_of ps
        points.new edges.new intervals.new fs) result) (places n (lists_in version cs ss qs listed.now
        beside.now) f a n 0 (on (face_state_at (mesh_of ps points.old edges.old
        intervals.old fs) k))) }
    ensures turn_stands { TurnStands np points.new edges.new chain.new (a + n) result }
{
    let mut ring = RingEdges {
        edges: k,
        first: 0,
        before: 0,
    };
    for i in 0..n {
        ring = turn_place(
            version, listed, beside, points, edges, intervals, chain, np, ring, f, a, n, i,
        )?;
    }
    Ok(ring)
}

// Enters the perimeter of face f, connects its first edge to its last, and stores the face's row.
fn enter_perimeter(
    version: Version,
    listed: &[u32],
    beside: &[f64],
    points: &mut [u32],
    edges: &mut [u32],
    intervals: &mut [f64],
    faces: &mut [u32],
    chain: &mut [u32],
    np: usize,
    k: u32,
    f: u32,
    a: usize,
    n: usize,
) -> Result<u32, Ground>
    requires standing { Standing np points.old edges.old chain.old k }
    requires listed_room { ListedRoom listed.now beside.now edges.old intervals.old chain.old }
    requires listed_from { ListedFrom np listed.now a n }
    requires n_nonzero { 0 < n }
    requires k_le_a { k ≤ a }
    requires face_width_in_bounds { f * face_width + face_width ≤ length faces.old }
    ensures fact { (cs : List Float) (ss qs : List ℕ) (ps : List Float) → ◌≡◌ {A = Progress BuildState} (faced_state (mesh_of ps points.new
        edges.new intervals.new faces.new) result) (closed_up f (places n (lists_in version cs ss qs listed.now
        beside.now) f a n 0 (on (face_state_at (mesh_of ps points.old edges.old
        intervals.old faces.old) k)))) }
    ensures face_stands { FaceStands np points.new edges.new chain.new (a + n) result }
{
    let ring = enter_places(
        version, listed, beside, points, edges, intervals, chain, np, k, f, a, n,
    )?;
    connect(edges, intervals, ring.first, ring.before);
    store_face(
        faces,
        index(f),
        TnurccFace {
            edge: ring.first,
            corners: [NONE, NONE, NONE, NONE],
        },
    );
    Ok(ring.edges)
}

// Enters face f, whose n listed points stand from the place a on, if it passes its tests.
fn enter_face(
    version: Version,
    sides: &[u32],
    firsts: &[u32],
    listed: &[u32],
    beside: &[f64],
    points: &mut [u32],
    edges: &mut [u32],
    intervals: &mut [f64],
    faces: &mut [u32],
    chain: &mut [u32],
    np: usize,
    k: u32,
    f: u32,
    a: usize,
    n: usize,
) -> Result<u32, Ground>
    requires standing { Standing np points.old edges.old chain.old k }
    requires listed_room { ListedRoom listed.now beside.now edges.old intervals.old chain.old }
    requires sided { Sided sides.now listed.now f a n }
    requires k_le_a { k ≤ a }
    requires face_width_in_bounds { f * face_width + face_width ≤ length faces.old }
    requires firsts_given { FirstsGiven version sides.now firsts.now }
    ensures fact { (cs : List Float) (ps : List Float) → length cs / position_width ≡ np → ◌≡◌ {A = Progress BuildState} (faced_state (mesh_of ps
        points.new edges.new intervals.new faces.new) result) (face_passed (lists_in version cs
        sides.now firsts.now listed.now beside.now) f a (state_at (mesh_of ps points.old
        edges.old intervals.old faces.old) k)) }
    ensures face_stands { FaceStands np points.new edges.new chain.new (a + n) result }
{
    face_verdict(version, sides, firsts, listed, beside, np, index(f), a, n)?;
    enter_perimeter(
        version, listed, beside, points, edges, intervals, faces, chain, np, k, f, a, n,
    )
}

// Enters all faces into tables that hold none.
pub fn enter_faces(
    version: Version,
    sides: &[u32],
    firsts: &[u32],
    listed: &[u32],
    beside: &[f64],
    points: &mut [u32],
    edges: &mut [u32],
    intervals: &mut [f64],
    faces: &mut [u32],
    chain: &mut [u32],
    np: usize,
) -> Result<u32, Ground>
    requires standing { Standing np points.old edges.old chain.old 0 }
    requires listed_room { ListedRoom listed.now beside.now edges.old intervals.old chain.old }
    requires sides_len_bound { length sides.now / 4 ≤ general_limits.faces }
    requires face_width_in_bounds { length sides.now / 4 * face_width ≤ length faces.old }
    requires sides_value { offset (lists [] sides.now [] []) (length sides.now / 4) ≡ length listed.now }
    requires firsts_given { FirstsGiven version sides.now firsts.now }
    ensures fact { (cs : List Float) (ps : List Float) → length cs / position_width ≡ np → ◌≡◌ {A = Progress BuildState} (faced_state (mesh_of ps
        points.new edges.new intervals.new faces.new) result) (faces_from
        (length sides.now / 4) (lists_in version cs sides.now firsts.now listed.now beside.now) 0 0 (on
        (state_at (mesh_of ps points.old edges.old intervals.old faces.old) 0))) }
    ensures face_stands { FaceStands np points.new edges.new chain.new (length listed.now) result }
{
    let nf = sides.len() / 4;
    let mut k = 0;
    let mut a = 0;
    for f in 0..nf {
        let n = face_size(sides, f);
        k = enter_face(
            version, sides, firsts, listed, beside, points, edges, intervals, faces, chain, np, k,
            f as u32, a, n,
        )?;
        a += n;
    }
    Ok(k)
}
