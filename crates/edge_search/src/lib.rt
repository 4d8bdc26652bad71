// The edge between two points, found along the chain of the edges of one bucket, which the two points choose, and one place of a
// perimeter entered with it: an edge is made, or the right side of one is filled.
// Carries over what `try_new` of t_nurcc/mod.rs does for one edge. No search looks at all edges: it looks at those of the bucket,
// however many edges the points have.
// Not here: which bucket two points choose (`edge_buckets`), a whole perimeter (`building_faces`).
// Definitions: `specs/Chains.antt`, `specs/Places.antt`, and `Perimeters` of `built_meshes`. Laws: `proofs/Chains.antt`.
#![tactic(auto)]

ghost use Rattle.std.specs.Prelude.{◌≡◌, cond, ◌&&◌, List, ℕ, ◌+◌, ◌*◌, ◌≤◌, ◌<◌, eqb, Float, length, get_or};
ghost use Rattle.tables.specs.Layout.{point_width, edge_width};
ghost use Rattle.tables.specs.Mesh.{Mesh, mesh_of, none, edge_table};
ghost use Rattle.built_meshes.specs.Edges.{joins, edge_between, touched, new_edge};
ghost use Rattle.edge_buckets.specs.Buckets.{buckets, bucket_of};
ghost use Rattle.edge_search.specs.Chains.{link_to, Newest, chained_edge, Headed, Chained, Standing, EdgeRoom};
ghost use Rattle.edge_search.specs.Places.{edges_after, EnteredBy, FilledBy};

use built_meshes::Ground;
use edge_buckets::{BUCKETS, bucket};
use edge_ends::NONE;
use records::store_edge;
use t_spline::TnurccEdge;
use tables::{DEST_WORD, EDGE_WIDTH, POINT_WIDTH, RIGHT_FACE_WORD, START_WORD, index};

// A place of a perimeter that is entered: how many edges there are then, and the place's edge.
#[derive(Clone, Copy)]
pub struct PlaceEdge {
    pub edges: u32,
    pub edge: u32,
}

// Whether edge e joins the points p and q, in either direction.
fn joins_points(edges: &[u32], e: usize, p: u32, q: u32) -> bool
    requires { e * edge_width + edge_width ≤ length edges.now }
    ensures { result ≡ joins (edge_table edges.now) p q e }
{
    let origin = edges[e * EDGE_WIDTH];
    let dest = edges[e * EDGE_WIDTH + DEST_WORD];
    origin == p && dest == q || origin == q && dest == p
}

// The link to the first of the k edges that join the points p and q, found along the chain that begins with the link from.
fn search(edges: &[u32], chain: &[u32], k: u32, from: u32, p: u32, q: u32) -> u32
    requires edge_width_in_bounds { k * edge_width ≤ length edges.now }
    requires k_in_bounds { buckets + k ≤ length chain.now }
    requires chained { Chained edges.now chain.now k }
    requires newest { Newest edges.now (bucket_of p q) k from }
    ensures result_value { link_to result ≡ edge_between (edge_table edges.now) k p q }
    ensures upper_bound { result ≤ k }
{
    let mut link = from;
    let mut found = 0;
    while 0 < link {
        let e = index(link - 1);
        if joins_points(edges, e, p, q) {
            found = link;
        }
        link = chain[BUCKETS + e];
    }
    found
}

// The edge of a link.
fn edge_of(link: u32) -> Option<u32>
    ensures { result ≡ link_to link }
{
    if link == 0 {
        return None;
    }
    Some(link - 1)
}

// The first of the k edges that join the points p and q.
fn find_edge(edges: &[u32], chain: &[u32], k: u32, p: u32, q: u32) -> Option<u32>
    requires edge_width_in_bounds { k * edge_width ≤ length edges.now }
    requires k_in_bounds { buckets + k ≤ length chain.now }
    requires chained { Chained edges.now chain.now k }
    requires headed { Headed edges.now chain.now k }
    ensures { result ≡ edge_between (edge_table edges.now) k p q }
{
    edge_of(search(edges, chain, k, chain[bucket(p, q)], p, q))
}

// Chains a new edge k between p and q.
fn chain_edge(chain: &mut [u32], k: u32, p: u32, q: u32)
    requires k_in_bounds { buckets + k + 1 ≤ length chain.old }
    requires k_bound { k < 1073741824 }
    ensures { chain.new ≡ chained_edge chain.old k (bucket_of p q) }
{
    let b = bucket(p, q);
    let from = chain[b];
    chain[BUCKETS + index(k)] = from;
    chain[b] = k + 1;
}

// Counts one edge more at point p, and makes it the start edge.
fn touch(points: &mut [u32], p: u32, e: u32)
    requires point_width_in_bounds { p * point_width + point_width ≤ length points.old }
    requires point_width_bound { get_or points.old (p * point_width) 0 < none }
    ensures { points.new ≡ touched points.old p e }
{
    let b = index(p) * POINT_WIDTH;
    points[b] = points[b] + 1;
    points[b + START_WORD] = e;
}

// Makes the edge k from p to q, with face f on its left. The contract alone looks at np, the number of points.
fn make_edge(
    points: &mut [u32],
    edges: &mut [u32],
    intervals: &mut [f64],
    chain: &mut [u32],
    np: usize,
    k: u32,
    f: u32,
    p: u32,
    q: u32,
    v: f64,
)
    requires standing { Standing np points.old edges.old chain.old k }
    requires edge_room { EdgeRoom edges.old intervals.old chain.old k }
    requires p_lt_np { p < np }
    requires q_lt_np { q < np }
    ensures fact { (ps : List Float) (fs : List ℕ) → ◌≡◌ {A = Mesh} (mesh_of ps points.new edges.new
        intervals.new fs) (new_edge (mesh_of ps points.old edges.old intervals.old fs) k f
        p q v) }
    ensures standing_2 { Standing np points.new edges.new chain.new (k + 1) }
{
    chain_edge(chain, k, p, q);
    touch(points, p, k);
    touch(points, q, k);
    store_edge(
        edges,
        intervals,
        index(k),
        TnurccEdge {
            connections: [k, k, k, k],
            face_left: f,
            face_right: NONE,
            origin: p,
            dest: q,
            knot_interval: v,
        },
    );
}

// Puts face f on the right of edge e at a place whose first point is p, if there is no face and the edge runs the other way.
fn fill_edge(edges: &mut [u32], k: u32, f: u32, e: u32, p: u32) -> Result<PlaceEdge, Ground>
    requires { e * edge_width + edge_width ≤ length edges.old }
    ensures { FilledBy edges.old k f e p result edges.new }
{
    let b = index(e) * EDGE_WIDTH;
    if edges[b + RIGHT_FACE_WORD] != NONE {
        return Err(Ground::EdgeTripleFace);
    }
    if edges[b] == p {
        return Err(Ground::SameWay);
    }
    edges[b + RIGHT_FACE_WORD] = f;
    Ok(PlaceEdge { edges: k, edge: e })
}

// Enters a place of face f, from p to q with the interval v, while k edges stand. The contract alone looks at np, as above.
pub fn enter(
    points: &mut [u32],
    edges: &mut [u32],
    intervals: &mut [f64],
    chain: &mut [u32],
    np: usize,
    k: u32,
    f: u32,
    p: u32,
    q: u32,
    v: f64,
) -> Result<PlaceEdge, Ground>
    requires standing { Standing np points.old edges.old chain.old k }
    requires edge_room { EdgeRoom edges.old intervals.old chain.old k }
    requires p_lt_np { p < np }
    requires q_lt_np { q < np }
    ensures entered_by { (ps : List Float) (fs : List ℕ) → EnteredBy result (mesh_of ps points.old edges.old
        intervals.old fs) (mesh_of ps points.new edges.new intervals.new fs) k f p q v }
    ensures standing_2 { Standing np points.new edges.new chain.new (edges_after result k) }
{
    match find_edge(edges, chain, k, p, q) {
        Some(e) => fill_edge(edges, k, f, e, p),
        None => {
            make_edge(points, edges, intervals, chain, np, k, f, p, q, v);
            Ok(PlaceEdge {
                edges: k + 1,
                edge: k,
            })
        }
    }
}
