// Connecting two edges in the tables of a mesh.
// Carries over `connect` of t_nurcc_edge/mod.rs; what looks at no table stands in `edge_links`.
// Contract: `connect`. Definitions: `specs/Connected.antt`, `specs/Joinable.antt`. Laws: `proofs/Laws.antt`, `proofs/Links.antt`.
#![tactic(auto)]

ghost use Rattle.std.specs.Prelude.{◌≡◌, List, ◌≢◌, ℕ, ◌+◌, ◌*◌, ◌≤◌, ◌<◌, length};
ghost use Rattle.edge_links.specs.Connect.{served};
ghost use Rattle.edge_links.specs.declared.Pair.{Pair};
ghost use Rattle.tables.specs.Layout.{edge_width};
ghost use Rattle.t_nurcc_edge.specs.Connected.{paired, connected_rows};
ghost use Rattle.t_nurcc_edge.specs.Joinable.{joinable_rows, Linkable};

use edge_ends::same_face;
use edge_links::{Pair, link_directions};
use records::{load_edge, store_edge_words};
use tables::{EDGE_WIDTH, LEFT_CW_WORD, index};

// Serves one face state of the edges i and j, if it holds: each gets the other as one of its neighbours.
fn put_links(edges: &mut [u32], holds: bool, face: usize, vert: usize, i: u32, j: u32)
    requires edge_width_in_bounds { i * edge_width + edge_width ≤ length edges.old }
    requires edge_width_in_bounds_2 { j * edge_width + edge_width ≤ length edges.old }
    requires i_nonzero { i ≢ j }
    ensures by_index { (es : List ℕ) (p : Pair) → Linkable p → edges.old ≡ paired es i j p → edges.new ≡ paired es i j (served holds face vert i j p) }
    ensures edges_len_unchanged { length edges.new ≡ length edges.old }
{
    if !holds {
        return;
    }
    if let Some((own, other)) = link_directions(face, vert) {
        let c = own.index();
        let d = other.index();
        edges[index(i) * EDGE_WIDTH + LEFT_CW_WORD + c] = j;
        edges[index(j) * EDGE_WIDTH + LEFT_CW_WORD + d] = i;
    }
}

// Connects two edges that stand in different rows, by the words that change.
fn connect_rows(edges: &mut [u32], intervals: &[f64], i: u32, j: u32) -> bool
    requires edge_width_in_bounds { i * edge_width + edge_width ≤ length edges.old }
    requires edge_width_in_bounds_2 { j * edge_width + edge_width ≤ length edges.old }
    requires i_in_bounds { i < length intervals.now }
    requires j_in_bounds { j < length intervals.now }
    requires i_nonzero { i ≢ j }
    ensures value { result ≡ joinable_rows edges.old intervals.now i j }
    ensures edges_after { edges.new ≡ connected_rows edges.old intervals.now i j }
{
    let e = load_edge(edges, intervals, index(i));
    let o = load_edge(edges, intervals, index(j));
    let pair = Pair { first: e, other: o };
    let v = pair.vert_state();
    put_links(edges, same_face(e.face_left, o.face_left), 0, v, i, j);
    put_links(edges, same_face(e.face_left, o.face_right), 2, v, i, j);
    put_links(edges, same_face(e.face_right, o.face_left), 3, v, i, j);
    put_links(edges, same_face(e.face_right, o.face_right), 1, v, i, j);
    pair.can_connect()
}

// Connects two edges by value, as the definition does: both are stored whole, the other last.
fn connect_values(edges: &mut [u32], intervals: &[f64], i: u32, j: u32) -> bool
    requires edge_width_in_bounds { i * edge_width + edge_width ≤ length edges.old }
    requires edge_width_in_bounds_2 { j * edge_width + edge_width ≤ length edges.old }
    requires i_in_bounds { i < length intervals.now }
    requires j_in_bounds { j < length intervals.now }
    ensures value { result ≡ joinable_rows edges.old intervals.now i j }
    ensures edges_after { edges.new ≡ connected_rows edges.old intervals.now i j }
{
    let a = index(i);
    let b = index(j);
    let e = load_edge(edges, intervals, a);
    let o = load_edge(edges, intervals, b);
    let pair = Pair { first: e, other: o };
    let connected = pair.connect(i, j);
    let first = connected.first;
    let other = connected.other;
    store_edge_words(edges, a, first);
    store_edge_words(edges, b, other);
    pair.can_connect()
}

// Connects the edges i and j to each other, and says whether they share a face and a point. An edge with itself, which no
// perimeter asks for, is connected by value: the words of one row would be stored for both.
pub fn connect(edges: &mut [u32], intervals: &[f64], i: u32, j: u32) -> bool
    requires edge_width_in_bounds { i * edge_width + edge_width ≤ length edges.old }
    requires edge_width_in_bounds_2 { j * edge_width + edge_width ≤ length edges.old }
    requires i_in_bounds { i < length intervals.now }
    requires j_in_bounds { j < length intervals.now }
    ensures value { result ≡ joinable_rows edges.old intervals.now i j }
    ensures edges_after { edges.new ≡ connected_rows edges.old intervals.now i j }
{
    if i == j {
        return connect_values(edges, intervals, i, j);
    }
    connect_rows(edges, intervals, i, j)
}
