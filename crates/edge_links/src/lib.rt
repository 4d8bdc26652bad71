// Connecting two edges, by value: the constant table of links, and the states that look into it.
// Carries over the part of `connect` of t_nurcc_edge/mod.rs that looks at no table.
// Not here: connecting two rows of a table (`t_nurcc_edge`).
// Contracts cite `specs/Connect.antt` and `specs/Joinable.antt`. Laws of the table: `proofs/LinkTable.antt`.
#![tactic(auto)]

ghost use Rattle.std.specs.Prelude.{◌≡◌};
ghost use Rattle.edge_links.specs.Connect.{links_of, vertex_state, with_links, served, connected};
ghost use Rattle.edge_links.specs.Joinable.{share_face, joinable};

use edge_ends::{TnurccConnection, same_face};
use t_spline::TnurccEdge;

// Two edges that are connected to each other.
#[derive(Clone, Copy)]
pub struct Pair {
    pub first: TnurccEdge,
    pub other: TnurccEdge,
}

// The number in `LINKS` for a mismatch.
const NO_LINK: usize = 4;

// For each face state 0 to 3 and in it each vertex state 0 to 3: the first edge's link and the other's. Bytes: a lookup makes the
// table anew, and 32 bytes are made by a few stores.
const LINKS: [u8; 32] = [
    TnurccConnection::LEFT_CW as u8,
    TnurccConnection::LEFT_ACW as u8,
    TnurccConnection::LEFT_ACW as u8,
    TnurccConnection::LEFT_CW as u8,
    NO_LINK as u8,
    NO_LINK as u8,
    NO_LINK as u8,
    NO_LINK as u8,
    TnurccConnection::RIGHT_ACW as u8,
    TnurccConnection::RIGHT_CW as u8,
    TnurccConnection::RIGHT_CW as u8,
    TnurccConnection::RIGHT_ACW as u8,
    NO_LINK as u8,
    NO_LINK as u8,
    NO_LINK as u8,
    NO_LINK as u8,
    NO_LINK as u8,
    NO_LINK as u8,
    NO_LINK as u8,
    NO_LINK as u8,
    TnurccConnection::LEFT_CW as u8,
    TnurccConnection::RIGHT_ACW as u8,
    TnurccConnection::LEFT_ACW as u8,
    TnurccConnection::RIGHT_CW as u8,
    NO_LINK as u8,
    NO_LINK as u8,
    NO_LINK as u8,
    NO_LINK as u8,
    TnurccConnection::RIGHT_ACW as u8,
    TnurccConnection::LEFT_CW as u8,
    TnurccConnection::RIGHT_CW as u8,
    TnurccConnection::LEFT_ACW as u8,
];

// The links that a face state and a vertex state set, the first edge's and the other's; none where the states mismatch.
pub fn link_directions(face: usize, vert: usize) -> Option<(TnurccConnection, TnurccConnection)>
    ensures { result ≡ links_of face vert }
{
    if 4 <= face {
        return None;
    }
    if 4 <= vert {
        return None;
    }
    let k = face * 8 + vert * 2;
    let own = usize::from(LINKS[k]);
    if own == NO_LINK {
        return None;
    }
    let other = usize::from(LINKS[k + 1]);
    Some((
        TnurccConnection::from_usize(own),
        TnurccConnection::from_usize(other),
    ))
}

impl Pair {
    // The first vertex state that holds of the two edges; 4 where they share no point. The states are numbers, as `LINKS` is looked up by
    // them, and `vertex_state` says which.
    pub fn vert_state(self) -> usize
        ensures { result ≡ vertex_state self.first self.other }
    {
        if self.first.origin == self.other.dest {
            return 0;
        }
        if self.first.dest == self.other.origin {
            return 1;
        }
        if self.first.origin == self.other.origin {
            return 2;
        }
        if self.first.dest == self.other.dest {
            return 3;
        }
        4
    }

    // Whether `connect` finds a state of the two edges, be it a mismatched one.
    pub fn can_connect(self) -> bool
        ensures { result ≡ joinable self.first self.other }
    {
        if self.shares_face() {
            return self.vert_state() < 4;
        }
        false
    }

    // Whether the two edges have a face in common.
    fn shares_face(self) -> bool
        ensures { result ≡ share_face self.first self.other }
    {
        if same_face(self.first.face_left, self.other.face_left) {
            return true;
        }
        if same_face(self.first.face_left, self.other.face_right) {
            return true;
        }
        if same_face(self.first.face_right, self.other.face_left) {
            return true;
        }
        same_face(self.first.face_right, self.other.face_right)
    }

    // The pair, of the rows `i` and `j`, with the links set.
    fn with_links(self, links: Option<(TnurccConnection, TnurccConnection)>, i: u32, j: u32) -> Pair
        ensures { result ≡ with_links i j links self }
    {
        let Some((own, other)) = links else {
            return self;
        };
        Pair {
            first: self.first.set_connection(j, own),
            other: self.other.set_connection(i, other),
        }
    }

    // The pair after one face state was served, if it holds.
    fn serve(self, holds: bool, face: usize, vert: usize, i: u32, j: u32) -> Pair
        ensures { result ≡ served holds face vert i j self }
    {
        if holds {
            return self.with_links(link_directions(face, vert), i, j);
        }
        self
    }

    // The two edges, of the rows `i` and `j`, connected to each other.
    pub fn connect(self, i: u32, j: u32) -> Pair
        ensures { result ≡ connected i self.first j self.other }
    {
        let e = self.first;
        let o = self.other;
        let v = self.vert_state();
        let a = self.serve(same_face(e.face_left, o.face_left), 0, v, i, j);
        let b = a.serve(same_face(e.face_left, o.face_right), 2, v, i, j);
        let c = b.serve(same_face(e.face_right, o.face_left), 3, v, i, j);
        c.serve(same_face(e.face_right, o.face_right), 1, v, i, j)
    }
}
