// The connections, the ends and the sides of an edge, by value, with the choice of a neighbour by them; the mark for no row, and whether
// two sides have the same face.
// Carries over these enums of t_spline/mod.rs, and their methods of t_nurcc_edge/mod.rs.
// Not here: edges (`t_spline`).
// Contracts cite `specs/Connection.antt`, `specs/Ends.antt` and `specs/Faces.antt`. Laws for callers: `proofs/Laws.antt`.
#![tactic(auto)]

ghost use Rattle.std.specs.Prelude.{◌≡◌};
ghost use Rattle.edge_ends.specs.Connection.{index_of, connection_at};
ghost use Rattle.edge_ends.specs.Ends.{acw_at_end, cw_at_end, other_end, acw_on_side, cw_on_side, first_end};
ghost use Rattle.edge_ends.specs.Faces.{same_face};

// The mark for no row, which stands where the Rust has `None`: the tables that C callers lend hold it.
pub const NONE: u32 = 4294967295;

// Which of an edge's four neighbours is meant.
#[derive(Clone, Copy)]
pub enum TnurccConnection {
    LeftCw,
    LeftAcw,
    RightCw,
    RightAcw,
}

// An end of an edge.
#[derive(Clone, Copy)]
pub enum TnurccVertexEnd {
    Origin,
    Dest,
}

// A side of an edge, seen from its origin towards its destination.
#[derive(Clone, Copy)]
pub enum TnurccFaceSide {
    Left,
    Right,
}

impl TnurccConnection {
    pub const LEFT_CW: usize = 0;

    pub const LEFT_ACW: usize = 1;

    pub const RIGHT_CW: usize = 2;

    pub const RIGHT_ACW: usize = 3;

    // The connection with this number. A number past the last one is read as the last, so this is no `TryFrom`.
    pub fn from_usize(i: usize) -> Self
        ensures { result ≡ connection_at i }
    {
        if i == TnurccConnection::LEFT_CW {
            return TnurccConnection::LeftCw;
        }
        if i == TnurccConnection::LEFT_ACW {
            return TnurccConnection::LeftAcw;
        }
        if i == TnurccConnection::RIGHT_CW {
            return TnurccConnection::RightCw;
        }
        TnurccConnection::RightAcw
    }

    // The number of a connection, which is its place among an edge's neighbours.
    pub fn index(self) -> usize
        ensures { result ≡ index_of self }
    {
        match self {
            TnurccConnection::LeftCw => TnurccConnection::LEFT_CW,
            TnurccConnection::LeftAcw => TnurccConnection::LEFT_ACW,
            TnurccConnection::RightCw => TnurccConnection::RIGHT_CW,
            TnurccConnection::RightAcw => TnurccConnection::RIGHT_ACW,
        }
    }
}

// Of ends and of sides each method is a table of its own, and no two differ in a type or a number alone.
impl TnurccVertexEnd {
    // Which neighbour is next anticlockwise about the point at this end.
    pub fn acw(self) -> TnurccConnection
        ensures { result ≡ acw_at_end self }
    {
        match self {
            TnurccVertexEnd::Origin => TnurccConnection::LeftCw,
            TnurccVertexEnd::Dest => TnurccConnection::RightCw,
        }
    }

    // Which neighbour is next clockwise about the point at this end.
    pub fn cw(self) -> TnurccConnection
        ensures { result ≡ cw_at_end self }
    {
        match self {
            TnurccVertexEnd::Origin => TnurccConnection::RightAcw,
            TnurccVertexEnd::Dest => TnurccConnection::LeftAcw,
        }
    }

    // The other end.
    pub fn other(self) -> TnurccVertexEnd
        ensures { result ≡ other_end self }
    {
        match self {
            TnurccVertexEnd::Origin => TnurccVertexEnd::Dest,
            TnurccVertexEnd::Dest => TnurccVertexEnd::Origin,
        }
    }
}

impl TnurccFaceSide {
    // Which neighbour is next anticlockwise about the face on this side.
    pub fn acw(self) -> TnurccConnection
        ensures { result ≡ acw_on_side self }
    {
        match self {
            TnurccFaceSide::Left => TnurccConnection::LeftAcw,
            TnurccFaceSide::Right => TnurccConnection::RightAcw,
        }
    }

    // Which neighbour is next clockwise about the face on this side.
    pub fn cw(self) -> TnurccConnection
        ensures { result ≡ cw_on_side self }
    {
        match self {
            TnurccFaceSide::Left => TnurccConnection::LeftCw,
            TnurccFaceSide::Right => TnurccConnection::RightCw,
        }
    }

    // The end at which a walk anticlockwise about the face on this side comes to the edge.
    pub fn first_end(self) -> TnurccVertexEnd
        ensures { result ≡ first_end self }
    {
        match self {
            TnurccFaceSide::Left => TnurccVertexEnd::Origin,
            TnurccFaceSide::Right => TnurccVertexEnd::Dest,
        }
    }
}

// Whether two sides have a face and it is the same one.
pub fn same_face(f: u32, g: u32) -> bool
    ensures { result ≡ same_face f g }
{
    if f == NONE {
        return false;
    }
    f == g
}
