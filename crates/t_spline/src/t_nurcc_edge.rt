// The methods of an edge, by value: what stands at its ends and sides, its neighbours about them, and a neighbour set.
ghost use Rattle.std.specs.Prelude.{◌≡◌};
ghost use Rattle.edge_ends.specs.Ends.{acw_at_end, cw_at_end, acw_on_side, cw_on_side};
ghost use Rattle.t_spline.specs.Edge.{connection_of, with_connection, common_face};
ghost use Rattle.t_spline.specs.Ends.{point_at_end, face_from_side, end_of, side_of};
ghost use Rattle.t_spline.specs.Ends.{acw_from_point, cw_from_point, acw_from_face, cw_from_face, common_point};

use crate::TnurccEdge;
use edge_ends::{NONE, TnurccConnection, TnurccFaceSide, TnurccVertexEnd, same_face};

// What is asked of an end and of a side has a name for each, as in the Rust (docs/DIFFERENCES.md has them one by one): a trait of both would
// have seven members and two impls, for six pairs of methods that are a line or a match each.
impl TnurccEdge {
    pub fn connection(self, con: TnurccConnection) -> u32
        ensures { result ≡ connection_of self con }
    {
        let i = con.index();
        self.connections[i]
    }

    pub fn set_connection(self, other: u32, con: TnurccConnection) -> TnurccEdge
        ensures { result ≡ with_connection self other con }
    {
        let mut e = self;
        let i = con.index();
        e.connections[i] = other;
        e
    }

    pub fn acw_edge_from_end(self, end: TnurccVertexEnd) -> u32
        ensures { result ≡ connection_of self (acw_at_end end) }
    {
        self.connection(end.acw())
    }

    pub fn cw_edge_from_end(self, end: TnurccVertexEnd) -> u32
        ensures { result ≡ connection_of self (cw_at_end end) }
    {
        self.connection(end.cw())
    }

    pub fn acw_edge_from_side(self, side: TnurccFaceSide) -> u32
        ensures { result ≡ connection_of self (acw_on_side side) }
    {
        self.connection(side.acw())
    }

    pub fn cw_edge_from_side(self, side: TnurccFaceSide) -> u32
        ensures { result ≡ connection_of self (cw_on_side side) }
    {
        self.connection(side.cw())
    }

    pub fn point_at_end(self, end: TnurccVertexEnd) -> u32
        ensures { result ≡ point_at_end self end }
    {
        match end {
            TnurccVertexEnd::Origin => self.origin,
            TnurccVertexEnd::Dest => self.dest,
        }
    }

    pub fn face_from_side(self, side: TnurccFaceSide) -> u32
        ensures { result ≡ face_from_side self side }
    {
        match side {
            TnurccFaceSide::Left => self.face_left,
            TnurccFaceSide::Right => self.face_right,
        }
    }

    // The end at which the edge has the point of this row, if it has it.
    pub fn point_end(self, point: usize) -> Option<TnurccVertexEnd>
        ensures { result ≡ end_of self point }
    {
        if self.origin as usize == point {
            return Some(TnurccVertexEnd::Origin);
        }
        if self.dest as usize == point {
            return Some(TnurccVertexEnd::Dest);
        }
        None
    }

    // The side on which the edge has the face of this row, if it has it.
    pub fn face_side(self, face: usize) -> Option<TnurccFaceSide>
        ensures { result ≡ side_of self face }
    {
        if self.face_left as usize == face {
            return Some(TnurccFaceSide::Left);
        }
        if self.face_right as usize == face {
            return Some(TnurccFaceSide::Right);
        }
        None
    }

    // The next edge anticlockwise about the point, `NONE` where it is no end of the edge.
    pub fn acw_edge_from_point(self, point: usize) -> u32
        ensures { result ≡ acw_from_point self point }
    {
        match self.point_end(point) {
            Some(end) => self.acw_edge_from_end(end),
            None => NONE,
        }
    }

    // The next edge clockwise about the point, `NONE` where it is no end of the edge.
    pub fn cw_edge_from_point(self, point: usize) -> u32
        ensures { result ≡ cw_from_point self point }
    {
        match self.point_end(point) {
            Some(end) => self.cw_edge_from_end(end),
            None => NONE,
        }
    }

    // The next edge anticlockwise about the face, `NONE` where the edge has it on no side.
    pub fn acw_edge_from_face(self, face: usize) -> u32
        ensures { result ≡ acw_from_face self face }
    {
        match self.face_side(face) {
            Some(side) => self.acw_edge_from_side(side),
            None => NONE,
        }
    }

    // The next edge clockwise about the face, `NONE` where the edge has it on no side.
    pub fn cw_edge_from_face(self, face: usize) -> u32
        ensures { result ≡ cw_from_face self face }
    {
        match self.face_side(face) {
            Some(side) => self.cw_edge_from_side(side),
            None => NONE,
        }
    }

    // The face of this edge that the other one has too, its left face first; `NONE` where there is none.
    pub fn common_face(self, other: TnurccEdge) -> u32
        ensures { result ≡ common_face self other }
    {
        if same_face(self.face_left, other.face_left) {
            return self.face_left;
        }
        if same_face(self.face_left, other.face_right) {
            return self.face_left;
        }
        if same_face(self.face_right, other.face_left) {
            return self.face_right;
        }
        if same_face(self.face_right, other.face_right) {
            return self.face_right;
        }
        NONE
    }

    // The point of this edge that the other one has too, its origin first; `NONE` where there is none.
    pub fn common_point(self, other: TnurccEdge) -> u32
        ensures { result ≡ common_point self other }
    {
        if self.origin == other.origin {
            return self.origin;
        }
        if self.origin == other.dest {
            return self.origin;
        }
        if self.dest == other.origin {
            return self.dest;
        }
        if self.dest == other.dest {
            return self.dest;
        }
        NONE
    }
}
