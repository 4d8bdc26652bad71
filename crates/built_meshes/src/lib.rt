// What building makes of lists of coordinates, side lengths, first points, listed points and intervals (document 01, "Building"; document
// 02, §4), of either version, as a definition, with its theorems: it refuses by the ground that is met first, and what it accepts passes the audit and is what
// document 01 makes of the lists.
// Carries over `try_new` of t_nurcc/mod.rs. Not here: the code that builds.
// Definitions, in the order of reading: `specs/Lists.antt` (what is handed in, grounds 2 and 3), `specs/Faces.antt` (grounds 10 to
// 13 and 43), `specs/Edges.antt` (one edge, grounds 14 and 15), `specs/Perimeters.antt` (one face), `specs/Whole.antt` (grounds 20 to
// 22), `specs/Building.antt` (the whole), `specs/Answers.antt` (document 01's numbers).
// Claims: `specs/Claims.antt`, over `specs/Grounds.antt` (when each ground is met, of the places of `specs/Places.antt`, and their
// order) and `specs/Beyond.antt` (the rows that are never touched), and `specs/Builds.antt` (what an accepted build leaves), proved
// in `proofs/Theorem.antt`. What else is claimed of building, and pieces that are computed, stand in `building_claims`.
#![tactic(auto)]

// The version of lists, which is that of the mesh text they stand for (document 02, §4). The versions differ at three places: which
// interval an edge takes, whether the first points of the sides are looked at, and how the side sums are compared.
#[derive(Clone, Copy)]
pub enum Version {
    One,
    Two,
}

// The lists of a mesh that are lent to be read: the coordinates, 3 a point; the side lengths, 4 a face; the first points, one a
// side, which version 1 does not look at; the listed points, and the interval beside each.
#[derive(Clone, Copy)]
pub struct LentLists<'a> {
    pub version: Version,
    pub coordinates: &'a [f64],
    pub sides: &'a [u32],
    pub firsts: &'a [u32],
    pub listed: &'a [u32],
    pub beside: &'a [f64],
}

// Why building refuses. Document 01's number stands beside each.
#[derive(Clone, Copy)]
pub enum Ground {
    // 2: over the limits, or list lengths disagree
    OverCounts,
    // 3: a number is not finite, or an interval's sign bit is set
    UnfitNumber,
    // 4: fewer rows than points, faces, or listed points for edges
    FewRows,
    // 10: a face of fewer than 3 or more than 64 points
    FaceSize,
    // 11: a point number out of range
    OutOfRange,
    // 12: a point twice in a face
    PointTwice,
    // 43: a side's first point is not the point listed last before it (version 2)
    FirstPoint,
    // 13: side sums that disagree
    NonRectangularFace,
    // 14: an edge with two faces already
    EdgeTripleFace,
    // 15: the second face of an edge runs the same way
    SameWay,
    // 20: an edge with one face
    MissingFace,
    // 21: a point with no edge
    NoEdge,
    // 22: a point walk that misses an edge
    MissedEdge,
}
