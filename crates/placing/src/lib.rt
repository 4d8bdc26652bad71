// The positions of the points after a step, put into their rows of the scratch tables: the face points, what weighs for the edges at old
// points, the old points, a loop for each. Each loop ends at the first position that is not finite.
// Names: `newedges` and `newfaces` are the tables of edges and faces of the refined mesh, `newpositions` its table of positions.
// Not here: the rules (`face_points`, `edge_points`, `old_points`), the loops one after the other (`edition_points`), the rows (`visiting`).
// Contracts: `place_face_points`, `place_weighted_points`, `place_old_points`. Definitions: `steps`, specs/Positions.antt; what the loops
// ask: specs/Placing.antt. Laws for callers: `proofs/Laws.antt`.
#![tactic(auto)]

ghost use Rattle.std.specs.Prelude.{◌≡◌, ◌+◌, ◌*◌, get_or};
ghost use Rattle.tables.specs.Layout.{edge_width, dest_word, face_width, first_corner_word};
ghost use Rattle.tables.specs.Parts.{without_points};
ghost use Rattle.position_rules.specs.FacePoint.{face_point_in};
ghost use Rattle.position_rules.specs.EdgePoint.{weighted_point};
ghost use Rattle.position_rules.specs.OldPoint.{old_point};
ghost use Rattle.position_rules.specs.Places.{edge_point_at, face_point_at};
ghost use Rattle.steps.specs.Positions.{so_far, placed_by};
ghost use Rattle.placing.specs.Placing.{came, FacePointsFit, EdgePointsFit, OldPointsFit};

use edge_points::weighted_point;
use face_points::face_point;
use old_points::old_point;
use positions::{Placed, Position};
use records::store_position;
use refined_meshes::Edition;
use tables::{
    DEST_WORD, EDGE_WIDTH, FACE_WIDTH, FIRST_CORNER_WORD, LONGEST_BORDER, LONGEST_PERIMETER, index,
};

// Puts the face points of the first nf faces into their rows, and says whether all are finite. One pair of arrays holds the border of each
// face in its turn.
pub fn place_face_points(
    positions: &[f64],
    edges: &[u32],
    intervals: &[f64],
    faces: &[u32],
    ne: usize,
    nf: usize,
    newfaces: &[u32],
    newpositions: &mut [f64],
) -> bool
    requires { FacePointsFit positions.now edges.now intervals.now faces.now ne nf newfaces.now newpositions.old }
    ensures { placed_by nf (λ f. get_or newfaces.now (f * face_width + first_corner_word) 0)
        (λ f ps. face_point_in (without_points positions.now edges.now intervals.now faces.now) ne f)
        (so_far newpositions.old)
        ≡ came result newpositions.new }
{
    let mut perimeter = [0u32; LONGEST_PERIMETER];
    let mut points = [0u32; LONGEST_BORDER];
    for f in 0..nf {
        let Placed::At(x, y, z) = face_point(
            positions,
            edges,
            intervals,
            faces,
            ne,
            f,
            &mut perimeter,
            &mut points,
        ) else {
            return false;
        };
        store_position(
            newpositions,
            index(newfaces[f * FACE_WIDTH + FIRST_CORNER_WORD]),
            Position { x, y, z },
        );
    }
    true
}

// Puts what weighs for the first ne edges into the rows of their edge points, and says whether all are finite. In the first edition that
// is the edge points.
pub fn place_weighted_points(
    positions: &[f64],
    edges: &[u32],
    intervals: &[f64],
    ne: usize,
    newedges: &[u32],
    newfaces: &[u32],
    newpositions: &mut [f64],
    edition: Edition,
) -> bool
    requires { EdgePointsFit positions.now edges.now intervals.now ne newedges.now newfaces.now newpositions.old }
    ensures { placed_by ne (λ e. get_or newedges.now (e * edge_width + dest_word) 0)
        (λ e ps. weighted_point edition positions.now edges.now intervals.now
        (face_point_at ps newfaces.now) e)
        (so_far newpositions.old)
        ≡ came result newpositions.new }
{
    for e in 0..ne {
        let Placed::At(x, y, z) = weighted_point(
            positions,
            edges,
            intervals,
            newpositions,
            newfaces,
            e,
            edition,
        ) else {
            return false;
        };
        store_position(
            newpositions,
            index(newedges[e * EDGE_WIDTH + DEST_WORD]),
            Position { x, y, z },
        );
    }
    true
}

// Puts the old points into their rows, and says whether all are finite.
pub fn place_old_points(
    positions: &[f64],
    points: &[u32],
    edges: &[u32],
    intervals: &[f64],
    np: usize,
    newedges: &[u32],
    newfaces: &[u32],
    newpositions: &mut [f64],
) -> bool
    requires { OldPointsFit positions.now points.now edges.now intervals.now np newedges.now newfaces.now newpositions.old }
    ensures { placed_by np (λ p. p)
        (λ p ps. old_point positions.now points.now edges.now intervals.now
        (edge_point_at ps newedges.now) (face_point_at ps newfaces.now) p)
        (so_far newpositions.old)
        ≡ came result newpositions.new }
{
    for p in 0..np {
        let Placed::At(x, y, z) = old_point(
            positions,
            points,
            edges,
            intervals,
            newpositions,
            newedges,
            newfaces,
            p,
        ) else {
            return false;
        };
        store_position(newpositions, p, Position { x, y, z });
    }
    true
}
