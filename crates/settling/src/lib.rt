// What the second edition of a step settles in the scratch tables once all faces are visited (document 02, §5): the intervals of the
// joining edges, a quarter of the sum of two whole intervals as they stood before the step.
// Names: `newedges` and `newintervals` are the tables of edges and intervals of the refined mesh.
// Not here: the visits (`visiting`), the positions (`placing`).
// Contract: `settle_joins`. Definitions: `refined_meshes`, specs/Settled.antt; what the loops ask: specs/Settling.antt.
#![tactic(auto)]

ghost use Rattle.std.specs.Prelude.{◌≡◌};
ghost use Rattle.refined_meshes.specs.declared.Edition.TheVariants.{Second};
ghost use Rattle.refined_meshes.specs.Settled.{settled_side, intervals_of_edition};
ghost use Rattle.tables.specs.Parts.{edge_tables};
ghost use Rattle.settling.specs.Settling.{SideFits, SidesFit, edge_rows_of};

use tables::{EDGE_WIDTH, LEFT_ACW_WORD, LEFT_CW_WORD, RIGHT_ACW_WORD, RIGHT_CW_WORD, index};

// Settles the joining edges of one side: the one in word w of each of the first ne rows, by the whole intervals of the neighbours in
// the words next and prev.
fn settle_side(
    edges: &[u32],
    intervals: &[f64],
    ne: usize,
    newedges: &[u32],
    newintervals: &mut [f64],
    w: usize,
    next: usize,
    prev: usize,
)
    requires { SideFits edges.now intervals.now ne newedges.now newintervals.old w next prev }
    ensures { newintervals.new
        ≡ settled_side edges.now intervals.now newedges.now w next prev ne newintervals.old }
{
    for e in 0..ne {
        let b = e * EDGE_WIDTH;
        let after = index(edges[b + next]);
        let before = index(edges[b + prev]);
        let join = index(newedges[b + w]);
        newintervals[join] = (intervals[after] + intervals[before]) * 0.25;
    }
}

// Settles the joining edges on both sides of the first ne edges.
pub fn settle_joins(
    edges: &[u32],
    intervals: &[f64],
    ne: usize,
    newedges: &[u32],
    newintervals: &mut [f64],
)
    requires { SidesFit edges.now intervals.now ne newedges.now newintervals.old }
    ensures { newintervals.new
        ≡ intervals_of_edition Second (edge_tables edges.now intervals.now) ne
        (edge_rows_of newedges.now newintervals.old) }
{
    settle_side(
        edges,
        intervals,
        ne,
        newedges,
        newintervals,
        LEFT_ACW_WORD,
        LEFT_ACW_WORD,
        LEFT_CW_WORD,
    );
    settle_side(
        edges,
        intervals,
        ne,
        newedges,
        newintervals,
        RIGHT_CW_WORD,
        RIGHT_ACW_WORD,
        RIGHT_CW_WORD,
    );
}
