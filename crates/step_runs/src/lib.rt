// A list of steps of refining, made one after the other in the same tables: each is handed its order, of orders that stand one
// behind the other, and the scratch that the step before it left.
// So `Demand3` of `runs` speaks of what this function makes: what it leaves is what a run of these steps leaves.
// Not here: one step (`refining`), what is claimed of runs (`runs`), such a list as a definition (`ordered_runs`).
// Contract: `run_steps`. Definitions: `Runs` of `ordered_runs`, with its laws.
// Names: `newpositions`, `newpoints`, `newedges`, `newintervals` and `newfaces` are the scratch tables of positions, points, edges, intervals, faces.
#![tactic(auto)]

ghost use Rattle.std.specs.Prelude.{◌≡◌};
ghost use Rattle.tables.specs.Mesh.{mesh_of};
ghost use Rattle.steps.specs.OneStep.{Binary64};
ghost use Rattle.runs.specs.Runs.{lent};
ghost use Rattle.ordered_runs.specs.Runs.{RunOutcome, orders_of, ran};

use refined_meshes::Edition;
use refining::step;
use tables::{Counts, index};

// What a list of steps answers: the counts of the mesh that it leaves, and how many of the steps were accepted.
#[derive(Clone, Copy)]
pub struct Ran {
    pub counts: Counts,
    pub accepted: usize,
}

// Makes as many steps of an edition as there are lengths, from the mesh with the counts on. The orders stand one behind the other in `orders`, each
// as long as its length says, the last of them cut where there is no more. A refused step leaves the mesh as found, and the next follows.
// `numbers` says what is true of every lent table of f64: it is the premise `Binary64` of `Demand3` (`runs`).
pub fn run_steps(
    positions: &mut [f64],
    points: &mut [u32],
    edges: &mut [u32],
    intervals: &mut [f64],
    faces: &mut [u32],
    counts: Counts,
    orders: &[u32],
    lengths: &[u32],
    newpositions: &mut [f64],
    newpoints: &mut [u32],
    newedges: &mut [u32],
    newintervals: &mut [f64],
    newfaces: &mut [u32],
    edition: Edition,
) -> Ran
    ensures outcome { ◌≡◌ {A = RunOutcome}
        (record {
          left = lent
              (mesh_of positions.new points.new edges.new intervals.new faces.new)
              result.counts;
          accepted = result.accepted;
          scratch = mesh_of newpositions.new newpoints.new newedges.new newintervals.new newfaces.new;
        })
        (ran edition
        (lent
        (mesh_of positions.old points.old edges.old intervals.old faces.old) counts)
        (mesh_of newpositions.old newpoints.old newedges.old newintervals.old newfaces.old)
        (orders_of orders.now lengths.now)) }
    ensures numbers { Binary64 counts
        (mesh_of positions.old points.old edges.old intervals.old faces.old) }
{
    let mut c = counts;
    let mut accepted = 0;
    let mut at = 0;
    for length in lengths {
        let end = at + index(*length).min(orders.len() - at);
        let answer = step(
            positions,
            points,
            edges,
            intervals,
            faces,
            c,
            &orders[at..end],
            newpositions,
            newpoints,
            newedges,
            newintervals,
            newfaces,
            edition,
        );
        if let Ok(refined) = answer {
            c = refined;
            accepted += 1;
        }
        at = end;
    }
    Ran {
        counts: c,
        accepted,
    }
}
