// Steps of refining, one after the other, in the tables of the program `oracle_runs`.
// Not here: the tables and their listing (`oracle_tables`), building (`oracle_builds`).
// Contracts: what callers need to be safe; the run compares what the steps leave with the recorded answers.
#![tactic(auto)]

ghost use Rattle.std.specs.Prelude.{◌≡◌, ◌+◌, ◌≤◌, length};

use oracle_tables::fields::{cut, field, word};
use oracle_tables::held::{LentTables, Tables, filled_tables, lent_by};
use oracle_tables::kinds::Kind;
use oracle_tables::listing::{tell_mesh, tell_refused, tell_stage};
use oracle_tables::rows::{no_counts, tell_rows};
use refined_meshes::Edition;
use refining::step;
use std::io;
use steps::StepRefusal;
use tables::Counts;

// What a step answered, and the tables and the scratch tables after it.
#[derive(Clone, Copy)]
pub struct MadeStep {
    pub answer: Result<Counts, StepRefusal>,
    pub tables: Tables,
    pub scratch: Tables,
}

// A mesh in tables.
#[derive(Clone, Copy)]
pub struct StepStage {
    pub counts: Counts,
    pub tables: Tables,
}

// Fills an order with the faces in numbered order, or, if it is listed, from the numbers at a place, of which the first two are the edition
// and its length.
fn fill_order(bytes: &[u8], listed: bool, at: usize, order: &mut [u32])
    requires at_bound { at ≤ 16777216 }
    requires order_len_bound { length order.old ≤ 65535 }
    ensures { length order.new ≡ length order.old }
{
    for (i, f) in order.iter_mut().enumerate() {
        *f = if listed {
            word(bytes, at, i + 2)
        } else {
            i as u32
        };
    }
}

// Makes a step in as much of the tables and of the scratch tables as is lent.
fn step_lent(
    held: LentTables,
    scratch: LentTables,
    counts: Counts,
    order: &[u32],
    edition: Edition,
    positions: &mut [f64],
    points: &mut [u32],
    edges: &mut [u32],
    intervals: &mut [f64],
    faces: &mut [u32],
    newpositions: &mut [f64],
    newpoints: &mut [u32],
    newedges: &mut [u32],
    newintervals: &mut [f64],
    newfaces: &mut [u32],
) -> Result<Counts, StepRefusal> {
    let a = held.positions.min(positions.len());
    let b = held.points.min(points.len());
    let c = held.edges.min(edges.len());
    let d = held.intervals.min(intervals.len());
    let e = held.faces.min(faces.len());
    let f = scratch.positions.min(newpositions.len());
    let g = scratch.points.min(newpoints.len());
    let h = scratch.edges.min(newedges.len());
    let i = scratch.intervals.min(newintervals.len());
    let j = scratch.faces.min(newfaces.len());
    step(
        &mut positions[..a],
        &mut points[..b],
        &mut edges[..c],
        &mut intervals[..d],
        &mut faces[..e],
        counts,
        order,
        &mut newpositions[..f],
        &mut newpoints[..g],
        &mut newedges[..h],
        &mut newintervals[..i],
        &mut newfaces[..j],
        edition,
    )
}

// Makes a step in the tables t with the scratch tables s, in as much of them as is lent.
fn make(
    mut t: Tables,
    mut s: Tables,
    counts: Counts,
    order: &[u32],
    edition: Edition,
    held: LentTables,
    scratch: LentTables,
) -> MadeStep {
    let answer = step_lent(
        held,
        scratch,
        counts,
        order,
        edition,
        &mut t.positions,
        &mut t.points,
        &mut t.edges,
        &mut t.intervals,
        &mut t.faces,
        &mut s.positions,
        &mut s.points,
        &mut s.edges,
        &mut s.intervals,
        &mut s.faces,
    );
    MadeStep {
        answer,
        tables: t,
        scratch: s,
    }
}

// Writes what a step answered, the mesh, and what stands in the rows that hold no mesh; gives the mesh.
fn tell_made(rt: &impl Print, made: MadeStep, told: bool, counts: Counts) -> io::Result<StepStage> {
    let t = made.tables;
    let counts = match made.answer {
        Ok(c) => {
            tell_mesh(rt, t, c, told)?;
            c
        }
        Err(refusal) => {
            tell_refused(rt, refusal.number())?;
            tell_mesh(rt, t, counts, false)?;
            counts
        }
    };
    tell_rows(rt, b"[zero", t, counts)?;
    tell_rows(rt, b"[scratch", made.scratch, no_counts())?;
    Ok(StepStage { counts, tables: t })
}

// How many faces the order of the next step names: those of the mesh, or, if orders are listed, the number at a place.
fn order_length(bytes: &[u8], listed: bool, at: usize, faces: usize) -> usize
    requires { at ≤ 16777216 }
    ensures { result ≤ 400 }
{
    if listed {
        cut(bytes, at, 1, 400)
    } else {
        faces.min(400)
    }
}

// The edition of the next step: the first, or, if orders are listed, the one that the number at a place says.
fn edition_at(bytes: &[u8], listed: bool, at: usize) -> Edition
    requires { at ≤ 16777216 }
{
    if listed && field(bytes, at, 0) == 1 {
        Edition::Second
    } else {
        Edition::First
    }
}

// Makes a step in numbered order, or in the edition and the order that are listed at a place, and writes what it answered and left.
fn tell_step(
    rt: &impl Print,
    bytes: &[u8],
    head: usize,
    at: usize,
    told: bool,
    stage: StepStage,
) -> io::Result<StepStage>
    requires head_bound { head ≤ 16777216 }
    requires at_bound { at ≤ 16777216 }
{
    let listed = matches!(Kind::from(field(bytes, head, 0)), Kind::Listed);
    let c = stage.counts;
    let n = order_length(bytes, listed, at, c.faces);
    let mut order = [0; 400];
    fill_order(bytes, listed, at, &mut order);
    let made = make(
        stage.tables,
        filled_tables(),
        c,
        &order[..n],
        edition_at(bytes, listed, at),
        lent_by(bytes, head, 6),
        lent_by(bytes, head, 11),
    );
    tell_made(rt, made, told, c)
}

// The place after the order that stands at a place.
fn after_order(bytes: &[u8], at: usize) -> usize
    requires { at ≤ 16777216 }
    ensures { result ≤ at + 4422 }
{
    at + (cut(bytes, at, 1, 400) + 2) * 11
}

// Makes the steps of a record, each in the mesh that the last one left.
pub fn tell_steps(
    rt: &impl Print,
    bytes: &[u8],
    head: usize,
    more: usize,
    first: StepStage,
) -> io::Result<()>
    requires head_bound { head ≤ 16777216 }
    requires more_bound { more ≤ 8388608 }
{
    let steps = cut(bytes, head, 4, 8);
    let told = field(bytes, head, 5);
    let mut stage = first;
    let mut at = more;
    for k in 1..=steps {
        tell_stage(rt, k)?;
        stage = tell_step(rt, bytes, head, at, k < told, stage)?;
        at = after_order(bytes, at);
    }
    Ok(())
}
