// Building in the tables of the program `oracle_runs`, from texts and from lists, whole or changed.
// Not here: the tables and their listing (`oracle_tables`), many texts from one (`oracle_trials`), the steps (`oracle_steps`), the records of
// the input (`oracle_runs`).
// Contracts: what callers need to be safe; the run compares what is built with the recorded answers.
#![tactic(auto)]

ghost use Rattle.std.specs.Prelude.{◌≡◌, length};

use building::build;
use building_tests::Bounds;
use built_meshes::{Ground, LentLists, Version};
use oracle_tables::held::{LentTables, Tables, filled_tables};
use tables::Counts;
use text_building::build_text;
use text_meshes::TextRefusal;
use text_reading::read_text;

// What building answered, and the tables after it.
#[derive(Clone, Copy)]
pub struct Start {
    pub answer: Result<Counts, TextRefusal>,
    pub tables: Tables,
}

// How many numbers of the four lists are handed over.
#[derive(Clone, Copy)]
pub struct Lengths {
    pub coordinates: usize,
    pub sides: usize,
    pub listed: usize,
    pub beside: usize,
}

// How the lists of a text are changed before they are built: their lengths, and a word of the side lengths.
#[derive(Clone, Copy)]
pub struct Change {
    pub lengths: Lengths,
    pub place: usize,
    pub word: u32,
}

// Builds from a text in as much of the tables as is lent.
fn build_lent(
    text: &[u8],
    bounds: Bounds,
    lent: LentTables,
    positions: &mut [f64],
    points: &mut [u32],
    edges: &mut [u32],
    intervals: &mut [f64],
    faces: &mut [u32],
) -> Result<Counts, TextRefusal> {
    let a = lent.positions.min(positions.len());
    let b = lent.points.min(points.len());
    let c = lent.edges.min(edges.len());
    let d = lent.intervals.min(intervals.len());
    let e = lent.faces.min(faces.len());
    build_text(
        text,
        bounds,
        &mut positions[..a],
        &mut points[..b],
        &mut edges[..c],
        &mut intervals[..d],
        &mut faces[..e],
    )
}

// Builds from a text in as much of filled tables as is lent.
pub fn build_bytes(text: &[u8], bounds: Bounds, lent: LentTables) -> Start {
    let mut t = filled_tables();
    let answer = build_lent(
        text,
        bounds,
        lent,
        &mut t.positions,
        &mut t.points,
        &mut t.edges,
        &mut t.intervals,
        &mut t.faces,
    );
    Start { answer, tables: t }
}

// Builds from the first numbers of lists.
pub fn build_lists(
    coordinates: &[f64],
    sides: &[u32],
    listed: &[u32],
    beside: &[f64],
    lengths: Lengths,
    positions: &mut [f64],
    points: &mut [u32],
    edges: &mut [u32],
    intervals: &mut [f64],
    faces: &mut [u32],
    bounds: Bounds,
) -> Result<Counts, Ground> {
    let a = lengths.coordinates.min(coordinates.len());
    let b = lengths.sides.min(sides.len());
    let c = lengths.listed.min(listed.len());
    let d = lengths.beside.min(beside.len());
    let lists = LentLists {
        version: Version::One,
        coordinates: &coordinates[..a],
        sides: &sides[..b],
        firsts: &[],
        listed: &listed[..c],
        beside: &beside[..d],
    };
    build(&lists, positions, points, edges, intervals, faces, bounds)
}

// Puts a word, where the list has such a place.
pub fn put_listed_word(words: &mut [u32], place: usize, word: u32)
    ensures { length words.new ≡ length words.old }
{
    if let Some(w) = words.get_mut(place) {
        *w = word;
    }
}

// Builds from the lists of a text, changed, in filled tables.
pub fn build_changed(text: &[u8], bounds: Bounds, change: Change) -> Start {
    let limits = tables::Sizes {
        points: 100,
        faces: 100,
        listed: 400,
    };
    let mut xs = [0.0; 300];
    let mut ls = [0; 400];
    let mut qs = [0; 400];
    let mut ps = [0; 400];
    let mut ds = [0.0; 400];
    let _ = read_text(text, limits, &mut xs, &mut ls, &mut qs, &mut ps, &mut ds);
    put_listed_word(&mut ls, change.place, change.word);
    let mut t = filled_tables();
    let built = build_lists(
        &xs,
        &ls,
        &ps,
        &ds,
        change.lengths,
        &mut t.positions,
        &mut t.points,
        &mut t.edges,
        &mut t.intervals,
        &mut t.faces,
        bounds,
    );
    let answer = match built {
        Ok(counts) => Ok(counts),
        Err(g) => Err(TextRefusal::Refused(g)),
    };
    Start { answer, tables: t }
}
