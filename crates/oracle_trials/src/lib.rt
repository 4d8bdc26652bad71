// Many texts, or long lists, from one record of the program `oracle_runs`: each text cut short, each text with another byte, lists of zeros
// at the limits.
// Not here: building one text or one mesh (`oracle_builds`).
// Contracts: what callers need to be safe; the run compares what is built with the recorded answers.
#![tactic(auto)]

ghost use Rattle.std.specs.Prelude.{◌<◌, length};

use answer_numbers::ground_number;
use building_tests::Bounds;
use built_meshes::Ground;
use filled_rows::{NUMBER, WORD};
use oracle_builds::{Lengths, build_bytes, build_lists};
use oracle_tables::held::LentTables;
use oracle_tables::listing::{tell_refused, tell_stage};
use oracle_tables::rows::{is_kept, no_counts, tell_slices};
use std::io;
use tables::{Counts, POSITION_WIDTH};
use text_meshes::TextRefusal;

// Whether a text is refused as not of the form and leaves the tables as they were.
fn is_unformed(text: &[u8]) -> bool {
    let whole = LentTables {
        positions: 1200,
        points: 1200,
        edges: 6400,
        intervals: 800,
        faces: 2000,
    };
    let start = build_bytes(text, Bounds::General, whole);
    matches!(start.answer, Err(TextRefusal::NotText)) && is_kept(start.tables)
}

// How many of the texts that are cut short of this one are unformed.
pub fn count_cuts(text: &[u8]) -> usize {
    (0..text.len()).filter(|&k| is_unformed(&text[..k])).count()
}

// Whether a text with another byte at place k, which is put back, is unformed.
fn is_change_unformed(text: &mut [u8], k: usize, byte: u8) -> bool
    requires { k < length text.old }
{
    let old = text[k];
    text[k] = byte;
    let unformed = is_unformed(text);
    text[k] = old;
    unformed
}

// How many of the texts that have this byte at one place are unformed, of a text that is copied first, as far as there is room.
pub fn count_changes(text: &[u8], byte: u8) -> usize {
    let mut copied = [0; 2048];
    let n = text.len().min(copied.len());
    let changed = &mut copied[..n];
    changed.copy_from_slice(&text[..n]);
    let mut count = 0;
    for k in 0..n {
        if is_change_unformed(changed, k, byte) {
            count += 1;
        }
    }
    count
}

// Writes how many texts were tried, and how many were unformed.
pub fn tell_tried(rt: &impl Print, tried: usize, unformed: usize) -> io::Result<()> {
    println!(rt; "[tried {tried} refused {unformed}]")
}

// Builds from lists of zeros, so many points, faces and listed points, all of these on the first side of face 0.
fn build_zeros(
    np: usize,
    nf: usize,
    listed: u32,
    positions: &mut [f64],
    points: &mut [u32],
    edges: &mut [u32],
    intervals: &mut [f64],
    faces: &mut [u32],
) -> Result<Counts, Ground> {
    let xs = [0.0; 12300];
    let mut ls = [0; 16400];
    let ps = [0; 16400];
    let ds = [0.0; 16400];
    ls[0] = listed;
    let lengths = Lengths {
        coordinates: np.min(4100) * POSITION_WIDTH,
        sides: nf.min(4100) * 4,
        listed: listed as usize,
        beside: listed as usize,
    };
    build_lists(
        &xs,
        &ls,
        &ps,
        &ds,
        lengths,
        positions,
        points,
        edges,
        intervals,
        faces,
        Bounds::General,
    )
}

// Writes the ground on which lists of zeros are refused, and what stands in the tables then.
pub fn tell_zeros(rt: &impl Print, np: usize, nf: usize, listed: u32) -> io::Result<()> {
    let mut positions = [NUMBER; 12300];
    let mut points = [WORD; 12300];
    let mut edges = [WORD; 131200];
    let mut intervals = [NUMBER; 16400];
    let mut faces = [WORD; 20500];
    let answer = build_zeros(
        np,
        nf,
        listed,
        &mut positions,
        &mut points,
        &mut edges,
        &mut intervals,
        &mut faces,
    );
    tell_stage(rt, 0)?;
    if let Err(g) = answer {
        tell_refused(rt, ground_number(g))?;
    }
    tell_slices(
        rt,
        b"[zero",
        &positions,
        &points,
        &edges,
        &intervals,
        &faces,
        no_counts(),
    )
}
