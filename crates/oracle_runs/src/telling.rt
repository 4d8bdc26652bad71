// One record of the input of the program `oracle_runs`: a text is built in tables, the mesh refined and written after each stage, or
// the number of the ground on which document 01 refuses; then what stands in the rows that hold no mesh.
// Not here: the records one after the other (`main.rt`), the tables (`oracle_tables`), building (`oracle_builds`), steps (`oracle_steps`).
// Contract: `tell`, what its caller needs to be safe.
//
// A record of the input: a label of 32 bytes, the numbers of the head (`heads`), byte 10, a text, further numbers. The kinds:
//   0  the text is built, and the mesh refined in numbered order
//   1  the same, the lists of the text changed: the lengths of the lists of coordinates, side lengths, listed points and intervals, a
//      place of the side lengths and the word that is put there are the further numbers
//   2  each text that is cut short of this one is built
//   3  each text that has another byte at one place is built: the further number is that byte
//   4  lists of zeros are built, all points in face 0: how many points, faces and listed points are the further numbers
//   5  as 0, in listed orders: the further numbers are, for each step, its edition, 0 the first and 1 the second, the length of its
//      order and the order
//   6  as 0, a word of the built tables changed: the table, 1 the points, 2 the edges, 3 the faces, the place and the word
ghost use Rattle.std.specs.Prelude.{◌≡◌, ◌≤◌, ◌+◌, length};

use crate::heads::{bounds, change};
use answer_numbers::ground_number;
use oracle_builds::{Start, build_bytes, build_changed, put_listed_word};
use oracle_steps::{StepStage, tell_steps};
use oracle_tables::fields::{field, word};
use oracle_tables::held::{Tables, lent_by};
use oracle_tables::kinds::Kind;
use oracle_tables::listing::{tell_mesh, tell_refused, tell_stage};
use oracle_tables::rows::{no_counts, tell_rows};
use oracle_trials::{count_changes, count_cuts, tell_tried, tell_zeros};
use std::io;
use tables::Counts;
use text_meshes::TextRefusal;

// The bytes of a label; those of a label, the 16 numbers of the head and byte 10.
const LABEL_BYTES: usize = 32;

pub const HEAD_BYTES: usize = 209;

// Changes a word of the points, edges or faces.
fn spoil(t: &mut Tables, table: usize, place: usize, word: u32) {
    match table {
        1 => put_listed_word(&mut t.points, place, word),
        2 => put_listed_word(&mut t.edges, place, word),
        3 => put_listed_word(&mut t.faces, place, word),
        _ => {}
    }
}

// The tables in which the steps of a record begin: changed if it is of kind 6.
fn begun(bytes: &[u8], head: usize, more: usize, mut t: Tables) -> Tables
    requires head_bound { head ≤ 16777216 }
    requires more_bound { more ≤ 8388608 }
{
    if matches!(Kind::from(field(bytes, head, 0)), Kind::Spoilt) {
        spoil(
            &mut t,
            field(bytes, more, 0),
            field(bytes, more, 1),
            word(bytes, more, 2),
        );
    }
    t
}

// Builds a text, its lists changed if the record is of kind 1.
fn build_kind(bytes: &[u8], head: usize, text: &[u8], more: usize) -> Start
    requires head_bound { head ≤ 16777216 }
    requires more_bound { more ≤ 8388608 }
{
    if matches!(Kind::from(field(bytes, head, 0)), Kind::Changed) {
        build_changed(text, bounds(bytes, head), change(bytes, more))
    } else {
        build_bytes(text, bounds(bytes, head), lent_by(bytes, head, 6))
    }
}

// Writes the mesh that was built, and makes the steps of the record.
fn tell_built(
    rt: &impl Print,
    bytes: &[u8],
    head: usize,
    more: usize,
    t: Tables,
    counts: Counts,
) -> io::Result<()>
    requires head_bound { head ≤ 16777216 }
    requires more_bound { more ≤ 8388608 }
{
    tell_mesh(rt, t, counts, 0 < field(bytes, head, 5))?;
    tell_rows(rt, b"[zero", t, counts)?;
    let tables = begun(bytes, head, more, t);
    tell_steps(rt, bytes, head, more, StepStage { counts, tables })
}

// Writes the ground on which building refused.
fn tell_ground(rt: &impl Print, t: Tables, n: u32) -> io::Result<()> {
    tell_refused(rt, n)?;
    tell_rows(rt, b"[zero", t, no_counts())
}

// Kinds 0, 1, 5 and 6: builds a text, and makes the steps of the record if that is accepted.
fn tell_text(rt: &impl Print, bytes: &[u8], head: usize, text: &[u8], more: usize) -> io::Result<()>
    requires head_bound { head ≤ 16777216 }
    requires more_bound { more ≤ 8388608 }
{
    let start = build_kind(bytes, head, text, more);
    let t = start.tables;
    tell_stage(rt, 0)?;
    match start.answer {
        Ok(counts) => tell_built(rt, bytes, head, more, t, counts),
        Err(TextRefusal::NotText) => tell_ground(rt, t, 1),
        Err(TextRefusal::Refused(g)) => tell_ground(rt, t, ground_number(g)),
    }
}

// Tells of a record by its kind.
fn tell_kind(rt: &impl Print, bytes: &[u8], head: usize, text: &[u8], more: usize) -> io::Result<()>
    requires head_bound { head ≤ 16777216 }
    requires more_bound { more ≤ 8388608 }
{
    match Kind::from(field(bytes, head, 0)) {
        Kind::CutShort => tell_tried(rt, text.len(), count_cuts(text)),
        Kind::OtherByte => tell_tried(
            rt,
            text.len(),
            count_changes(text, (field(bytes, more, 0) % 256) as u8),
        ),
        Kind::Zeros => tell_zeros(
            rt,
            field(bytes, more, 0),
            field(bytes, more, 1),
            word(bytes, more, 2),
        ),
        Kind::Whole | Kind::Changed | Kind::Listed | Kind::Spoilt => {
            tell_text(rt, bytes, head, text, more)
        }
    }
}

// How many bytes a record has, by its head.
pub fn record_bytes(bytes: &[u8]) -> usize
    ensures { (209 ≤ result) × (result ≤ 120000000208) }
{
    HEAD_BYTES + field(bytes, LABEL_BYTES, 1) + field(bytes, LABEL_BYTES, 2) * 11
}

// Tells of a record.
pub fn tell(rt: &impl Print, bytes: &[u8]) -> io::Result<()>
    requires in_bounds { 209 ≤ length bytes.now }
    requires bytes_len_bound { length bytes.now ≤ 8388608 }
{
    let head = LABEL_BYTES;
    rt.write_all(&bytes[..head])?;
    println!(rt)?;
    let n = field(bytes, head, 1).min(bytes.len() - HEAD_BYTES);
    let more = HEAD_BYTES + n;
    tell_kind(rt, bytes, head, &bytes[HEAD_BYTES..more], more)
}
