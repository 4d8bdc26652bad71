// What stands in the rows of lent tables that hold no mesh. A row that still has the filling was not touched.
ghost use Rattle.std.specs.Prelude.{◌≡◌};
ghost use Rattle.oracle_tables.specs.Kept.{kept};

use crate::held::Tables;
use crate::listing::{MOST_LINES, bits_of};
use filled_rows::{NUMBER, WORD, is_filled};
use std::io;
use tables::{Counts, EDGE_WIDTH, FACE_WIDTH, POINT_WIDTH, POSITION_WIDTH};

// The counts of no rows.
pub fn no_counts() -> Counts {
    Counts {
        points: 0,
        edges: 0,
        faces: 0,
    }
}

// What tables hold: words and numbers.
trait Entry: Copy + PartialEq {
    // What tables of them are filled with.
    const FILLING: Self;

    // Whether it is the word 0, or the number +0.
    fn is_zero(self) -> bool;
}

impl Entry for u32 {
    const FILLING: u32 = WORD;

    fn is_zero(self) -> bool {
        self == 0
    }
}

impl Entry for f64 {
    const FILLING: f64 = NUMBER;

    fn is_zero(self) -> bool {
        bits_of(self) == 0
    }
}

// Writes how many entries from a place on are zero, and whether all that follow are as filled.
fn tell_entries<T: Entry>(rt: &impl Print, entries: &[T], from: usize) -> io::Result<bool> {
    let rest = entries.get(from..).unwrap_or(&[]);
    let n = rest.iter().take_while(|x| x.is_zero()).count();
    print!(rt; " {n}")?;
    Ok(is_filled(&rest[n..], 0, T::FILLING))
}

// Writes of the rows after so many words of the tables how many words or numbers are zero, and whether all that follow are as filled.
pub fn tell_slices(
    rt: &impl Print,
    head: &[u8],
    positions: &[f64],
    points: &[u32],
    edges: &[u32],
    intervals: &[f64],
    faces: &[u32],
    counts: Counts,
) -> io::Result<()> {
    let np = counts.points.min(MOST_LINES);
    let ne = counts.edges.min(MOST_LINES);
    let nf = counts.faces.min(MOST_LINES);
    rt.write_all(head)?;
    let a = tell_entries(rt, positions, np * POSITION_WIDTH)?;
    let b = tell_entries(rt, points, np * POINT_WIDTH)?;
    let c = tell_entries(rt, edges, ne * EDGE_WIDTH)?;
    let d = tell_entries(rt, intervals, ne)?;
    let e = tell_entries(rt, faces, nf * FACE_WIDTH)?;
    let left = if a && b && c && d && e {
        "kept"
    } else {
        "spoilt"
    };
    println!(rt; " {left}]")
}

// The same of the tables that the program holds.
pub fn tell_rows(rt: &impl Print, head: &[u8], t: Tables, counts: Counts) -> io::Result<()> {
    tell_slices(
        rt,
        head,
        &t.positions,
        &t.points,
        &t.edges,
        &t.intervals,
        &t.faces,
        counts,
    )
}

// Whether all of the tables is as filled.
pub fn is_kept(t: Tables) -> bool
    ensures { result ≡ kept t }
{
    is_filled(&t.positions, 0, NUMBER)
        && is_filled(&t.points, 0, WORD)
        && is_filled(&t.edges, 0, WORD)
        && is_filled(&t.intervals, 0, NUMBER)
        && is_filled(&t.faces, 0, WORD)
}
