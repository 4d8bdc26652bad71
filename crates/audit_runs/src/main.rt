// Runs the audit over meshes that the oracle recorded and over spoilt ones, and writes of each whether it is closed.
// The meshes stand in the input as `tools/audit_runs.py` writes them: a label of 32 bytes, eight numbers of 8 bytes (points, edges,
// faces, the lengths of the five tables), then the tables, all little-endian.
#![tactic(auto)]

ghost use Rattle.std.specs.Prelude.{◌≡◌, ◌≤◌, ◌+◌, IfOk, length};

use std::io;
use std::num::f64_from_bits_with_nan;
use streams::read_full;
use tables::{Counts, MeshTables};

// The N bytes at a place; 0 past the end.
fn bytes_at<const N: usize>(bytes: &[u8], at: usize) -> [u8; N] {
    // A slice, and no `skip`, which passes over the bytes before the place one by one.
    let rest = bytes.get(at..).unwrap_or(&[]);
    if let Some(whole) = rest.first_chunk() {
        return *whole;
    }
    let mut found = [0; N];
    for (b, x) in found.iter_mut().zip(rest) {
        *b = *x;
    }
    found
}

// The number of 8 bytes at a place.
fn long(bytes: &[u8], at: usize) -> u64 {
    u64::from_le_bytes(bytes_at(bytes, at))
}

// What tables hold: words of 4 bytes, and binary64 numbers, by their bits.
trait Entry: Copy {
    // Entry i of a table that stands at a place.
    fn entry(bytes: &[u8], at: usize, i: usize) -> Self
        requires at_bound { at ≤ 2147483648 }
        requires i_bound { i ≤ 65536 };
}

impl Entry for u32 {
    fn entry(bytes: &[u8], at: usize, i: usize) -> u32 {
        u32::from_le_bytes(bytes_at(bytes, at + i * 4))
    }
}

impl Entry for f64 {
    fn entry(bytes: &[u8], at: usize, i: usize) -> f64 {
        f64_from_bits_with_nan(long(bytes, at + i * 8))
    }
}

// Fills a table from the bytes at a place.
fn fill<T: Entry>(bytes: &[u8], at: usize, table: &mut [T])
    requires at_bound { at ≤ 2147483648 }
    requires table_len_bound { length table.old ≤ 65536 }
    ensures { length table.new ≡ length table.old }
{
    for (i, x) in table.iter_mut().enumerate() {
        *x = T::entry(bytes, at, i);
    }
}

// The length of a table that stands at a place, at most what the program has room for.
fn size(bytes: &[u8], at: usize, most: usize) -> usize
    ensures { result ≤ most }
{
    (long(bytes, at) as usize).min(most)
}

// Whether the mesh at a place is closed. Its tables have these lengths.
fn is_closed(
    bytes: &[u8],
    at: usize,
    counts: Counts,
    xs: usize,
    ps: usize,
    es: usize,
    ds: usize,
    fs: usize,
) -> bool
    requires at_bound { at ≤ 1073741824 }
    requires xs_bound { xs ≤ 330 }
    requires ps_bound { ps ≤ 330 }
    requires es_bound { es ≤ 1600 }
    requires ds_bound { ds ≤ 200 }
    requires fs_bound { fs ≤ 500 }
{
    let mut positions = [0.0; 330];
    let mut points = [0; 330];
    let mut edges = [0; 1600];
    let mut intervals = [0.0; 200];
    let mut faces = [0; 500];
    let b = at + xs * 8;
    let c = b + ps * 4;
    let d = c + es * 4;
    let e = d + ds * 8;
    fill(bytes, at, &mut positions);
    fill(bytes, b, &mut points);
    fill(bytes, c, &mut edges);
    fill(bytes, d, &mut intervals);
    fill(bytes, e, &mut faces);
    let tables = MeshTables {
        positions: &positions[..xs],
        points: &points[..ps],
        edges: &edges[..es],
        intervals: &intervals[..ds],
        faces: &faces[..fs],
    };
    audit::audit(&tables, counts)
}

// Tells of the mesh at a place, and gives the place of the next one.
fn tell(rt: &impl Print, bytes: &[u8], at: usize) -> io::Result<usize>
    requires { at ≤ 536870912 }
    ensures { IfOk result (λ next. next ≤ at + 32768) }
{
    let counts = Counts {
        points: long(bytes, at + 32) as usize,
        edges: long(bytes, at + 40) as usize,
        faces: long(bytes, at + 48) as usize,
    };
    let xs = size(bytes, at + 56, 330);
    let ps = size(bytes, at + 64, 330);
    let es = size(bytes, at + 72, 1600);
    let ds = size(bytes, at + 80, 200);
    let fs = size(bytes, at + 88, 500);
    if is_closed(bytes, at + 96, counts, xs, ps, es, ds, fs) {
        println!(rt; " closed")?;
    } else {
        println!(rt; " not closed")?;
    }
    Ok(at + 96 + xs * 8 + ps * 4 + es * 4 + ds * 8 + fs * 4)
}

// Tells of the meshes one after the other.
fn tell_all(rt: &impl Print, bytes: &[u8]) -> io::Result<()> {
    let mut at = 0;
    for _ in 0..4096usize {
        let Some(label) = bytes.get(at..at + 32) else {
            break;
        };
        rt.write_all(label)?;
        at = tell(rt, bytes, at)?;
    }
    Ok(())
}

fn main(rt: HostRuntime) -> io::Result<()> {
    let mut bytes = [0u8; 327680];
    let n = read_full(&mut rt.stdin(), &mut bytes)?;
    tell_all(&rt, &bytes[..n])
}
