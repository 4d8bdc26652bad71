// Replays the oracle's recorded answers: builds texts in tables, refines the meshes, and writes them after each stage, every record
// and bit, as the oracle does, or the number of the ground on which document 01 refuses; then what stands in the rows that hold no
// mesh. Bad inputs are further records.
// Its input and what it must write are made by `tools/oracle_runs.py`: what is expected comes from the oracle's recorded files and
// from document 01, never from this program.
// Not here: what is told of one record (`telling.rt`).
#![tactic(auto)]

ghost use Rattle.std.specs.Prelude.{◌≡◌, ◌≤◌, IfOk, IfSome, length};

use crate::telling::{HEAD_BYTES, record_bytes, tell};
use std::io;
use std::io::Read;
use streams::read_full;

mod heads;
mod telling;

// Room for one record: the longest has a text of 16,385 bytes.
const RECORD_BYTES: usize = 16640;

// Reads the next record, and gives how many bytes it has, where a head is left and there is room for the record.
fn read_record<R: Read>(input: &mut R, bytes: &mut [u8]) -> io::Result<Option<usize>>
    ensures in_bounds { IfOk result (λ o. IfSome o (λ n. (209 ≤ n) × (n ≤ length bytes.new))) }
    ensures len { length bytes.new ≡ length bytes.old }
{
    if bytes.len() < HEAD_BYTES {
        return Ok(None);
    }
    if read_full(input, &mut bytes[..HEAD_BYTES])? < HEAD_BYTES {
        return Ok(None);
    }
    let whole = record_bytes(bytes);
    if bytes.len() < whole {
        return Ok(None);
    }
    let rest = read_full(input, &mut bytes[HEAD_BYTES..whole])?;
    Ok(Some(HEAD_BYTES + rest))
}

// Tells of the records one after the other, in room for one of them.
fn tell_all(rt: HostRuntime, bytes: &mut [u8]) -> io::Result<()>
    requires { length bytes.old ≤ 8388608 }
{
    for _ in 0..4096 {
        let Some(n) = read_record(&mut rt.stdin(), bytes)? else {
            break;
        };
        tell(&rt, &bytes[..n])?;
    }
    Ok(())
}

fn main(rt: HostRuntime) -> io::Result<()> {
    let mut bytes = [0u8; RECORD_BYTES];
    tell_all(rt, &mut bytes)
}
