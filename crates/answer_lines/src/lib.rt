// The lines of an answer written (document 01, "Mesh text"): `[mesh 8 12 6]`, `[step 26 48 24]`, `[at 0 H H H]`, `[refused N]`.
// Not here: what the lines are, and the writing of numbers (`mesh_answers`).
// Contracts: `write_mesh`, `write_step`, `write_at`, `write_refused`. Definitions: `Lines` and `Writing` of `mesh_answers`.
#![tactic(auto)]

ghost use Rattle.std.specs.Prelude.{◌≡◌, ◌+◌, ◌≤◌, length};
ghost use Rattle.mesh_answers.specs.Lines.{number_field, three_fields, mesh_line, step_line, at_line, refused_line};
ghost use Rattle.mesh_answers.specs.Writing.{Written};

use mesh_answers::{write, write_bits, write_number};

// Writes a line of three numbers after a head.
fn write_counts(out: &mut [u8], at: usize, t: &[u8], p: u64, e: u64, f: u64) -> usize
    requires { (at + 70 ≤ length out.old) × (length t.now ≡ 5) }
    ensures { Written out.old at (three_fields t.now (number_field p) (number_field e) (number_field f)) result out.new }
{
    let i = write(out, at, t);
    let j = write_number(out, i, p);
    let k = write_number(out, j, e);
    let l = write_number(out, k, f);
    write(out, l, b"]\n")
}

// Writes how many points, edges and faces there are before the step.
pub fn write_mesh(out: &mut [u8], at: usize, p: u64, e: u64, f: u64) -> usize
    requires { at + 70 ≤ length out.old }
    ensures { Written out.old at (mesh_line p e f) result out.new }
{
    write_counts(out, at, b"[mesh", p, e, f)
}

// Writes how many points, edges and faces there are after the step.
pub fn write_step(out: &mut [u8], at: usize, p: u64, e: u64, f: u64) -> usize
    requires { at + 70 ≤ length out.old }
    ensures { Written out.old at (step_line p e f) result out.new }
{
    write_counts(out, at, b"[step", p, e, f)
}

// Writes where point 0 is, by the bits of its coordinates.
pub fn write_at(out: &mut [u8], at: usize, x: u64, y: u64, z: u64) -> usize
    requires { at + 58 ≤ length out.old }
    ensures { Written out.old at (at_line x y z) result out.new }
{
    let i = write(out, at, b"[at 0");
    let j = write_bits(out, i, x);
    let k = write_bits(out, j, y);
    let l = write_bits(out, k, z);
    write(out, l, b"]\n")
}

// Writes the ground of a refusal.
pub fn write_refused(out: &mut [u8], at: usize, n: u64) -> usize
    requires { at + 31 ≤ length out.old }
    ensures { Written out.old at (refused_line n) result out.new }
{
    let i = write(out, at, b"[refused");
    let j = write_number(out, i, n);
    write(out, j, b"]\n")
}
