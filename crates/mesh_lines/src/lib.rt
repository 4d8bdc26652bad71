// The lines of mesh texts 1 and 2 (document 01, "Mesh text"; document 02, §4): point lines and face lines as definitions, what those who
// read them find, and the store into lent lists.
// Not here: the reading of the lines (`point_lines`, `face_sides`, `face_lines`), the whole text and its limits (`mesh_text`).
// Contract: `put`.
// Definitions: `specs/Grammar.antt` (the lines), `specs/Parts.antt` (the answers and the lists).
// Laws for callers: `proofs/Laws.antt`, `proofs/Answers.antt`.
#![tactic(auto)]

ghost use Rattle.std.specs.Prelude.{◌≡◌, set};

// A listed point, the bits of its interval, and the place after it.
#[derive(Clone, Copy)]
pub struct ListedPoint {
    pub point: u32,
    pub interval: u64,
    pub after: usize,
}

// The first point of a side, how many points it lists, and the place after it.
#[derive(Clone, Copy)]
pub struct SideRead {
    pub first: u32,
    pub listed: usize,
    pub after: usize,
}

// How many faces and how many listed points stand there, and the place after them.
#[derive(Clone, Copy)]
pub struct Lines {
    pub faces: usize,
    pub listed: usize,
    pub after: usize,
}

// Stores a number or a word, where the list has such a row.
pub fn put<T: Copy>(xs: &mut [T], i: usize, x: T)
    ensures { xs.new ≡ set xs.old i x }
{
    if i < xs.len() {
        xs[i] = x;
    }
}
