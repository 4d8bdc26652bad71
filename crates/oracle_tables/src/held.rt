// The tables that are lent to building and refining: five arrays by value, filled before a mesh is built in them.
ghost use Rattle.std.specs.Prelude.{◌≤◌};

use crate::fields::cut;
use filled_rows::{NUMBER, WORD};

// Tables of 400 points, 800 edges and 400 faces: room for each sample and its steps.
#[derive(Clone, Copy)]
pub struct Tables {
    pub positions: [f64; 1200],
    pub points: [u32; 1200],
    pub edges: [u32; 6400],
    pub intervals: [f64; 800],
    pub faces: [u32; 2000],
}

// How many words or numbers of the tables are lent.
#[derive(Clone, Copy)]
pub struct LentTables {
    pub positions: usize,
    pub points: usize,
    pub edges: usize,
    pub intervals: usize,
    pub faces: usize,
}

// Tables that are filled.
pub fn filled_tables() -> Tables {
    Tables {
        positions: [NUMBER; 1200],
        points: [WORD; 1200],
        edges: [WORD; 6400],
        intervals: [NUMBER; 800],
        faces: [WORD; 2000],
    }
}

// How much is lent, by five numbers of a head from number k on.
pub fn lent_by(bytes: &[u8], head: usize, k: usize) -> LentTables
    requires head_bound { head ≤ 16777216 }
    requires k_bound { k ≤ 16 }
{
    LentTables {
        positions: cut(bytes, head, k, 1200),
        points: cut(bytes, head, k + 1, 1200),
        edges: cut(bytes, head, k + 2, 6400),
        intervals: cut(bytes, head, k + 3, 800),
        faces: cut(bytes, head, k + 4, 2000),
    }
}
