// The limits of building, and the tests that it makes of one face before it enters an edge: grounds 10 to 13 and 43.
// Not here: the tests of the listed points (`listed_points`), whether the sums of sides agree (`side_sums`), grounds 2 and 3
// (`building_lists`, `list_numbers`), 4 (`counted_rows`), 14 and 15 (`edge_search`), 20 to 22 (`building_whole`).
// Definitions: `Faces` of `built_meshes`; `specs/Lent.antt`. Laws for callers: `proofs/Laws.antt`.
#![tactic(auto)]

ghost use Rattle.std.specs.Prelude.{◌≡◌};
ghost use Rattle.building_tests.specs.Lent.{limits_of};

use tables::Sizes;

pub mod faces;

// The limits of building: the most points, faces and listed points.
pub const MOST_POINTS: usize = 4096;

pub const MOST_FACES: usize = 4096;

pub const MOST_LISTED: usize = 16384;

// The limits of the program `refine`.
pub const REFINE_POINTS: usize = 64;

pub const REFINE_FACES: usize = 64;

pub const REFINE_LISTED: usize = 256;

// Which limits hold: those of building, or those of the program `refine`.
#[derive(Clone, Copy)]
pub enum Bounds {
    General,
    Refine,
}

impl Bounds {
    // The most points, faces and listed points.
    pub fn most(self) -> Sizes
        ensures { result ≡ limits_of self }
    {
        match self {
            Bounds::General => Sizes {
                points: MOST_POINTS,
                faces: MOST_FACES,
                listed: MOST_LISTED,
            },
            Bounds::Refine => Sizes {
                points: REFINE_POINTS,
                faces: REFINE_FACES,
                listed: REFINE_LISTED,
            },
        }
    }
}
