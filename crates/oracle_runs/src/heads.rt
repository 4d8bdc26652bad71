// What the head of a record says, and the numbers that follow its text. A number is a space and ten decimal digits.
//   0        the kind of the record
//   1        how many bytes the text has
//   2        how many further numbers follow it
//   3        the limits: 0 the general ones, 1 those of `refine`
//   4        how many steps are made
//   5        how many stages are written in full, of those with a mesh
//   6 to 10  how many words or numbers of the tables of positions, points, edges, intervals and faces are lent
//   11 to 15 the same of the scratch tables
ghost use Rattle.std.specs.Prelude.{◌≤◌};

use building_tests::Bounds;
use oracle_builds::{Change, Lengths};
use oracle_tables::fields::{field, word};

// The limits that the head names.
pub fn bounds(bytes: &[u8], head: usize) -> Bounds
    requires { head ≤ 16777216 }
{
    if field(bytes, head, 3) == 0 {
        Bounds::General
    } else {
        Bounds::Refine
    }
}

// How the lists are changed, by the further numbers of a record of kind 1.
pub fn change(bytes: &[u8], more: usize) -> Change
    requires { more ≤ 16777216 }
{
    let lengths = Lengths {
        coordinates: field(bytes, more, 0),
        sides: field(bytes, more, 1),
        listed: field(bytes, more, 2),
        beside: field(bytes, more, 3),
    };
    Change {
        lengths,
        place: field(bytes, more, 4),
        word: word(bytes, more, 5),
    }
}
