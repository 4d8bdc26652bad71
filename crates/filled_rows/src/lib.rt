// What the tables of the program `oracle_runs` are filled with, and whether a list of words or of numbers still has it: a row that has it
// was not touched.
// Not here: the tables, and what stands in their rows (`oracle_tables`).
// Contract: `is_filled`. Definitions: `specs/Filled.antt`. Laws: `proofs/Laws.antt`.
#![tactic(auto)]

ghost use Rattle.std.specs.Prelude.{◌≡◌, drop};
ghost use Rattle.filled_rows.specs.Filled.{all};

// The filling of words and of numbers.
pub const WORD: u32 = 2779096485;

pub const NUMBER: f64 = 1234.5;

// Whether all entries from a place on are as filled.
pub fn is_filled<T: PartialEq + Copy>(entries: &[T], from: usize, filling: T) -> bool
    ensures { result ≡ all (λ x. T.eq x filling) (drop from entries.now) }
{
    for i in from..entries.len() {
        if entries[i] != filling {
            return false;
        }
    }
    true
}
