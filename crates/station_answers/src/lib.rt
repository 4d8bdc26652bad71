// What the C functions tell of an answer: document 01's number, 0 for what is accepted, and the counts in an array of three that the
// caller lends: points, edges, faces.
// Not here: the C functions (`station`), the numbers of the grounds (`answer_numbers`).
// Contracts: `tell`, `tell_text_built`, `tell_crossing`. Definitions: `specs/Answers.antt`. Laws: `proofs/Laws.antt`.
#![tactic(auto)]

ghost use Rattle.std.specs.Prelude.{◌≡◌, [], ◌∷◌};
ghost use Rattle.tables.specs.Rows.{put_row};
ghost use Rattle.answer_numbers.specs.Numbers.{answer_number};
ghost use Rattle.text_meshes.specs.TextBuilding.{text_numbers};
ghost use Rattle.crossings.specs.Crossings.{number_of as crossingNumber};
ghost use Rattle.station_answers.specs.Answers.{counts_in, answer_of, counts_written, counts_told, edge_after};

use answer_numbers::{Numbered, answer_number, ground_number};
use crossings::NoCrossing;
use tables::Counts;
use text_meshes::TextRefusal;

// The counts that stand in an array.
pub fn load_counts(counts: &[usize; 3]) -> Counts
    ensures { result ≡ counts_in counts.now }
{
    Counts {
        points: counts[0],
        edges: counts[1],
        faces: counts[2],
    }
}

// Stores counts in an array.
pub fn store_counts(counts: &mut [usize; 3], c: Counts)
    ensures { counts.new ≡ put_row counts.old 0 (c.points ∷ c.edges ∷ c.faces ∷ []) }
{
    counts[0] = c.points;
    counts[1] = c.edges;
    counts[2] = c.faces;
}

// Tells an answer by its number. The counts are written if it is accepted.
pub fn tell<E: Numbered>(counts: &mut [usize; 3], answer: Result<Counts, E>) -> u32
    ensures value { result ≡ answer_number E.number answer }
    ensures counts_after { counts.new ≡ counts_told counts.old answer }
{
    if let Ok(c) = answer {
        store_counts(counts, c);
    }
    answer_number(answer)
}

// Tells the answer of building from a text. The counts are written if it is accepted.
pub fn tell_text_built(counts: &mut [usize; 3], answer: Result<Counts, TextRefusal>) -> u32
    ensures value { result ≡ answer_of (text_numbers answer) }
    ensures counts_after { counts.new ≡ counts_written counts.old (text_numbers answer) }
{
    match answer {
        Ok(c) => {
            store_counts(counts, c);
            0
        }
        Err(TextRefusal::NotText) => 1,
        Err(TextRefusal::Refused(g)) => ground_number(g),
    }
}

// Tells the answer of the depth finder. The edge is written if one crosses.
pub fn tell_crossing(edge: &mut [usize; 1], answer: Result<usize, NoCrossing>) -> u32
    ensures value { result ≡ crossingNumber answer }
    ensures edge_after { edge.new ≡ edge_after edge.old answer }
{
    match answer {
        Ok(e) => {
            edge[0] = e;
            0
        }
        Err(NoCrossing::NotFiniteDepth) => 42,
        Err(NoCrossing::NotClosed) => 30,
        Err(NoCrossing::Nowhere) => 41,
    }
}
