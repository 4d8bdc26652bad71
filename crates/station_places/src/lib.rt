// What becomes of a text and where it is refused, as C callers are told of it: the number of building's answer, and three words for the line,
// the face and the edge.
// Not here: the answer (`told_texts`), the place (`text_places`), the C function (`station`).
// Contract: `explain_text_told`. Definitions: `specs/Told.antt`. Laws: `proofs/Laws.antt`.
#![tactic(auto)]

ghost use Rattle.std.specs.Prelude.{◌≡◌, [], ◌∷◌};
ghost use Rattle.tables.specs.Rows.{put_row};
ghost use Rattle.station_places.specs.Told.{Explained, explained};

use building_tests::Bounds;
use text_places::{TextPlace, text_place};
use told_texts::text_number;

// Writes the line, the face and the edge.
fn store_place(words: &mut [usize; 3], place: TextPlace)
    ensures { words.new ≡ put_row words.old 0 (place.line ∷ place.face ∷ place.edge ∷ []) }
{
    words[0] = place.line;
    words[1] = place.face;
    words[2] = place.edge;
}

// Answers the number of building a text of any bytes in tables with rows to spare, and writes where it is refused.
pub fn explain_text_told(text: &[u8], place: &mut [usize; 3]) -> u32
    ensures { ◌≡◌ {A = Explained} (record { answer = result; place = place.new }) (explained text.now place.old) }
{
    store_place(place, text_place(text, Bounds::General));
    text_number(text, Bounds::General)
}
