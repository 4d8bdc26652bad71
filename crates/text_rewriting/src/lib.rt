// A text of version 2 mended by the lists that it stands for (document 02, §8): whole faces turned round in the lists, and their lines written over
// those of the text.
// Not here: the reader, and what it answers (`text_mending`); the choice of faces (`list_mending`), lists turned (`face_turning`), face lines written
// (`text_printing`), the definition and its claims (`mended_texts`).
// Contract: `mend_by_lists`. Definitions: `Mending` of `mended_texts`; between the stages `specs/Said.antt`. Laws: `proofs/Laws.antt`.
#![tactic(auto)]

ghost use Rattle.std.specs.Prelude.{◌≡◌};
ghost use Rattle.mended_texts.specs.Mending.{MendOutcome, mend_text};
ghost use Rattle.mended_texts.specs.declared.TextMending.TheVariants.{Mended};
ghost use Rattle.text_rewriting.specs.Said.{Said, Mendable};

use building_tests::MOST_FACES;
use face_turning::turn_faces;
use list_mending::find_turns;
use mended_lists::Unmended;
use mended_texts::TextMending;
use tables::POSITION_WIDTH;
use text_printing::write_face_lines;

// The bytes of a text's head and of a point line.
const HEAD_BYTES: usize = 9;

const POINT_BYTES: usize = 59;

// Turns the faces in the lists, and writes their lines over those of the text.
fn rewrite_faces(
    text: &mut [u8],
    coordinates: &[f64],
    sides: &mut [u32],
    firsts: &mut [u32],
    listed: &mut [u32],
    beside: &mut [f64],
    turned: &[bool],
)
    requires { Mendable text.old coordinates.now sides.old firsts.old listed.old beside.old turned.now }
    ensures { ◌≡◌ {A = MendOutcome} (record { answer = Mended; text = text.new }) (mend_text text.old) }
{
    turn_faces(sides, firsts, listed, beside, turned);
    let at = HEAD_BYTES + POINT_BYTES * (coordinates.len() / POSITION_WIDTH);
    write_face_lines(text, at, sides, firsts, listed, beside);
}

// Mends a text by the lists that it stands for.
pub fn mend_by_lists(
    text: &mut [u8],
    coordinates: &[f64],
    sides: &mut [u32],
    firsts: &mut [u32],
    listed: &mut [u32],
    beside: &mut [f64],
) -> TextMending
    requires { Said text.old coordinates.now sides.old firsts.old listed.old beside.old }
    ensures { ◌≡◌ {A = MendOutcome} (record { answer = result; text = text.new }) (mend_text text.old) }
{
    let mut turned = [false; MOST_FACES];
    match find_turns(coordinates, sides, firsts, listed, beside, &mut turned) {
        Ok(()) => {
            rewrite_faces(text, coordinates, sides, firsts, listed, beside, &turned);
            TextMending::Mended
        }
        Err(Unmended::Refused(g)) => TextMending::Refused(g),
        Err(Unmended::Twisted) => TextMending::Twisted,
    }
}
