// The mender of texts as C callers and the program `mend` are told of it: the answer as its number.
// Not here: the mender (`text_mending`), the numbers of building's grounds (`answer_numbers`), the C function (`station`).
// Contract: `mend_text_told`. Definitions: `specs/Told.antt`; `Mending` of `mended_texts`.
#![tactic(auto)]

ghost use Rattle.std.specs.Prelude.{◌≡◌};
ghost use Rattle.mended_texts.specs.Mending.{text_mending_number, mend_text};
ghost use Rattle.station_mending.specs.Told.{MendingTold, mended};

use answer_numbers::ground_number;
use mended_texts::TextMending;
use text_mending::mend_text;

// The documents' number of the mender's answer: 0 for a text that is mended.
fn text_mending_number(r: TextMending) -> u32
    ensures { result ≡ text_mending_number r }
{
    match r {
        TextMending::Mended => 0,
        TextMending::NotText => 1,
        TextMending::Refused(g) => ground_number(g),
        TextMending::Twisted => 44,
    }
}

// Mends a text of any bytes in place, and answers the number.
pub fn mend_text_told(text: &mut [u8]) -> u32
    ensures { ◌≡◌ {A = MendingTold} (record { answer = result; text = text.new }) (mended (mend_text text.old)) }
{
    let answer = mend_text(text);
    text_mending_number(answer)
}
