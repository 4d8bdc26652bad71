// The limits and the answers of building from a text, as values: whether a text is too long, and the answer of building from
// lists as one of building from a text.
// Not here: what building makes of a text (`text_meshes`), the code that builds (`text_building`).
// Contracts: `is_too_long`, `told`. Definitions: `TextBuilding` of `text_meshes`.
#![tactic(auto)]

ghost use Rattle.std.specs.Prelude.{◌≡◌};
ghost use Rattle.text_meshes.specs.TextBuilding.{is_too_long, told};

use building_tests::Bounds;
use built_meshes::Ground;
use tables::Counts;
use text_meshes::TextRefusal;

// The most bytes of a text that `refine` takes.
pub const REFINE_BYTES: usize = 16384;

// Whether a text of n bytes is over the limit of bytes, which `refine` alone has.
pub fn is_too_long(bounds: Bounds, n: usize) -> bool
    ensures { result ≡ is_too_long bounds n }
{
    match bounds {
        Bounds::General => false,
        Bounds::Refine => REFINE_BYTES < n,
    }
}

// The answer of building from lists, as one of building from a text.
pub fn told(built: Result<Counts, Ground>) -> Result<Counts, TextRefusal>
    ensures { result ≡ told built }
{
    match built {
        Ok(c) => Ok(c),
        Err(g) => Err(TextRefusal::Refused(g)),
    }
}
