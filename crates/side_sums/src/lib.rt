// Whether the sums of the intervals of a face's four sides agree, as the version asks (ground 13).
// Not here: the sums taken, and the other tests of a face (`building_tests`).
// Contract: `sums_agree`. Definition: `Faces` of `built_meshes`. Laws: `proofs/Laws.antt`.
#![tactic(auto)]

ghost use Rattle.std.specs.Prelude.{◌≡◌};
ghost use Rattle.built_meshes.specs.Faces.{sums_agree};

use built_meshes::Version;
use positions::is_small;

// Whether the sums of four sides agree as the version asks.
pub fn sums_agree(version: Version, s0: f64, s1: f64, s2: f64, s3: f64) -> bool
    ensures { result ≡ sums_agree version s0 s1 s2 s3 }
{
    match version {
        Version::One => is_small(s0 - s2 + s1 - s3),
        Version::Two => {
            if is_small(s0 - s2) {
                return is_small(s1 - s3);
            }
            false
        }
    }
}
