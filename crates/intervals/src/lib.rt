// Whether a number can be an interval: finite, with its sign bit clear.
// The definition is `interval_fit` of `audited_meshes`.
#![tactic(auto)]

ghost use Rattle.std.specs.Prelude.{◌≡◌};
ghost use Rattle.audited_meshes.specs.Audit.{interval_fit};

use positions::is_finite;

// The weight of the sign bit.
const SIGN: u64 = 0x8000000000000000;

// Whether a number is finite and its sign bit is clear: -0 is not fit.
pub fn interval_fits(v: f64) -> bool
    ensures { result ≡ interval_fit v }
{
    if !is_finite(v) {
        return false;
    }
    f64::to_bits(v) < SIGN
}
