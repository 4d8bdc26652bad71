// The test that building makes of the numbers of the lists: ground 3.
// Not here: the lengths of the lists (`building_lists`), the limits and the tests of one face (`building_tests`).
// Contract: `numbers_fit`. Definitions: `Lists` of `built_meshes`.
#![tactic(auto)]

ghost use Rattle.std.specs.Prelude.{◌≡◌, []};
ghost use Rattle.std.specs.List.{list_all};
ghost use Rattle.std.specs.Float.Ieee.Scale.{finite};
ghost use Rattle.audited_meshes.specs.Audit.{interval_fit};
ghost use Rattle.built_meshes.specs.Lists.{listed_fit};
ghost use Rattle.listed_points.specs.Lent.{lists};

use intervals::interval_fits;
use positions::is_finite;

// Whether all coordinates are finite.
fn all_finite(coordinates: &[f64]) -> bool
    ensures { result ≡ list_all finite coordinates.now }
{
    coordinates.iter().all(|x| is_finite(*x))
}

// Whether all intervals are finite with their sign bit clear.
fn all_fit(beside: &[f64]) -> bool
    ensures { result ≡ list_all interval_fit beside.now }
{
    beside.iter().all(|x| interval_fits(*x))
}

// Whether all numbers are fit.
pub fn numbers_fit(coordinates: &[f64], beside: &[f64]) -> bool
    ensures { result ≡ listed_fit (lists coordinates.now [] [] beside.now) }
{
    all_finite(coordinates) && all_fit(beside)
}
