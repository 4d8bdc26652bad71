// Where an old point goes, by the weighted sum over its edges (document 01, "One refinement", equations 16 to 19).
// Not here: the sum (`old_points`).
// Contract: `moved`. Definition: `position_rules`, specs/OldPoint.antt.
#![tactic(auto)]

ghost use Rattle.std.specs.Prelude.{◌≡◌};
ghost use Rattle.position_rules.specs.OldPoint.{moved};

use position_rules::WeightedSum;
use positions::{Position, is_small};

// The old place times (v - 3) / v, plus S times 3 over v times W; the old place if W is small.
pub fn moved(place: Position, v: f64, s: WeightedSum) -> Position
    ensures { result ≡ moved place v s }
{
    if is_small(s.weight) {
        return place;
    }
    place
        .times((v - 3.0) / v)
        .plus(s.sum.times(3.0).over(v * s.weight))
}
