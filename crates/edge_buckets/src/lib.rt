// The bucket that two points choose, in whose chain the edge between them is found.
// Not here: the chains, and the search along them (`edge_search`).
// Contract: `bucket`. Definitions: `specs/Buckets.antt`. Laws: `proofs/Buckets.antt`.
#![tactic(auto)]

ghost use Rattle.std.specs.Prelude.{◌≡◌, ◌<◌};
ghost use Rattle.edge_buckets.specs.Buckets.{buckets, bucket_of};

use tables::index;

// How many buckets there are, each with a chain.
pub const BUCKETS: usize = 16384;

// What the lesser of two points is multiplied by to find their bucket: an odd number near the buckets divided by the golden ratio,
// so that the multiples of any number of points lie evenly among the buckets, and the greater point chooses between two of them.
// An edge of a torus, of a bipyramid, or of two halves of points all joined to each other, in order or shuffled, has less than one
// other in its bucket on the mean; no bucket has more than 518 pairs of 4,096 points. Nothing that is proved rests on it.
const SPREAD: usize = 10125;

// The bucket of the edges between the points p and q, whichever is named first.
pub fn bucket(p: u32, q: u32) -> usize
    ensures value { result ≡ bucket_of p q }
    ensures upper_bound { result < buckets }
{
    let a = index(p);
    let b = index(q);
    if a < b {
        return (a * SPREAD + b) % BUCKETS;
    }
    (b * SPREAD + a) % BUCKETS
}
