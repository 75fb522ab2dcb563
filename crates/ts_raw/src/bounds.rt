//! Bounds of a bucket in 64 bits.
ghost use Rattle.std.specs.Prelude.{◌≡◌, ◌≤ℤ◌, pos, ℤ, List, filter};
ghost use Rattle.std.specs.Ordering.{int_eq};
ghost use Rattle.ts_core.specs.aggregates.Buckets.{bucket_of};
ghost use Rattle.ts_core.specs.aggregates.Edges.{IsEdgeAt};
ghost use Rattle.ts_core.specs.facts.Facts.{is_within};
ghost use Rattle.ts_raw.specs.Columns.{AreTimed};

use ts_core::Buckets;

/// Returns a bucket's bound in 64 bits: the same valid times are before it.
fn near(edge: &i128) -> i64
    ensures { (moment : ℤ) → IsEdgeAt moment edge.now → IsEdgeAt moment result }
{
    if *edge < i128::from(i64::MIN) {
        i64::MIN
    } else if *edge > i128::from(i64::MAX) {
        i64::MAX
    } else {
        *edge as i64
    }
}

/// Returns the bounds of a bucket in 64 bits: the valid times from the first, inclusive, to the second, exclusive, are
/// those in it.
pub(crate) fn bounds_of(index: &i128, interval: i64, offset: i64) -> (i64, i64)
    requires { pos 1 ≤ℤ interval }
    ensures { (points : List (ℤ × ℤ)) → AreTimed points → filter (λ p. is_within result.0 result.1 p.0) points
        ≡ filter (λ p. int_eq (bucket_of p.0 interval offset) index.now) points }
{
    let (first, next) = Buckets { interval, offset }.edges(*index);
    (near(&first), near(&next))
}
