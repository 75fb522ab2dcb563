//! Folds a list of points into an aggregate.
ghost use Rattle.std.specs.Prelude.{◌≡◌, ◌^◌, ◌≤◌, length};
ghost use Rattle.ts_core.specs.aggregates.Partials.{fold_by};
ghost use Rattle.ts_core.specs.aggregates.Aggregates.{aggregate_of_points, IsAggregateOfPoints};

use crate::aggregates::{Agg, Partial};
use crate::facts::Time;

/// Merges points, in any order, into a partial aggregate.
pub fn fold_points<P: Partial>(points: &[(Time, i64)]) -> P
    requires { length points.now ≤ 2 ^ 62 }
    ensures { result ≡ fold_by P.nil P.join (λ p. P.one p.0 p.1) points.now }
{
    let mut total = P::empty();
    for point in points {
        total = total.merge(P::single(point.0, point.1));
    }
    total
}

/// Returns the aggregate of points in any order.
pub fn aggregate_points(points: &[(Time, i64)]) -> Agg
    requires { length points.now ≤ 2 ^ 62 }
    ensures fold { result ≡ aggregate_of_points points.now }
    ensures meaning { IsAggregateOfPoints points.now result }
{
    fold_points::<Agg>(points)
}
