//! Mean of an aggregate, as an exact fraction.
ghost use Rattle.std.specs.Prelude.{◌≡◌, ◌↔◌, ◌^◌, ◌<◌, IsNone, IfSome, unsigned_abs};
ghost use Rattle.std.specs.Int.{IsGcd};
ghost use Rattle.ts_core.specs.aggregates.Means.{IsMean, signed_as_of};
ghost use Rattle.ts_core.specs.aggregates.Ratios.{mean_of};

use crate::aggregates::{Agg, Partial};

/// A fraction.
#[derive(Clone, Copy, Debug, PartialEq, Eq)]
pub struct Frac {
    /// Numerator, which has the sign of the fraction.
    pub numerator: i128,
    /// Denominator, at least 1 in a mean.
    pub denominator: u64,
}

fn greatest_common_divisor(a: u128, b: u128) -> u128
    ensures greatest { IsGcd a b result }
    ensures positive { 0 < b → 0 < result }
{
    let mut x = a;
    let mut y = b;
    while y != 0 {
        let rest = x % y;
        x = y;
        y = rest;
    }
    x
}

fn signed_as(sum: i128, magnitude: u128) -> i128
    requires { magnitude < 2 ^ 126 }
    ensures { result ≡ signed_as_of sum magnitude }
{
    if sum < 0 {
        -(magnitude as i128)
    } else {
        magnitude as i128
    }
}

fn lowest_terms(sum: i128, count: u64) -> Frac
    requires some { 0 < count }
    requires small { unsigned_abs sum < 2 ^ 126 }
    ensures { IsMean count sum result.numerator result.denominator }
{
    let magnitude = sum.unsigned_abs();
    let divisor = greatest_common_divisor(magnitude, u128::from(count));
    Frac {
        numerator: signed_as(sum, magnitude / divisor),
        denominator: (u128::from(count) / divisor) as u64,
    }
}

/// Returns the mean of the values in lowest terms, or `None` without points.
pub fn mean(a: &Agg) -> Option<Frac>
    ensures none { IsNone result ↔ (a.now.count ≡ 0) }
    ensures value { IfSome result (λ f. IsMean a.now.count a.now.sum f.numerator f.denominator) }
    ensures ratio { IfSome result (λ f. f ≡ mean_of a.now) }
{
    if a.count() == 0 {
        None
    } else {
        Some(lowest_terms(a.sum(), a.count()))
    }
}
