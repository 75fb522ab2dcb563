//! Aggregates with counts at their limit.
ghost use Rattle.std.specs.Prelude.{◌≡◌, ◌↔◌, ◌<◌, ◌+◌, ◌^◌, IfSome, IsNone};
ghost use Rattle.ts_core.specs.aggregates.Aggregates.{merged};

use ts_core::{Agg, MAX_COUNT, Partial, Time};

/// Returns the merged aggregate of both, if they have at most 2^62 points together.
pub fn merged(a: Agg, b: Agg) -> Option<Agg>
    ensures sum { IfSome result (λ m. m ≡ merged a b) }
    ensures none { IsNone result ↔ (2 ^ 62 < a.count + b.count) }
{
    if a.count() + b.count() > MAX_COUNT {
        return None;
    }
    Some(a.merge(b))
}

/// Returns the aggregate of 2^62 - 1 points of value 1 at this time.
pub fn all_but_one(time: Time) -> Option<Agg>
    ensures { IfSome result (λ a. a.count + 1 ≡ 2 ^ 62) }
{
    let one = Agg::single(time, 1);
    let mut total = Agg::empty();
    for _ in 0..62usize {
        total = merged(merged(total, total)?, one)?;
    }
    Some(total)
}
