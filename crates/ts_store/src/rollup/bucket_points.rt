//! Points that are taken a bucket at a time.
ghost use Rattle.std.specs.Prelude.{◌≡◌, ℤ, pos, ◌≤ℤ◌, ◌<ℤ◌, [], MatchOption};
ghost use Rattle.ts_core.specs.store.Marks.{index_of};
ghost use Rattle.ts_store.specs.rollup.BucketsTaken.{TakesBucket};

use std::alloc::Allocator;
use ts_core::{Rule, Time};
use ts_raw::Run;

/// Number of points that are decoded at once.
pub(crate) const ROOM: usize = 64;

/// Returns the index of the rule's bucket that contains a time, and an end in nanoseconds: later times before it are in
/// that bucket too.
fn bucket_until<A: Allocator>(rule: &Rule<A>, time: Time) -> (i128, i64)
    requires { pos 1 ≤ℤ rule.now.interval }
    ensures index { result.0 ≡ index_of rule.now time }
    ensures after { time <ℤ result.1 }
    ensures same { (t : ℤ) → time ≤ℤ t → t <ℤ result.1 → index_of rule.now t ≡ index_of rule.now time }
{
    let bucket = rule.buckets().bucket(i128::from(time.nanos()));
    if bucket.end > i128::from(i64::MAX) {
        return (bucket.index, i64::MAX);
    }
    (bucket.index, bucket.end as i64)
}

/// Removes the first points of a run, which are in one bucket of a rule, and returns the bucket's index and them.
/// Returns `None` if no points are left.
pub(crate) fn take_bucket<'a, A: Allocator>(
    rule: &Rule<A>,
    run: &mut Run<'a>,
) -> Option<(i128, &'a [(Time, i64)])>
    requires { pos 1 ≤ℤ rule.now.interval }
    ensures { MatchOption result (run.old ≡ []) (λ b. TakesBucket rule.now b.0 b.1.now run.old run.new) }
{
    let (time, _) = run.first()?;
    let (index, end) = bucket_until(rule, *time);
    Some((index, run.take_within(time.nanos(), end)))
}
