//! Buckets of time: index, start and bounds, by floor division, for negative times and offsets too.
ghost use Rattle.std.specs.Prelude.{◌≡◌, ◌+◌, ◌^◌, ◌≤◌, pos, ◌≤ℤ◌, ◌+ℤ◌, unsigned_abs};
ghost use Rattle.std.specs.Int.{int_div_euclid};
ghost use Rattle.ts_core.specs.aggregates.Buckets.{IsBucketOf, bucket_of, bucket_start};
ghost use Rattle.ts_core.specs.aggregates.Edges.{IsEdgeAt};
ghost use Rattle.ts_core.specs.store.Marks.{index_of, first_from};

use crate::facts::Time;
use crate::settings::Rule;
use std::alloc::Allocator;

/// Divides, rounding down. Divides in 64 bits if possible, since a division in 128 bits takes several times as long.
fn floor_quotient(past: i128, interval: i64) -> i128
    requires { pos 1 ≤ℤ interval }
    ensures { result ≡ int_div_euclid past interval }
{
    match i64::try_from(past) {
        Ok(past) => i128::from(past.div_euclid(interval)),
        Err(_) => past.div_euclid(i128::from(interval)),
    }
}

/// Buckets of time of equal length. Their interval and their offset from the Unix epoch are in nanoseconds.
#[derive(Clone, Copy, Debug, PartialEq, Eq)]
pub struct Buckets {
    /// Length of a bucket.
    pub interval: i64,
    /// Start of the bucket with index 0.
    pub offset: i64,
}

/// Bucket with its bounds, in nanoseconds of the Unix epoch.
#[derive(Clone, Copy, Debug, PartialEq, Eq)]
pub struct Bucket {
    /// Index of the bucket.
    pub index: i128,
    /// Start, inclusive.
    pub start: i128,
    /// End, exclusive: the start of the next bucket.
    pub end: i128,
}

impl Buckets {
    /// Returns the index of the bucket that contains a time.
    pub fn index(self, time: i128) -> i128
        requires interval { pos 1 ≤ℤ self.interval }
        requires bound { unsigned_abs time ≤ 2 ^ 126 }
        ensures bucket { IsBucketOf time self.interval self.offset result }
        ensures index { result ≡ bucket_of time self.interval self.offset }
        ensures near { unsigned_abs result ≤ unsigned_abs time + 2 ^ 64 }
    {
        floor_quotient(time - i128::from(self.offset), self.interval)
    }

    /// Returns the start of the bucket with this index.
    pub fn start(self, index: i128) -> i128
        requires { unsigned_abs (bucket_start index self.interval self.offset) ≤ 2 ^ 126 }
        ensures { result ≡ bucket_start index self.interval self.offset }
    {
        index * i128::from(self.interval) + i128::from(self.offset)
    }

    /// Returns the bucket that contains a time.
    pub fn bucket(self, time: i128) -> Bucket
        requires interval { pos 1 ≤ℤ self.interval }
        requires bound { unsigned_abs time ≤ 2 ^ 64 }
        ensures index { result.index ≡ bucket_of time self.interval self.offset }
        ensures near { unsigned_abs result.index ≤ unsigned_abs time + 2 ^ 64 }
        ensures start { result.start
            ≡ bucket_start (bucket_of time self.interval self.offset) self.interval self.offset }
        ensures end { result.end
            ≡ bucket_start (bucket_of time self.interval self.offset +ℤ pos 1) self.interval self.offset }
    {
        let index = self.index(time);
        let start = self.start(index);
        Bucket {
            index,
            start,
            end: start + i128::from(self.interval),
        }
    }

    /// Returns the start of a bucket and the start of the next one. A bound that doesn't fit an `i128` is clamped,
    /// which leaves the same valid times before it.
    pub fn edges(self, index: i128) -> (i128, i128)
        requires { pos 1 ≤ℤ self.interval }
        ensures start { IsEdgeAt (bucket_start index self.interval self.offset) result.0 }
        ensures end { IsEdgeAt (bucket_start (index +ℤ pos 1) self.interval self.offset) result.1 }
    {
        let width = i128::from(self.interval);
        let start = index
            .saturating_mul(width)
            .saturating_add(i128::from(self.offset));
        (start, start.saturating_add(width))
    }
}

/// Returns the index of the bucket that contains a time, among those of this interval and offset.
pub fn bucket_index(time: i128, interval: i64, offset: i64) -> i128
    requires interval { pos 1 ≤ℤ interval }
    requires bound { unsigned_abs time ≤ 2 ^ 126 }
    ensures bucket { IsBucketOf time interval offset result }
    ensures index { result ≡ bucket_of time interval offset }
    ensures near { unsigned_abs result ≤ unsigned_abs time + 2 ^ 64 }
{
    Buckets { interval, offset }.index(time)
}

/// Returns the index of the rule's bucket that contains a time.
pub fn index_of<A: Allocator>(rule: &Rule<A>, time: i128) -> i128
    requires interval { pos 1 ≤ℤ rule.now.interval }
    requires bound { unsigned_abs time ≤ 2 ^ 126 }
    ensures index { result ≡ index_of rule.now time }
    ensures near { unsigned_abs result ≤ unsigned_abs time + 2 ^ 64 }
{
    rule.buckets().index(time)
}

/// Returns the index of the rule's first bucket that starts at or above a time.
pub fn first_index<A: Allocator>(rule: &Rule<A>, from: Time) -> i128
    requires { pos 1 ≤ℤ rule.now.interval }
    ensures { result ≡ first_from rule.now from }
{
    index_of(rule, i128::from(from.nanos()) - 1) + 1
}
