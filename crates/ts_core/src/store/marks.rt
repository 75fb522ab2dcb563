//! The raw mark, and the low index of each rule.
ghost use Rattle.std.specs.Prelude.{◌++◌, ◌∷◌, [], OnOk, OnErr, ◌≡◌, ◌↔◌, ◌≤◌, ◌≤ℤ◌, ◌^◌, pos, unsigned_abs, IsTrue, IfOk, length, ◌<◌};
ghost use Rattle.std.specs.Int.{int_max};
ghost use Rattle.std.specs.List.{AllByRecursion, remove};
ghost use Rattle.ts_core.specs.store.History.{kept_since};
ghost use Rattle.ts_core.specs.moves.StoreMoves.{raised};
ghost use Rattle.ts_core.specs.facts.Times.{greatest_time};

use crate::aggregates::index_of;
use crate::facts::Time;
use crate::settings::{Rule, Settings};
use std::alloc::{AllocError, Allocator};
use std::marker::Model;

/// Raw mark, from which a store has all its raw points. For each rule, in the order of the settings, its low index: the
/// index of its first complete bucket.
#[derive(Drop)]
pub struct Marks<A: Allocator> {
    raw: Time,
    lows: Vec<i128, A>,
}

impl<A: Allocator> Model for Marks<A> {
    ghost use Rattle.ts_core.specs.store.Marks.{Marks as MarksValue};

    ghost Value = { MarksValue };

    ghost view = { λ m. record { raw = m.raw; lows = m.lows.items } };
}

/// Returns the time from which a duration keeps points, at a moment. Both are in nanoseconds; a duration of 0 keeps
/// all.
fn kept_since(duration: u64, now: Time) -> i128
    ensures value { result ≡ kept_since duration now }
    ensures not_after { result ≤ℤ greatest_time }
    ensures near { unsigned_abs result ≤ 2 ^ 65 }
{
    if duration == 0 {
        i128::from(Time::least().nanos())
    } else {
        i128::from(now.nanos()) - i128::from(duration)
    }
}

/// Returns the later of a mark and a number of nanoseconds that is not after all valid times.
fn max_mark(mark: Time, nanos: i128) -> Time
    requires { nanos ≤ℤ greatest_time }
    ensures { result ≡ int_max mark nanos }
{
    if nanos <= i128::from(mark.nanos()) {
        mark
    } else {
        Time::new(nanos as i64).unwrap_or(mark)
    }
}

/// Raises the low index of each rule to that of the first bucket that its duration keeps, at a moment.
fn raise_lows<A: Allocator>(rules: &[Rule<A>], lows: &mut [i128], now: Time)
    requires { AllByRecursion (λ r. pos 1 ≤ℤ r.interval) rules.now }
    ensures { lows.new ≡ raised now rules.now lows.old }
{
    for i in 0..rules.len().min(lows.len()) {
        let rule = &rules[i];
        let kept = index_of(rule, kept_since(rule.duration(), now));
        lows[i] = lows[i].max(kept);
    }
}

impl<A: Allocator> Marks<A> {
    /// Creates marks.
    pub fn new(raw: Time, lows: Vec<i128, A>) -> Marks<A>
        ensures { result ≡ record { raw = raw; lows = lows.items } }
    {
        Marks { raw, lows }
    }

    /// Returns the raw mark.
    pub fn raw(&self) -> Time
        ensures { result ≡ self.now.raw }
    {
        self.raw
    }

    /// Returns the low index of each rule.
    pub fn lows(&self) -> &[i128]
        ensures { result.now ≡ self.now.lows }
    {
        self.lows.as_slice()
    }

    /// Returns true if both marks are the same.
    pub fn equals(&self, other: &Marks<A>) -> bool
        ensures { IsTrue result ↔ (self.now ≡ other.now) }
    {
        self.raw() == other.raw() && self.lows() == other.lows()
    }

    /// Appends the low index of one more rule.
    pub fn push(&mut self, low: i128) -> Result<(), AllocError>
        ensures ok { OnOk result (self.new ≡ record { raw = self.old.raw; lows = self.old.lows ++ low ∷ [] }) }
        ensures err { OnErr result (self.new ≡ self.old) }
    {
        self.lows.push(low)?;
        Ok(())
    }

    /// Removes the low index at an index; each later one moves down by one. Does not allocate.
    pub fn remove(&mut self, index: usize)
        requires { index < length self.old.lows }
        ensures { self.new ≡ record { raw = self.old.raw; lows = remove self.old.lows index } }
    {
        let _ = self.lows.remove(index);
    }

    /// Raises each mark to the first time that the settings still keep at a moment; no mark is lowered. Does not
    /// allocate.
    pub fn raise(&mut self, settings: &Settings<A>, now: Time)
        ensures { self.new ≡ record {
          raw = int_max self.old.raw (kept_since settings.now.raw_duration now);
          lows = raised now settings.now.rules self.old.lows;
        } }
    {
        self.raw = max_mark(self.raw, kept_since(settings.raw_duration(), now));
        raise_lows(settings.rules(), self.lows.as_mut_slice(), now);
    }
}

impl<A: Allocator + Copy> Marks<A> {
    /// Returns a copy of the marks.
    pub fn try_clone(&self, alloc: A) -> Result<Marks<A>, AllocError>
        ensures { IfOk result (λ m. m ≡ self.now) }
    {
        let mut lows = Vec::new(alloc);
        lows.extend_from_slice(self.lows.as_slice())?;
        Ok(Marks {
            raw: self.raw,
            lows,
        })
    }
}
