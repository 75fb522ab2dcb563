//! The rollup series of a rule, indexed in creation order: a hash table by field and group, with a sorted list.
ghost use Rattle.std.specs.Prelude.{◌≡◌, ◌≤◌, ◌<◌, ◌^◌, ℕ, [], length, get_or, IsOk, IfSome, IfNone, IfOk, OnOk, OnErr, slice_get};
ghost use Rattle.std.specs.declared.cmp.Ordering.{Ordering};
ghost use Rattle.std.specs.List.Sorted.{IsPartitionPoint};
ghost use Rattle.ts_core.specs.lists.Members.{Among};
ghost use Rattle.ts_core.specs.lists.Numbered.{IsAt, Gains};
ghost use Rattle.ts_cells.specs.Grids.{rollup_series_named};
ghost use Rattle.ts_cells.specs.RollupSeriesTable.{found_cmp, IsOrdered, IsRanked, shifted};

use crate::rollup_series::{RollupSeries, hash_rollup_series};
use std::alloc::{AllocError, Allocator};
use std::cmp::Ordering;
use std::hash::RandomState;
use std::marker::Model;
use ts_core::{Chains, next_id, reserve_eighth};

/// Hash table of rollup series, indexed in creation order.
#[derive(Drop)]
pub(crate) struct RollupSeriesTable<A: Allocator> {
    rollup_series: Vec<RollupSeries<A>, A>,
    /// Hash chains over the rollup series.
    chains: Chains<A>,
    seed: RandomState,
    /// Indices of all rollup series, sorted by field and group. Iterators follow it.
    order: Vec<u32, A>,
    /// Position of each rollup series in `order`.
    ranks: Vec<u32, A>,
}

impl<A: Allocator> Model for RollupSeriesTable<A> {
    ghost use Rattle.std.specs.Prelude.{List};
    ghost use Rattle.std.specs.Coded.{coded_list};
    ghost use Rattle.ts_cells.specs.Grids.{RollupSeries as RollupSeriesValue, coded_rollup_series};
    ghost use Rattle.ts_cells.specs.RollupSeriesTable.{AreFound};

    ghost Value = { List RollupSeriesValue };

    ghost coded = { coded_list coded_rollup_series };

    ghost view = { λ s. s.rollup_series.items };

    ghost invariant = { λ s. AreFound s.seed s.rollup_series.items s.chains s.order.items s.ranks.items };
}

/// Compares the rollup series with this index with that of a field and a group. A missing rollup series comes first.
fn compare_at<A: Allocator + Copy>(
    rollup_series: &[RollupSeries<A>],
    number: u32,
    field: &str,
    group: &[&str],
) -> Ordering
    ensures { result ≡ found_cmp (slice_get rollup_series.now number) (rollup_series_named field.now group.now) }
{
    match rollup_series.get(number as usize) {
        Some(series) => series.compare(field, group),
        None => Ordering::Less,
    }
}

/// Finds the index in `order` at which to insert a new rollup series, by binary search.
fn index_in_order<A: Allocator + Copy>(
    rollup_series: &[RollupSeries<A>],
    order: &[u32],
    field: &str,
    group: &[&str],
) -> usize
    requires ordered { IsOrdered rollup_series.now order.now }
    requires absent { Among (rollup_series_named field.now group.now) rollup_series.now → ⊥ }
    ensures bound { result ≤ length order.now }
    ensures slot { IsPartitionPoint (λ n. found_cmp
        (slice_get rollup_series.now n) (rollup_series_named field.now group.now) ≡ Ordering.Less) (λ n. found_cmp
        (slice_get rollup_series.now n) (rollup_series_named field.now group.now) ≡ Ordering.Greater) order.now result }
{
    order.partition_point(|number| compare_at(rollup_series, *number, field, group).is_lt())
}

/// Adds one to those of the first `count` positions that are `at` or more. All are below `count`.
fn shift(ranks: &mut [u32], at: u32, count: usize)
    requires many { count ≤ length ranks.old }
    requires few { count < 2 ^ 32 }
    requires low { (j : ℕ) → j < count → get_or ranks.old j 0 < count }
    ensures len { length ranks.new ≡ length ranks.old }
    ensures ranks { (j : ℕ) → j < count → get_or ranks.new j 0 ≡ shifted at (get_or ranks.old j 0) }
    ensures others { (j : ℕ) → count ≤ j → get_or ranks.new j 0 ≡ get_or ranks.old j 0 }
{
    let mut done = if (at as usize) < count { 0 } else { count };
    while done < count {
        let rank = ranks[done];
        ranks[done] = if rank >= at { rank + 1 } else { rank };
        done += 1;
    }
}

impl<A: Allocator + Copy> RollupSeriesTable<A> {
    /// Creates an empty table, with a seed of the hashes. Does not allocate.
    pub(crate) fn new(alloc: A, seed: RandomState) -> RollupSeriesTable<A>
        ensures { result ≡ [] }
    {
        RollupSeriesTable {
            rollup_series: Vec::new(alloc),
            chains: Chains::new(alloc),
            seed,
            order: Vec::new(alloc),
            ranks: Vec::new(alloc),
        }
    }

    /// Returns the rollup series in creation order.
    pub(crate) fn as_slice(&self) -> &[RollupSeries<A>]
        ensures { result.now ≡ self.now }
    {
        self.rollup_series.as_slice()
    }

    /// Returns the indices of all rollup series, sorted by field and group, and the position of each rollup series
    /// among them.
    pub(crate) fn order(&self) -> (&[u32], &[u32])
        ensures ordered { IsOrdered self.now result.0.now }
        ensures ranked { IsRanked (length self.now) result.0.now result.1.now }
    {
        (self.order.as_slice(), self.ranks.as_slice())
    }

    /// Looks up the rollup series of a field and a group; returns its index.
    fn lookup(&self, field: &str, group: &[&str]) -> Option<u32>
        ensures found { IfSome result (λ n. IsAt self.now n (rollup_series_named field.now group.now)) }
        ensures absent { IfNone result (Among (rollup_series_named field.now group.now) self.now → ⊥) }
    {
        let hash = hash_rollup_series(&self.seed, field, group);
        self.chains.find(
            hash,
            |at| self.rollup_series[at as usize].matches(field, group),
        )
    }

    /// Returns the index of the rollup series of a field and a group, creating the rollup series if needed. Doesn't
    /// fail if it exists.
    pub(crate) fn register(&mut self, field: &str, group: &[&str]) -> Result<u32, AllocError>
        ensures number { IfOk result (λ n. IsAt self.new n (rollup_series_named field.now group.now)) }
        ensures ok { OnOk result (Gains self.old self.new (rollup_series_named field.now group.now)) }
        ensures err { OnErr result (self.new ≡ self.old) }
        ensures known { Among (rollup_series_named field.now group.now) self.old → IsOk result }
    {
        if let Some(number) = self.lookup(field, group) {
            return Ok(number);
        }
        let number = next_id(self.rollup_series.len())?;
        let series = RollupSeries::new(*self.rollup_series.allocator(), field, group)?;
        reserve_eighth(&mut self.rollup_series, 1)?;
        reserve_eighth(&mut self.order, 1)?;
        reserve_eighth(&mut self.ranks, 1)?;
        let at = index_in_order(
            self.rollup_series.as_slice(),
            self.order.as_slice(),
            field,
            group,
        );
        self.chains
            .push(hash_rollup_series(&self.seed, field, group))?;
        self.rollup_series.push(series).unwrap();
        self.order.insert(at, number).unwrap();
        self.ranks.push(at as u32).unwrap();
        shift(self.ranks.as_mut_slice(), at as u32, number as usize);
        Ok(number)
    }
}
