//! Index of the cells of a bucket: maps rollup series to positions in `Row::parts`, with 8 bytes per cell.
ghost use Rattle.std.specs.Prelude.{◌≡◌, ◌≤◌, ◌<◌, ◌+◌, ℕ, ◌==◌, [], length, max, OnOk, OnErr, if◌then◌else◌, MatchResult};
ghost use Rattle.std.specs.declared.cmp.Ordering.{Ordering};
ghost use Rattle.std.specs.Ordering.{nat_cmp};
ghost use Rattle.std.specs.List.{HoldsAt};
ghost use Rattle.std.specs.List.Sorted.{IsPartitionPoint, IsSearchInRange};
ghost use Rattle.ts_cells.specs.Rows.{AreSortedSlots, no_slot, slot_of, slots_width};

use std::alloc::{AllocError, Allocator};
use std::marker::Model;
use ts_core::reserve_eighth;

/// Marks a rollup series without a cell.
pub(crate) const NO_SLOT: u32 = u32::MAX;

/// Rollup series with the positions of their cells, sorted by rollup series. Takes 8 bytes per cell, however far apart
/// the rollup series are. A removed cell leaves its entry with `NO_SLOT`.
#[derive(Drop)]
pub(crate) struct SlotMap<A: Allocator> {
    slots: Vec<(u32, u32), A>,
}

impl<A: Allocator> Model for SlotMap<A> {
    ghost use Rattle.std.specs.Prelude.{List, ℕ};
    ghost use Rattle.std.specs.Coded.{coded_list, coded×, coded_ℕ};
    ghost use Rattle.ts_cells.specs.Rows.{AreSortedSlots};

    ghost Value = { List (ℕ × ℕ) };

    ghost coded = { coded_list (coded× coded_ℕ coded_ℕ) };

    ghost view = { λ p. p.slots.items };

    ghost invariant = { λ p. AreSortedSlots p.slots.items };
}

/// Finds a rollup series by binary search. Returns `Ok` with its index, or `Err` with the index to insert it at.
#[cold]
fn search(slots: &[(u32, u32)], series: u32) -> Result<usize, usize>
    requires { AreSortedSlots slots.now }
    ensures bound { IsSearchInRange result (length slots.now) }
    ensures slot { MatchResult result (HoldsAt (λ e. nat_cmp e.0 series ≡ Ordering.Equal) slots.now)
        (IsPartitionPoint (λ e. nat_cmp e.0 series ≡ Ordering.Less)
        (λ e. nat_cmp e.0 series ≡ Ordering.Greater) slots.now) }
{
    slots.binary_search_by(|entry| entry.0.cmp(&series))
}

/// Searches the same way, but tries the end first: cells mostly arrive in the order of their rollup series.
fn find_from_end(slots: &[(u32, u32)], series: u32) -> Result<usize, usize>
    requires { AreSortedSlots slots.now }
    ensures bound { IsSearchInRange result (length slots.now) }
    ensures slot { MatchResult result (HoldsAt (λ e. nat_cmp e.0 series ≡ Ordering.Equal) slots.now)
        (IsPartitionPoint (λ e. nat_cmp e.0 series ≡ Ordering.Less)
        (λ e. nat_cmp e.0 series ≡ Ordering.Greater) slots.now) }
{
    match slots.last() {
        Some(last) if last.0 >= series => search(slots, series),
        _ => Err(slots.len()),
    }
}

/// Searches the same way, but first tries the index at which it is if no rollup series before it lacks an entry.
fn find(slots: &[(u32, u32)], series: u32) -> Result<usize, usize>
    requires { AreSortedSlots slots.now }
    ensures bound { IsSearchInRange result (length slots.now) }
    ensures slot { MatchResult result (HoldsAt (λ e. nat_cmp e.0 series ≡ Ordering.Equal) slots.now)
        (IsPartitionPoint (λ e. nat_cmp e.0 series ≡ Ordering.Less)
        (λ e. nat_cmp e.0 series ≡ Ordering.Greater) slots.now) }
{
    let at = series as usize;
    match slots.get(at) {
        Some(entry) if entry.0 == series => Ok(at),
        _ => find_from_end(slots, series),
    }
}

impl<A: Allocator> SlotMap<A> {
    /// Creates an empty index. Does not allocate.
    pub(crate) fn new(alloc: A) -> SlotMap<A>
        ensures { result ≡ [] }
    {
        SlotMap {
            slots: Vec::new(alloc),
        }
    }

    /// Returns the position of a rollup series' cell, or `NO_SLOT` if it has none.
    pub(crate) fn get(&self, series: u32) -> u32
        ensures { result ≡ slot_of self.now series }
    {
        match find(self.slots.as_slice(), series) {
            Ok(at) => self.slots[at].1,
            Err(_) => NO_SLOT,
        }
    }

    /// Sets the position of a rollup series' cell. On allocation failure, all positions stay.
    pub(crate) fn insert(&mut self, series: u32, slot: u32) -> Result<(), AllocError>
        ensures ok { OnOk result ((j : ℕ) → slot_of self.new j ≡ (if j == series then slot else slot_of self.old j)) }
        ensures err { OnErr result (self.new ≡ self.old) }
        ensures len { slots_width self.new ≤ max (slots_width self.old) (series + 1) }
    {
        match find(self.slots.as_slice(), series) {
            Ok(at) => self.slots[at].1 = slot,
            Err(at) => {
                reserve_eighth(&mut self.slots, 1)?;
                self.slots.insert(at, (series, slot))?;
            }
        }
        Ok(())
    }

    /// Removes the position of a rollup series' cell. Does not free memory.
    pub(crate) fn remove(&mut self, series: u32)
        ensures slots { (j : ℕ) → slot_of self.new j ≡ (if j == series then no_slot else slot_of self.old j) }
        ensures len { slots_width self.new ≤ slots_width self.old }
    {
        if let Ok(at) = find(self.slots.as_slice(), series) {
            self.slots[at].1 = NO_SLOT;
        }
    }

    /// Releases unused capacity.
    pub(crate) fn shrink(&mut self)
        ensures { self.new ≡ self.old }
    {
        self.slots.shrink_to_fit();
    }
}
