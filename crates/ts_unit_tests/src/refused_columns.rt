//! Points in columns with coded blocks: a point after the others, the first of a new block, and one in the middle of a
//! full block.

use crate::columns::{put, put_at};
use std::alloc::Allocator;
use ts_core::Time;
use ts_raw::{BlockColumn, Column, StoredColumn};
use ts_testkit::Refusing;

/// More requests for memory than a point makes.
const MANY: u64 = 100;

/// Number of points of a full block.
const FULL: usize = 256;

/// Inserts points of the even times from 0 on, this many; returns true if there was memory.
fn put_evens<C: Column>(column: &mut C, count: usize) -> bool {
    let mut time: i64 = 0;
    for _ in 0..count {
        if !put_at(column, time, 1) {
            return false;
        }
        time = time.saturating_add(2);
    }
    true
}

/// Returns true if the column has this many points, all with the value 1.
fn has_points<C: Column>(column: &C, count: usize) -> bool {
    let mut ones: usize = 0;
    for (_, value) in column.range(i64::MIN, i64::MAX) {
        if value == 1 {
            ones = ones.saturating_add(1);
        }
    }
    ones == count && column.live() == count
}

/// Stages a point while the request after `left` others is refused. Returns true if it was staged, and true if there
/// was a refusal.
fn stage<B: Allocator, C: Column>(
    heap: &Refusing<B>,
    column: &mut C,
    time: Time,
    left: u64,
) -> (bool, bool) {
    heap.refuse_after(left);
    let is_staged = column.prepare(time, 1).is_ok();
    let was_refused = heap.has_refused();
    heap.refuse_none();
    (is_staged, was_refused)
}

/// Stages a point while the request after `left` others is refused, and then inserts it with memory. Returns true if
/// no request was refused. Returns none if it was staged in spite of a refused request or not staged without one, or if
/// the points before or after it are wrong.
fn is_put_at_once<B: Allocator, C: Column>(
    heap: &Refusing<B>,
    column: &mut C,
    time: Time,
    left: u64,
) -> Option<bool> {
    let count = column.live();
    let (is_staged, was_refused) = stage(heap, column, time, left);
    if is_staged == was_refused || !has_points(column, count) || !put(column, time, 1) {
        return None;
    }
    if has_points(column, count.saturating_add(1)) {
        Some(is_staged)
    } else {
        None
    }
}

/// Inserts a point into a column of points of even times, this many. Returns as `is_put_at_once` does.
fn is_added_at_once<B: Allocator, C: Column>(
    heap: &Refusing<B>,
    column: &mut C,
    count: usize,
    time: Time,
    left: u64,
) -> Option<bool> {
    if put_evens(column, count) {
        is_put_at_once(heap, column, time, left)
    } else {
        None
    }
}

/// Returns the same for a new column of coded blocks.
fn is_coded_at_once<B: Allocator>(
    heap: &Refusing<B>,
    count: usize,
    time: Time,
    left: u64,
) -> Option<bool> {
    let mut column = BlockColumn::new(heap);
    is_added_at_once(heap, &mut column, count, time, left)
}

/// Refuses each request of a new point of a coded column in turn, until none is refused. Returns how many were.
fn refused_coded<B: Allocator>(heap: &Refusing<B>, count: usize, time: i64) -> Option<u64> {
    let time = Time::new(time)?;
    for left in 0..MANY {
        if is_coded_at_once(heap, count, time, left)? {
            return Some(left);
        }
    }
    None
}

#[test]
fn a_point_of_a_coded_column_is_whole_or_not_at_all(rt: HostRuntime) {
    let heap = Refusing::new(rt.alloc());
    // in the middle of a full block, which is halved
    let halved = refused_coded(&heap, 301, 255);
    assert!(rt; halved > Some(0));
    // after the others
    assert!(rt; refused_coded(&heap, 301, 1_000).is_some());
}

/// Returns as `is_put_at_once` does, for a new column of a store.
fn is_stored_at_once<B: Allocator>(
    heap: &Refusing<B>,
    count: usize,
    time: Time,
    left: u64,
) -> Option<bool> {
    let mut column = StoredColumn::new(heap);
    is_added_at_once(heap, &mut column, count, time, left)
}

/// Refuses each request of a new point of a store's column in turn, until none is refused. Returns how many were.
fn refused_stored<B: Allocator>(heap: &Refusing<B>, count: usize, time: i64) -> Option<u64> {
    let time = Time::new(time)?;
    for left in 0..MANY {
        if is_stored_at_once(heap, count, time, left)? {
            return Some(left);
        }
    }
    None
}

#[test]
fn a_point_of_a_stored_column_is_whole_or_not_at_all(rt: HostRuntime) {
    let heap = Refusing::new(rt.alloc());
    // the first point: bytes and a handle
    assert!(rt; refused_stored(&heap, 0, 5_000) > Some(1));
    // after the others: a second block
    assert!(rt; refused_stored(&heap, FULL, 5_000).is_some());
    // in the middle of a full block, which is halved
    assert!(rt; refused_stored(&heap, FULL, 255) > Some(0));
    // in the middle of a short one
    assert!(rt; refused_stored(&heap, 20, 15) > Some(0));
}
