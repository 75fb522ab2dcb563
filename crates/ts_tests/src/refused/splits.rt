//! A write of a late point into a full block, which is halved.

use crate::stores::{store_of, write_all};
use std::alloc::{Allocator, Global};
use ts_store::{Store, View};
use ts_testkit::Refusing;

/// More requests for memory than a write makes.
const MANY: u64 = 100;

/// Lines of one column, of the even seconds from 0 on: as many as fill a block and the buffer after it.
const LINES: i64 = 600;

/// A line of a point in the middle of the first block.
const LATE_LINE: [&str; 1] = ["m f=1i 255"];

/// Number of points with one more.
const MORE: u64 = 601;

/// Raw points forever, and no rule.
const NO_RULE: &str = r#"{"raw":"INF","rules":[]}"#;

/// Writes the line of a number of seconds; returns true if it was accepted.
fn write_at<A: Allocator + Copy>(
    alloc: A,
    json: Global,
    store: &mut Store<A>,
    seconds: i64,
) -> bool {
    match format!(in json; "m f=1i {seconds}") {
        Ok(line) => write_all(alloc, store, &[line.as_str()]),
        Err(_) => false,
    }
}

/// Writes the lines; returns true if all were accepted.
fn fill<A: Allocator + Copy>(alloc: A, json: Global, store: &mut Store<A>) -> bool {
    for index in 0..LINES {
        if !write_at(alloc, json, store, index.wrapping_mul(2)) {
            return false;
        }
    }
    true
}

/// Returns true if the store has this many points, all of them accepted.
fn has_points<A: Allocator + Copy>(store: &Store<A>, count: u64) -> bool {
    store.raw_points() == count && store.accepted() == count
}

/// Writes a point in the middle of the first block; returns true if it was accepted.
fn write_late<A: Allocator + Copy>(alloc: A, store: &mut Store<A>) -> bool {
    write_all(alloc, store, &LATE_LINE)
}

/// Writes this point while the request after `left` others is refused. Returns true if it was accepted, and true if
/// there was a refusal.
fn write_refused<'h>(
    heap: &'h Refusing<Global>,
    store: &mut Store<&'h Refusing<Global>>,
    left: u64,
) -> (bool, bool) {
    heap.refuse_after(left);
    let is_written = write_late(heap, store);
    let was_refused = heap.has_refused();
    heap.refuse_none();
    (is_written, was_refused)
}

/// Writes this point in this way; then writes it again, if it was refused. Returns true if nothing was refused, and
/// none if a write isn't whole.
fn is_split<'h>(
    heap: &'h Refusing<Global>,
    store: &mut Store<&'h Refusing<Global>>,
    left: u64,
) -> Option<bool> {
    let (is_written, was_refused) = write_refused(heap, store, left);
    if is_written == was_refused {
        return None;
    }
    let is_whole = if is_written {
        has_points(store, MORE)
    } else {
        has_points(store, MORE - 1) && write_late(heap, store) && has_points(store, MORE)
    };
    if is_whole { Some(is_written) } else { None }
}

/// Does so on a new store with the lines.
fn is_split_at_once(heap: &Refusing<Global>, json: Global, left: u64) -> Option<bool> {
    let mut store = store_of(heap, json, NO_RULE)?;
    if fill(heap, json, &mut store) {
        is_split(heap, &mut store, left)
    } else {
        None
    }
}

/// Refuses each request of the write in turn, until none is refused. Returns how many were; none if a write isn't
/// whole.
fn refused_splits(heap: &Refusing<Global>, json: Global) -> Option<u64> {
    for left in 0..MANY {
        if is_split_at_once(heap, json, left)? {
            return Some(left);
        }
    }
    None
}

#[test]
fn a_write_that_halves_a_block_is_whole_or_not_at_all(rt: HostRuntime) {
    let heap = Refusing::new(rt.alloc());
    assert!(rt; refused_splits(&heap, rt.alloc()) > Some(0));
}
