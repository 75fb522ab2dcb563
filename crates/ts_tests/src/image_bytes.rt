//! Images with one byte changed, and images that end early.

use crate::images::{FIELDS, IMAGE_LEN, loaded, saved, worked_image};
use crate::stores::{at_second, count_plan, retain, write};
use std::alloc::Global;
use std::test::Fail;
use ts_check::Checked;
use ts_core::Time;
use ts_exec::{count_points, execute};
use ts_image::LoadFault;
use ts_store::Store;

/// A line that is after the marks of most images.
const LINE: &str = "cpu,host=a v=4i 300";

/// Begins a run of retention unless one is in progress, and ends it step by step. Returns true if it ends.
fn ends_run(store: &mut Store<Global>, now: Time) -> bool {
    let _begun = store.begin(now).is_ok();
    // more steps than a run of so few columns and cells has
    for _ in 0..20 {
        let _answer = store.step();
    }
    !store.run_in_progress()
}

/// Writes a line, ends a run of retention, and runs it once more. Returns true if all calls succeeded.
fn answers_writes(alloc: Global, store: &mut Store<Global>, begin_at: Time, end_at: Time) -> bool {
    write(alloc, store, LINE).is_ok() && ends_run(store, begin_at) && retain(store, end_at)
}

/// Returns true if a plan is executed, and its points are counted.
fn is_executed(alloc: Global, store: &Store<Global>, plan: &Checked<Global>) -> bool {
    count_points(store, plan).is_ok() && execute(alloc, store, plan).is_ok()
}

/// Returns true if the count of the first two minutes has no plan, or its plan is executed.
fn answers_count(alloc: Global, store: &Store<Global>) -> bool {
    match count_plan(alloc, store, 120, None) {
        Some(plan) => is_executed(alloc, store, &plan),
        None => true,
    }
}

/// Calls each kind of function of a store. Returns true if its results agree.
fn answers_calls(alloc: Global, store: &mut Store<Global>) -> bool {
    let (Some(begin_at), Some(end_at)) = (at_second(400), at_second(500)) else {
        return false;
    };
    answers_writes(alloc, store, begin_at, end_at)
        && answers_count(alloc, store)
        && store.raw_points() <= store.held_points()
        && saved(alloc, alloc, store).is_some()
}

/// Returns true if bytes have a fault of images, or are the image of a store that answers calls.
fn is_fault_or_store(alloc: Global, bytes: &[u8]) -> bool {
    match loaded(alloc, bytes) {
        Ok(store) => {
            let mut store = store;
            answers_calls(alloc, &mut store)
        }
        Err(LoadFault::Device | LoadFault::TooManyReads | LoadFault::OutOfMemory) => false,
        Err(_) => true,
    }
}

/// Adds 1 to a byte.
fn change(bytes: &mut [u8], at: usize) {
    if let Some(byte) = bytes.get_mut(at) {
        *byte = byte.wrapping_add(1);
    }
}

/// Returns true if each other value of a byte gives a fault or a store. Restores the byte.
fn holds_at(alloc: Global, bytes: &mut [u8], at: usize) -> bool {
    for _ in 0..255 {
        change(bytes, at);
        if !is_fault_or_store(alloc, bytes) {
            return false;
        }
    }
    change(bytes, at);
    true
}

/// Returns the offset of the first byte with a value that gives neither a fault nor a store. Tests the bytes from one
/// offset, inclusive, to another, exclusive, and returns the latter if all are right.
fn first_wrong(alloc: Global, image: &mut [u8], from: usize, to: usize) -> usize {
    for at in from..to {
        if !holds_at(alloc, image, at) {
            return at;
        }
    }
    to
}

/// Returns the same of the image of the worked store.
fn first_wrong_of(alloc: Global, from: usize, to: usize) -> Option<usize> {
    let mut image = worked_image(alloc)?;
    Some(first_wrong(alloc, &mut image, from, to))
}

#[test]
fn bytes_of_settings_are_changed(rt: HostRuntime) {
    assert_eq!(rt; first_wrong_of(rt.alloc(), 0, 101), Some(101));
}

#[test]
fn bytes_of_series_are_changed(rt: HostRuntime) {
    assert_eq!(rt; first_wrong_of(rt.alloc(), 101, 235), Some(235));
}

#[test]
fn bytes_of_the_first_cell_are_changed(rt: HostRuntime) {
    assert_eq!(rt; first_wrong_of(rt.alloc(), 235, 341), Some(341));
}

#[test]
fn bytes_of_the_second_cell_are_changed(rt: HostRuntime) {
    assert_eq!(rt; first_wrong_of(rt.alloc(), 341, 439), Some(439));
}

#[test]
fn bytes_of_the_third_cell_are_changed(rt: HostRuntime) {
    assert_eq!(rt; first_wrong_of(rt.alloc(), 439, IMAGE_LEN), Some(IMAGE_LEN));
}

/// Returns true if the fault of bytes is that of an input that ends in the field at this offset.
fn ends_in_field(alloc: Global, bytes: &[u8], start: usize) -> bool {
    match loaded(alloc, bytes) {
        Err(LoadFault::NotAnImage) => start == 0,
        Err(LoadFault::Misshapen(at)) => start > 0 && at == start as u64,
        _ => false,
    }
}

/// Returns the first length at which an image that ends there doesn't have the fault of its last field, by the lengths
/// of its fields.
fn first_wrong_end(alloc: Global, image: &[u8]) -> Option<usize> {
    let mut start: usize = 0;
    for size in &FIELDS {
        for within in 0..*size {
            let end = start.saturating_add(within);
            if !ends_in_field(alloc, image.get(..end)?, start) {
                return Some(end);
            }
        }
        start = start.saturating_add(*size);
    }
    if start == image.len() {
        None
    } else {
        Some(start)
    }
}

/// Returns true if an image with one more byte has a fault after its last field.
fn ends_before(alloc: Global, image: Vec<u8>) -> bool {
    let mut image = image;
    image.push(0).is_ok() && ends_in_field(alloc, &image, IMAGE_LEN)
}

#[test]
fn an_image_ends_early(rt: HostRuntime) -> Result<(), Fail> {
    let image = worked_image(rt.alloc()).ok_or("no image")?;
    assert_eq!(rt; image.len(), IMAGE_LEN);
    assert_eq!(rt; first_wrong_end(rt.alloc(), &image), None);
    assert!(rt; ends_before(rt.alloc(), image));
    Ok(())
}
