//! Coded blocks: bytes with their points, and bytes that aren't a block with their fault.

use std::alloc::Global;
use ts_block::{BlockFault, Decoder, check, encode};
use ts_core::Time;

/// Blocks, and their points: times and values.
const BLOCKS: [(&[u8], &[(i64, i64)]); 3] = [
    (
        b"\x01\x00\x00\x00\x00\x00\x00\x00\x0a\x3b\x0a\x01",
        &[(10, 5), (70, -1)],
    ),
    (
        b"\x01\x00\x00\x00\x00\x00\x00\x00\x00\xab\x02\x00\x02",
        &[(0, 0), (300, 1)],
    ),
    (LEAST_BLOCK, &[(-9_223_372_036_854_775_806, i64::MIN)]),
];

/// The block of the least time and the least value.
const LEAST_BLOCK: &[u8] =
    b"\x00\x80\x00\x00\x00\x00\x00\x00\x02\xff\xff\xff\xff\xff\xff\xff\xff\xff\x01";

/// Bytes that aren't a block, and their fault.
const FAULTS: [(&[u8], BlockFault); 4] = [
    (
        b"\x00\x80\x00\x00\x00\x00\x00\x00\x01\x00",
        BlockFault::TimeRange,
    ),
    (
        b"\x01\x00\x00\x00\x00\x00\x00\x00\x00\x80\x00\x00\x00",
        BlockFault::LongNumber,
    ),
    (b"\x00\x00\x00\x00\x00\x00\x00\x00\x00", BlockFault::Short),
    (
        b"\x00\x00\x00\x00\x00\x00\x00\x00\x00\x00\x00",
        BlockFault::LeftOver,
    ),
];

/// Returns true if the bytes are the block of these points.
fn is_block_of(bytes: &[u8], points: &[(i64, i64)]) -> bool {
    if check(bytes).is_err() {
        return false;
    }
    let mut left = points;
    for (time, value) in Decoder::new(bytes) {
        let Some((first, rest)) = left.split_first() else {
            return false;
        };
        if *first != (time.nanos(), value) {
            return false;
        }
        left = rest;
    }
    left.is_empty()
}

/// Returns true if the fault of the bytes is this one.
fn has_fault(bytes: &[u8], fault: &BlockFault) -> bool {
    match check(bytes) {
        Ok(_) => false,
        Err(found) => found == *fault,
    }
}

/// Returns true if the block of one point has these bytes.
fn has_block(alloc: Global, time: Time, value: i64, bytes: &[u8]) -> bool {
    match encode(alloc, &[(time, value)]) {
        Ok(block) => block.as_slice() == bytes,
        Err(_) => false,
    }
}

/// Returns the index of the first block that has other points.
fn first_wrong_block() -> Option<usize> {
    for (at, (bytes, points)) in BLOCKS.iter().enumerate() {
        if !is_block_of(bytes, points) {
            return Some(at);
        }
    }
    None
}

#[test]
fn blocks_have_their_points(rt: HostRuntime) {
    assert_eq!(rt; first_wrong_block(), None);
}

/// Returns the index of the first bytes that have another fault.
fn first_wrong_fault() -> Option<usize> {
    for (at, (bytes, fault)) in FAULTS.iter().enumerate() {
        if !has_fault(bytes, fault) {
            return Some(at);
        }
    }
    None
}

#[test]
fn other_bytes_have_their_fault(rt: HostRuntime) {
    assert_eq!(rt; first_wrong_fault(), None);
}

#[test]
fn a_point_has_its_block(rt: HostRuntime) {
    assert!(rt; has_block(rt.alloc(), Time::least(), i64::MIN, LEAST_BLOCK));
}
