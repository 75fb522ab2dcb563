//! An allocator that refuses one request does so.

use ts_testkit::Refusing;

#[test]
fn the_second_request_is_refused(rt: HostRuntime) {
    let heap = Refusing::new(rt.alloc());
    heap.refuse_after(1);
    let first = Vec::<u8, _>::with_capacity(&heap, 4).is_ok();
    let second = Vec::<u8, _>::with_capacity(&heap, 4).is_ok();
    assert!(rt; first && !second && heap.has_refused());
    let third = Vec::<u8, _>::with_capacity(&heap, 4).is_ok();
    assert!(rt; third);
}
