//! Messages of faults, and the content of a text that can't grow.

use std::alloc::{AllocError, Global};
use ts_core::{FaultCode, FaultDetail};
use ts_testkit::Refusing;

/// A text that an allocator may refuse to let grow.
type Text<'a> = String<&'a Refusing<Global>>;

/// A fault with its detail, and its message.
type Row = (FaultCode, FaultDetail<'static>, &'static str);

/// A fault with a detail of each kind.
const MESSAGES: [Row; 7] = [
    (FaultCode::StalePlan, FaultDetail::Alone, "fault 93"),
    (
        FaultCode::IntervalRange,
        FaultDetail::OfRule(31),
        "fault 1 rule 31",
    ),
    (FaultCode::NoField, FaultDetail::At(1), "fault 14 at 1"),
    (
        FaultCode::BrokenImage,
        FaultDetail::At(usize::MAX),
        "fault 63 at 18446744073709551615",
    ),
    (
        FaultCode::OutOfProfile,
        FaultDetail::AtToken(7, "f"),
        "fault 72 at 7 f",
    ),
    (
        FaultCode::NoSuchRule,
        FaultDetail::OfPiece(2),
        "fault 84 piece 2",
    ),
    (
        FaultCode::BelowRawMark,
        FaultDetail::Mark(-9_223_372_036_854_775_806),
        "fault 51 mark -9223372036854775806",
    ),
];

/// Text in front of each message.
const FRONT: &str = "line 2: ";

/// Returns true if a text is the front with all of a message.
fn is_whole(text: &str, message: &str) -> bool {
    text.strip_prefix(FRONT) == Some(message)
}

/// Returns true if a text is the front with a prefix of a message, but not with all of it.
fn is_begun(text: &str, message: &str) -> bool {
    match text.strip_prefix(FRONT) {
        Some(part) => message.starts_with(part) && part.len() < message.len(),
        None => false,
    }
}

/// Returns a text that has the front, and capacity for `capacity` bytes more.
fn front(heap: &Refusing<Global>, capacity: usize) -> Result<Text<'_>, AllocError> {
    let mut text = String::with_capacity(heap, FRONT.len().saturating_add(capacity))?;
    text.push_str(FRONT)?;
    Ok(text)
}

/// Appends the message of a fault.
fn append(text: &mut Text<'_>, row: &Row) -> Result<(), AllocError> {
    row.0.text_to(row.1, text)
}

/// Appends a message without an allocation. Returns true if that succeeded, and true if one was asked for.
fn append_refused(heap: &Refusing<Global>, text: &mut Text<'_>, row: &Row) -> (bool, bool) {
    heap.refuse_after(0);
    let is_appended = append(text, row).is_ok();
    let is_asked = heap.has_refused();
    heap.refuse_none();
    (is_appended, is_asked)
}

/// Returns true if a text without capacity for a message has a prefix of it after a refused growth.
fn begins(heap: &Refusing<Global>, capacity: usize, row: &Row) -> bool {
    match front(heap, capacity) {
        Ok(text) => {
            let mut text = text;
            append_refused(heap, &mut text, row) == (false, true) && is_begun(text.as_str(), row.2)
        }
        Err(_) => false,
    }
}

/// Returns true if a text without capacity for a message grows to have all of it.
fn grows(heap: &Refusing<Global>, capacity: usize, row: &Row) -> bool {
    match front(heap, capacity) {
        Ok(text) => {
            let mut text = text;
            append(&mut text, row).is_ok() && is_whole(text.as_str(), row.2)
        }
        Err(_) => false,
    }
}

/// Returns true if a text with capacity for a message gets it without an allocation.
fn fits(heap: &Refusing<Global>, row: &Row) -> bool {
    match front(heap, row.2.len()) {
        Ok(text) => {
            let mut text = text;
            append_refused(heap, &mut text, row) == (true, false) && is_whole(text.as_str(), row.2)
        }
        Err(_) => false,
    }
}

/// Returns the first capacity, below that for a whole message, with which a text doesn't begin or grow.
fn first_wrong(heap: &Refusing<Global>, row: &Row) -> Option<usize> {
    for capacity in 0..row.2.len() {
        if !begins(heap, capacity, row) || !grows(heap, capacity, row) {
            return Some(capacity);
        }
    }
    None
}

#[test]
fn a_text_without_room_has_a_beginning(rt: HostRuntime) {
    let heap = Refusing::new(rt.alloc());
    for row in &MESSAGES {
        assert_eq!(rt; first_wrong(&heap, row), None, "{}", row.2);
        assert!(rt; fits(&heap, row), "{}", row.2);
    }
}
