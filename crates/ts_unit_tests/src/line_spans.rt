//! Offsets of the parts of a line in its text.

use std::alloc::Global;
use std::test::Fail;
use ts_core::Time;
use ts_line::{Field, Line, Part, Precision, Tag, read_line};

/// Offset of a part, its bytes, and its text without escapes.
type PartAt = (usize, &'static str, &'static str);

/// A line and its parts: the measurement, tags, fields and the time.
#[derive(Clone, Copy)]
struct Row {
    text: &'static str,
    measurement: PartAt,
    tags: &'static [(PartAt, PartAt)],
    fields: &'static [(PartAt, i64)],
    time: i64,
}

/// The time of a line without one.
const NOW: i64 = 77;

/// Lines that were parsed by hand.
const ROWS: [Row; 4] = [
    Row {
        text: "m f=1i 5",
        measurement: (0, "m", "m"),
        tags: &[],
        fields: &[((2, "f", "f"), 1)],
        time: 5,
    },
    Row {
        text: "a\\,b,t\\ x=1 f=5i,g=-3i 7",
        measurement: (0, "a\\,b", "a,b"),
        tags: &[((5, "t\\ x", "t x"), (10, "1", "1"))],
        fields: &[((12, "f", "f"), 5), ((17, "g", "g"), -3)],
        time: 7,
    },
    // a field that is named twice is at its first name
    Row {
        text: " m  f=1i,f=2i  3 ",
        measurement: (1, "m", "m"),
        tags: &[],
        fields: &[((4, "f", "f"), 2)],
        time: 3,
    },
    // é has two bytes
    Row {
        text: "cpu,host=\u{e9},dc=\\= v=1i,w\\ x=2i",
        measurement: (0, "cpu", "cpu"),
        tags: &[
            ((4, "host", "host"), (9, "\u{e9}", "\u{e9}")),
            ((12, "dc", "dc"), (15, "\\=", "=")),
        ],
        fields: &[((18, "v", "v"), 1), ((23, "w\\ x", "w x"), 2)],
        time: NOW,
    },
];

/// Returns true if a part is this one, and its bytes are at its offset in the text.
fn is_part(text: &str, part: &Part<'_, Global>, span: PartAt) -> bool {
    let end = part.start().saturating_add(part.raw().len());
    part.start() == span.0
        && part.raw() == span.1
        && part.text() == span.2
        && text.get(part.start()..end) == Some(part.raw())
}

/// Returns true if tags are these, in their order.
fn are_tags(text: &str, tags: &[Tag<'_, Global>], spans: &[(PartAt, PartAt)]) -> bool {
    for (tag, (key, value)) in tags.iter().zip(spans) {
        if !is_part(text, tag.key(), *key) || !is_part(text, tag.value(), *value) {
            return false;
        }
    }
    tags.len() == spans.len()
}

/// Returns true if fields are these, in their order.
fn are_fields(text: &str, fields: &[Field<'_, Global>], spans: &[(PartAt, i64)]) -> bool {
    for (field, (name, value)) in fields.iter().zip(spans) {
        if !is_part(text, field.name(), *name) || field.value() != *value {
            return false;
        }
    }
    fields.len() == spans.len()
}

/// Returns true if a line has the parts of a row.
fn is_line(line: &Line<'_, Global>, row: &Row) -> bool {
    is_part(row.text, line.measurement(), row.measurement)
        && are_tags(row.text, line.tags(), row.tags)
        && are_fields(row.text, line.fields(), row.fields)
        && line.time().nanos() == row.time
}

/// Returns true if the text of a row has its parts.
fn is_row(alloc: Global, row: &Row, now: Time) -> bool {
    match read_line(alloc, row.text, Precision::Nanoseconds, now) {
        Ok(Some(line)) => is_line(&line, row),
        _ => false,
    }
}

#[test]
fn parts_stand_where_they_are_written(rt: HostRuntime) -> Result<(), Fail> {
    let now = Time::new(NOW).ok_or("a time")?;
    for row in &ROWS {
        assert!(rt; is_row(rt.alloc(), row, now), "{}", row.text);
    }
    Ok(())
}
