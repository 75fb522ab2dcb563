//! One list of calls with their expected results, for each kind of column.
ghost use Rattle.std.specs.Prelude.{IfOk};
ghost use Rattle.ts_raw.specs.Columns.{AreTimed};
ghost use Rattle.ts_raw.specs.PlainColumns.{IsRising};

use std::alloc::{AllocError, Global};
use ts_block::check;
use ts_core::Time;
use ts_raw::{BlockColumn, Blocks, Column, PlainColumn, Points, StoredColumn};

/// Times: the first one, the distance of each to the next, and their number.
#[derive(Clone, Copy)]
struct Times(i64, i64, usize);

/// A call on a column, or an expected result. The points of `Times` have 3 times their time as a value.
#[derive(Clone, Copy)]
enum Call {
    /// Inserts points, one after another.
    Put(Times),
    /// Inserts a point.
    PutOne(i64, i64),
    /// Stages a point.
    Stage(i64, i64),
    /// Removes the points before a time.
    DropBelow(i64),
    /// There are these points from one time, inclusive, to another, exclusive.
    Range(i64, i64, Times),
    /// There is one point from one time, inclusive, to another, exclusive, with this time and value.
    One(i64, i64, i64, i64),
    /// The number of points is this.
    Live(usize),
}

/// The first and the last valid time.
const LEAST: i64 = -9_223_372_036_854_775_806;

const GREATEST: i64 = 9_223_372_036_854_775_806;

/// Lists of calls, each for a new column.
const ROWS: [&[Call]; 12] = [
    // ten minutes and a retention run in their middle
    &[
        Call::Range(i64::MIN, i64::MAX, Times(0, 1, 0)),
        Call::Put(Times(1, 1, 600)),
        Call::Live(600),
        Call::DropBelow(300),
        Call::Live(301),
        Call::Range(0, 1_000, Times(300, 1, 301)),
        Call::DropBelow(300),
        Call::Range(299, 301, Times(300, 1, 1)),
        Call::Put(Times(601, 1, 300)),
        Call::Range(300, 901, Times(300, 1, 601)),
        Call::DropBelow(GREATEST),
        Call::Live(0),
    ],
    // a point among 256 others, and a replaced one
    &[
        Call::Put(Times(2, 2, 256)),
        Call::PutOne(5, -1),
        Call::Live(257),
        Call::Range(0, 5, Times(2, 2, 2)),
        Call::One(5, 6, 5, -1),
        Call::Range(6, 1_000, Times(6, 2, 254)),
        Call::PutOne(5, i64::MAX),
        Call::One(5, 6, 5, i64::MAX),
        Call::Live(257),
    ],
    // points in reversed order
    &[
        Call::Put(Times(257, -1, 257)),
        Call::Live(257),
        Call::Range(0, 1_000, Times(1, 1, 257)),
        Call::Range(1_000, 0, Times(0, 1, 0)),
    ],
    // the ends of times and values
    &[
        Call::PutOne(GREATEST, i64::MIN),
        Call::PutOne(LEAST, i64::MAX),
        Call::Live(2),
        Call::One(LEAST, 0, LEAST, i64::MAX),
        Call::One(0, i64::MAX, GREATEST, i64::MIN),
        Call::DropBelow(GREATEST),
        Call::One(i64::MIN, i64::MAX, GREATEST, i64::MIN),
    ],
    // a staged point isn't counted, and the next one replaces it
    &[
        Call::Stage(1, 2),
        Call::Live(0),
        Call::PutOne(3, 4),
        Call::Live(1),
        Call::Stage(3, 5),
        Call::One(0, 9, 3, 4),
        Call::DropBelow(2),
        Call::One(0, 9, 3, 4),
    ],
    // late points alternating with new ones
    &[
        Call::Put(Times(1_000, 1, 300)),
        Call::Put(Times(700, 1, 300)),
        Call::Put(Times(1_299, -1, 600)),
        Call::Range(i64::MIN, i64::MAX, Times(700, 1, 600)),
        Call::DropBelow(999),
        Call::Range(i64::MIN, i64::MAX, Times(999, 1, 301)),
    ],
    // late points among 2,000: in a block, in place of one there, in the last block, and first
    &[
        Call::Put(Times(2, 2, 2_000)),
        Call::Range(0, 5_000, Times(2, 2, 2_000)),
        Call::PutOne(701, -1),
        Call::Live(2_001),
        Call::Range(0, 701, Times(2, 2, 350)),
        Call::One(701, 702, 701, -1),
        Call::Range(702, 5_000, Times(702, 2, 1_650)),
        Call::PutOne(1_000, 7),
        Call::Live(2_001),
        Call::Range(702, 1_000, Times(702, 2, 149)),
        Call::One(1_000, 1_001, 1_000, 7),
        Call::Range(1_001, 5_000, Times(1_002, 2, 1_500)),
        Call::PutOne(3_073, 8),
        Call::Live(2_002),
        Call::Range(1_001, 3_073, Times(1_002, 2, 1_036)),
        Call::One(3_073, 3_074, 3_073, 8),
        Call::Range(3_074, 5_000, Times(3_074, 2, 464)),
        Call::PutOne(1, 9),
        Call::Live(2_003),
        Call::One(i64::MIN, 2, 1, 9),
        Call::Range(2, 701, Times(2, 2, 350)),
    ],
    // a late point between any two of 2,000
    &[
        Call::Put(Times(2, 2, 2_000)),
        Call::Put(Times(3_999, -2, 2_000)),
        Call::Live(4_000),
        Call::Range(0, 5_000, Times(1, 1, 4_000)),
    ],
    // marks within a block, at the first point of one, within the last block, and after all points
    &[
        Call::Put(Times(1, 1, 2_000)),
        Call::DropBelow(300),
        Call::Live(1_701),
        Call::Range(0, 3_000, Times(300, 1, 1_701)),
        Call::DropBelow(1_537),
        Call::Live(464),
        Call::Range(0, 3_000, Times(1_537, 1, 464)),
        Call::DropBelow(1_700),
        Call::Live(301),
        Call::Range(0, 3_000, Times(1_700, 1, 301)),
        Call::Put(Times(2_001, 1, 1)),
        Call::Range(0, 3_000, Times(1_700, 1, 302)),
        Call::DropBelow(GREATEST),
        Call::Live(0),
        Call::Put(Times(5, 1, 3)),
        Call::Range(0, 3_000, Times(5, 1, 3)),
    ],
    // late points before the only one left in a block, and before those left in the last block
    &[
        Call::Put(Times(1, 1, 2_000)),
        Call::DropBelow(1_536),
        Call::Range(0, 3_000, Times(1_536, 1, 465)),
        Call::Put(Times(1_535, -1, 500)),
        Call::Range(0, 3_000, Times(1_036, 1, 965)),
        Call::DropBelow(1_900),
        Call::Put(Times(1_899, -1, 5)),
        Call::Range(0, 3_000, Times(1_895, 1, 106)),
        Call::Put(Times(2_001, 1, 2_000)),
        Call::Range(0, 5_000, Times(1_895, 1, 2_106)),
        Call::DropBelow(4_001),
        Call::Live(0),
        Call::Put(Times(3, 1, 1_000)),
        Call::Range(i64::MIN, i64::MAX, Times(3, 1, 1_000)),
    ],
    // a staged late point is replaced by a new one, and the other way round
    &[
        Call::Put(Times(2, 2, 2_000)),
        Call::Stage(3, 1),
        Call::Live(2_000),
        Call::Stage(5_000, 2),
        Call::Range(0, 9_000, Times(2, 2, 2_000)),
        Call::Put(Times(4_002, 2, 1)),
        Call::Range(0, 9_000, Times(2, 2, 2_001)),
        Call::Stage(5_000, 2),
        Call::Put(Times(3, 1, 1)),
        Call::Live(2_002),
        Call::Range(0, 5, Times(2, 1, 3)),
        Call::Stage(5, 1),
        Call::DropBelow(4),
        Call::Range(0, 9_000, Times(4, 2, 2_000)),
    ],
    // 3,000 points in reversed order
    &[
        Call::Put(Times(3_000, -1, 3_000)),
        Call::Live(3_000),
        Call::Range(0, 5_000, Times(1, 1, 3_000)),
    ],
];

/// Numbers of points to make columns of: none, a part of a block, whole blocks, and one more or less.
const COUNTS: [usize; 8] = [0, 1, 255, 256, 257, 512, 513, 2_000];

/// Stages a point; returns true if there was memory.
fn stage<C: Column>(column: &mut C, time: i64, value: i64) -> bool {
    match Time::new(time) {
        Some(time) => column.prepare(time, value).is_ok(),
        None => false,
    }
}

/// Inserts a point; returns true if there was memory.
pub(crate) fn put<C: Column>(column: &mut C, time: Time, value: i64) -> bool {
    if column.prepare(time, value).is_err() {
        return false;
    }
    column.commit();
    true
}

/// Inserts a point at a number of nanoseconds; returns true if that is a time and there was memory.
pub(crate) fn put_at<C: Column>(column: &mut C, time: i64, value: i64) -> bool {
    match Time::new(time) {
        Some(time) => put(column, time, value),
        None => false,
    }
}

/// Inserts points, one after another; returns true if there was memory.
fn put_all<C: Column>(column: &mut C, times: Times) -> bool {
    let mut time = times.0;
    for _ in 0..times.2 {
        if !put_at(column, time, time.wrapping_mul(3)) {
            return false;
        }
        time = time.wrapping_add(times.1);
    }
    true
}

/// Removes the points before a time; returns true if the time is valid.
fn drop_below<C: Column>(column: &mut C, time: i64) -> bool {
    match Time::new(time) {
        Some(time) => {
            column.drop_below(time);
            true
        }
        None => false,
    }
}

/// Returns true if these are the points from one time to another.
fn has_all<C: Column>(column: &C, from: i64, to: i64, times: Times) -> bool {
    let mut next = times.0;
    let mut found: usize = 0;
    for (time, value) in column.range(from, to) {
        if time.nanos() != next || value != next.wrapping_mul(3) {
            return false;
        }
        next = next.wrapping_add(times.1);
        found = found.saturating_add(1);
    }
    found == times.2 && column.range(from, to).len() == times.2
}

/// Returns true if there is one point from one time to another, with this time and value.
fn has_one<C: Column>(column: &C, from: i64, to: i64, time: i64, value: i64) -> bool {
    let mut points = column.range(from, to);
    let first = points.next();
    first.is_some_and(|point| point.0.nanos() == time && point.1 == value) && points.len() == 0
}

/// Calls a column; returns false if the result isn't the expected one.
fn answers<C: Column>(column: &mut C, call: Call) -> bool {
    match call {
        Call::Put(times) => put_all(column, times),
        Call::PutOne(time, value) => put_at(column, time, value),
        Call::Stage(time, value) => stage(column, time, value),
        Call::DropBelow(time) => drop_below(column, time),
        Call::Range(from, to, times) => has_all(column, from, to, times),
        Call::One(from, to, time, value) => has_one(column, from, to, time, value),
        Call::Live(count) => column.live() == count,
    }
}

/// Returns true if at most this number of removed points is in memory.
fn is_lean<C: Column>(column: &C, most: usize) -> bool {
    match column.held().checked_sub(column.live()) {
        Some(more) => more <= most,
        None => false,
    }
}

/// Returns the index of the first call with an unexpected result, or after which more than 256 removed points are in
/// memory.
fn first_wrong<C: Column>(column: &mut C, calls: &[Call]) -> Option<usize> {
    for (at, call) in calls.iter().enumerate() {
        if !answers(column, *call) || !is_lean(column, 256) {
            return Some(at);
        }
    }
    None
}

#[test]
fn plain_columns_answer(rt: HostRuntime) {
    for (row, calls) in ROWS.iter().enumerate() {
        let mut column = PlainColumn::new(rt.alloc());
        assert_eq!(rt; first_wrong(&mut column, calls), None, "{row}");
    }
}

#[test]
fn coded_columns_answer(rt: HostRuntime) {
    for (row, calls) in ROWS.iter().enumerate() {
        let mut column = BlockColumn::new(rt.alloc());
        assert_eq!(rt; first_wrong(&mut column, calls), None, "{row}");
    }
}

#[test]
fn stored_columns_answer(rt: HostRuntime) {
    for (row, calls) in ROWS.iter().enumerate() {
        let mut column = StoredColumn::new(rt.alloc());
        assert_eq!(rt; first_wrong(&mut column, calls), None, "{row}");
    }
}

/// Returns the points of a column as a vector.
fn vector_of(alloc: Global, column: &PlainColumn<Global>) -> Result<Vec<(Time, i64)>, AllocError>
    ensures rising { IfOk result (λ points. IsRising points.items) }
    ensures timed { IfOk result (λ points. AreTimed points.items) }
{
    column.all().collect(alloc)
}

/// Returns true if two columns have the same points.
fn are_equal(one: Points<'_>, other: Points<'_>) -> bool {
    one.len() == other.len() && one.zip(other).all(|(point, same)| point == same)
}

/// Returns true if a column has the points of a plain one, this many, and at most 255 removed ones.
fn is_equal_to(stored: &StoredColumn<Global>, plain: &PlainColumn<Global>, count: usize) -> bool {
    stored.live() == count && is_lean(stored, 255) && are_equal(plain.all(), stored.all())
}

/// Returns a plain column made of the points of another at once.
fn plain_of(alloc: Global, column: &PlainColumn<Global>) -> Option<PlainColumn<Global>> {
    Some(PlainColumn::from_points(vector_of(alloc, column).ok()?))
}

/// Returns a column of blocks made of the points of a plain one at once.
fn stored_of(alloc: Global, column: &PlainColumn<Global>) -> Option<StoredColumn<Global>> {
    StoredColumn::from_points(vector_of(alloc, column).ok()?).ok()
}

/// Returns true if a column of blocks made of the points of a column at once, this many, has those of a plain one.
fn is_stored_equal(
    alloc: Global,
    column: &PlainColumn<Global>,
    plain: &PlainColumn<Global>,
    count: usize,
) -> bool {
    match stored_of(alloc, column) {
        Some(stored) => is_equal_to(&stored, plain, count),
        None => false,
    }
}

/// Returns true if columns of both kinds made of the points of a column at once, this many, have the same points.
fn are_made_equal(alloc: Global, column: &PlainColumn<Global>, count: usize) -> bool {
    match plain_of(alloc, column) {
        Some(plain) => is_stored_equal(alloc, column, &plain, count),
        None => false,
    }
}

/// Returns true if this holds of a column of this many points.
fn is_made_equal(alloc: Global, count: usize) -> bool {
    let mut column = PlainColumn::new(alloc);
    put_all(&mut column, Times(1, 1, count)) && are_made_equal(alloc, &column, count)
}

#[test]
fn columns_are_made_of_points(rt: HostRuntime) {
    for count in COUNTS {
        assert!(rt; is_made_equal(rt.alloc(), count), "{count}");
    }
}

/// Returns the number of points in blocks, if all are blocks.
fn coded_points(blocks: &Blocks<'_>) -> Option<usize> {
    let mut points: usize = 0;
    let mut at: usize = 0;
    for _ in 0..blocks.len() {
        let info = check(blocks.get(at)?).ok()?;
        points = points.saturating_add(info.points());
        at = at.saturating_add(1);
    }
    Some(points)
}

/// Returns true if a column has this many points, and its blocks those in memory.
fn has_blocks<C: Column>(column: &C, blocks: &Blocks<'_>, count: usize) -> bool {
    column.live() == count
        && blocks.points() == column.held()
        && coded_points(blocks) == Some(column.held())
}

#[test]
fn blocks_are_held(rt: HostRuntime) {
    let mut column = BlockColumn::new(rt.alloc());
    assert!(rt; put_all(&mut column, Times(1, 1, 600)) && drop_below(&mut column, 300));
    assert_eq!(rt; column.blocks().len(), 2);
    assert!(rt; has_blocks(&column, &column.blocks(), 301));
    assert!(rt; put_all(&mut column, Times(1_000, -1, 300)));
    assert!(rt; has_blocks(&column, &column.blocks(), 601));
}

#[test]
fn stored_points_are_in_blocks(rt: HostRuntime) {
    let mut column = StoredColumn::new(rt.alloc());
    assert!(rt; has_blocks(&column, &column.blocks(), 0));
    assert!(rt; put_all(&mut column, Times(1, 1, 600)) && drop_below(&mut column, 300));
    // the removed points of the first block that is left are counted: from 257 on
    assert_eq!(rt; column.held(), 344);
    assert!(rt; has_blocks(&column, &column.blocks(), 301));
    assert!(rt; drop_below(&mut column, 601));
    assert!(rt; has_blocks(&column, &column.blocks(), 0));
    assert_eq!(rt; column.held(), 0);
}
