//! Adds points and parts to the rows of a group.
ghost use Rattle.std.specs.Prelude.{◌≡◌, ◌+◌, ◌^◌, ◌≤◌, ◌<◌, ◌<ℤ◌, true, [], length, IfSome, IfNone, get_or, min, if◌then◌else◌};
ghost use Rattle.ts_core.specs.aggregates.Aggregates.{empty_aggregate};
ghost use Rattle.ts_exec.specs.RowParts.{AreMerged, IsRun, part_of_point, row_index_at, with_part, with_point_parts};

use crate::buckets::{BucketCursor, BucketSpan};
use crate::fold::Fold;
use ts_core::{Agg, MAX_COUNT, Partial, Time, merge_within};
use ts_raw::{Points, Run};

/// Number of points that are decoded at once.
const ROOM: usize = 64;

/// Merges a part into the row with this index, if there is one.
pub(crate) fn add_part(rows: &mut [Agg], row_index: usize, part: Agg)
    ensures { rows.new ≡ with_part row_index part rows.old }
{
    if row_index < rows.len() {
        rows[row_index] = merge_within(rows[row_index], part);
    }
}

/// Returns true if the row with this index can count a point and `others` more.
pub(crate) fn can_add(rows: &[Agg], row_index: usize, others: u64) -> bool
    ensures { result ≡ true → (get_or rows.now row_index empty_aggregate).count + (others + 1) ≤ 2 ^ 62 }
{
    let count = match rows.get(row_index) {
        Some(row) => row.count(),
        None => 0,
    };
    others < MAX_COUNT.saturating_sub(count)
}

/// Points in one bucket that follow each other, by their fold.
#[derive(Clone, Copy, Debug)]
struct BucketRun<F> {
    // Times from `low`, inclusive, to `high`, exclusive, are in the bucket.
    low: i64,
    high: i64,
    row_index: usize,
    fold: F,
}

/// Returns the end of a run: that of its bucket, or of no time if the row could exceed 2^62 points.
fn end_of_run(span: &BucketSpan, can_grow: bool) -> i64
    ensures { result ≡ (if can_grow then span.now.high else span.now.low) }
{
    if can_grow { span.high } else { span.low }
}

/// Begins a run by its first point, with at most `others` points to come. If these could give its row more than 2^62
/// points, none of them belongs to the run.
fn begin_run<F: Fold>(
    rows: &[Agg],
    buckets: &mut BucketCursor,
    time: Time,
    value: i64,
    others: u64,
) -> BucketRun<F>
    ensures run { IsRun buckets.old rows.now others result.low result.high result.row_index (F.folded result.fold) }
    ensures row_index { result.row_index ≡ min (row_index_at buckets.old time) 18_446_744_073_709_551_615 }
    ensures fold { F.folded result.fold ≡ part_of_point F.parts time value }
    ensures same { buckets.new ≡ buckets.old }
{
    let span = buckets.span(time.nanos());
    let can_grow = can_add(rows, span.row_index, others);
    BucketRun {
        low: span.low,
        high: end_of_run(&span, can_grow),
        row_index: span.row_index,
        fold: F::single(time, value),
    }
}

/// Begins a run by the first points, if they are a whole block in the bucket of `from`, and the row can count all
/// points.
fn first_block<F: Fold>(
    rows: &[Agg],
    buckets: &mut BucketCursor,
    from: i64,
    points: &mut Points<'_>,
) -> Option<BucketRun<F>>
    ensures run { IfSome result
        (λ run. IsRun buckets.old rows.now (length points.new) run.low run.high run.row_index (F.folded run.fold)) }
    ensures value { IfSome result (λ run. with_point_parts F.parts buckets.old points.new
        (with_part run.row_index (F.folded run.fold) rows.now)
        ≡ with_point_parts F.parts buckets.old points.old rows.now) }
    ensures none { IfNone result (points.new ≡ points.old) }
    ensures same { buckets.new ≡ buckets.old }
{
    // For the proof: the number of rows fits a `usize`.
    let _width = rows.len();
    let span = buckets.span(from);
    if !can_add(rows, span.row_index, points.len() as u64) {
        return None;
    }
    let part = points.next_whole(span.low, span.high)?;
    Some(BucketRun {
        low: span.low,
        high: span.high,
        row_index: span.row_index,
        fold: F::from_agg(part),
    })
}

/// Begins a run by the first block or point, if there is one. The points should be at or after `from`, and the first in
/// its bucket.
fn first_run<F: Fold>(
    rows: &[Agg],
    buckets: &mut BucketCursor,
    from: i64,
    points: &mut Points<'_>,
) -> Option<BucketRun<F>>
    ensures run { IfSome result
        (λ run. IsRun buckets.old rows.now (length points.new) run.low run.high run.row_index (F.folded run.fold)) }
    ensures value { IfSome result (λ run. with_point_parts F.parts buckets.old points.new
        (with_part run.row_index (F.folded run.fold) rows.now)
        ≡ with_point_parts F.parts buckets.old points.old rows.now) }
    ensures none { IfNone result (points.old ≡ []) }
    ensures same { buckets.new ≡ buckets.old }
{
    // For the proof: the number of rows fits a `usize`.
    let _width = rows.len();
    if let Some(run) = first_block(rows, buckets, from, points) {
        return Some(run);
    }
    let (time, value) = points.next()?;
    Some(begin_run(rows, buckets, time, value, points.len() as u64))
}

/// Merges the next points into a fold while they are a whole block from `low`, inclusive, to `high`, exclusive.
#[inline]
fn with_blocks<F: Fold>(fold: F, low: i64, high: i64, points: &mut Points<'_>) -> F
    requires { low <ℤ high → (F.folded fold).count + length points.old ≤ 2 ^ 62 }
    ensures { AreMerged F.parts low high (F.folded fold) (F.folded result) points.old points.new }
{
    let mut fold = fold;
    while let Some(part) = points.next_whole(low, high) {
        fold = fold.with_part(part);
    }
    fold
}

/// Adds points to a run and to the runs after it, and merges each run but the last into its row. At most `others`
/// points are to come. Returns the last run.
fn extend_runs<F: Fold>(
    rows: &mut [Agg],
    buckets: &mut BucketCursor,
    run: BucketRun<F>,
    points: Run<'_>,
    others: u64,
) -> BucketRun<F>
    requires few { length points + others < 2 ^ 64 }
    requires run { IsRun buckets.old rows.old
        (length points + others) run.low run.high run.row_index (F.folded run.fold) }
    ensures value { with_part result.row_index (F.folded result.fold) rows.new
        ≡ with_point_parts F.parts buckets.old points.entry (with_part run.row_index (F.folded run.fold) rows.old) }
    ensures run { IsRun buckets.old rows.new others result.low result.high result.row_index (F.folded result.fold) }
    ensures rows { length rows.new ≡ length rows.old }
    ensures same { buckets.new ≡ buckets.old }
{
    // For the proof: the number of rows fits a `usize`.
    let _width = rows.len();
    let mut run = run;
    let mut points = points;
    loop {
        let within = points.take_within(run.low, run.high);
        run.fold = run.fold.with_all(within);
        let Some(point) = points.take_first() else {
            return run;
        };
        add_part(rows, run.row_index, run.fold.part());
        run = begin_run(
            rows,
            buckets,
            point.0,
            point.1,
            points.len() as u64 + others,
        );
    }
}

/// Adds points to a run and to the runs after it, and merges each run into its row. Points are decoded into `room`.
fn continue_run<F: Fold>(
    rows: &mut [Agg],
    buckets: &mut BucketCursor,
    run: BucketRun<F>,
    points: Points<'_>,
    room: &mut [(Time, i64)],
)
    requires room { 0 < length room.old }
    requires run { IsRun buckets.old rows.old (length points) run.low run.high run.row_index (F.folded run.fold) }
    ensures value { rows.new
        ≡ with_point_parts F.parts buckets.old points.entry (with_part run.row_index (F.folded run.fold) rows.old) }
    ensures same { buckets.new ≡ buckets.old }
{
    // For the proof: the number of rows fits a `usize`.
    let _width = rows.len();
    let mut run = run;
    let mut points = points;
    loop {
        run.fold = with_blocks(run.fold, run.low, run.high, &mut points);
        let all = points.len();
        let next = points.next_run(room);
        if next.is_empty() {
            break;
        }
        let others = (all - next.len()) as u64;
        run = extend_runs(rows, buckets, run, next, others);
    }
    add_part(rows, run.row_index, run.fold.part());
}

/// Adds points, each to the row of its bucket. Folds each run of points in one bucket, and merges it into its row. The
/// points should be at or after `from`.
pub(crate) fn add_runs<F: Fold>(
    rows: &mut [Agg],
    buckets: &mut BucketCursor,
    from: i64,
    points: Points<'_>,
)
    ensures value { rows.new ≡ with_point_parts F.parts buckets.old points.entry rows.old }
    ensures same { buckets.new ≡ buckets.old }
{
    let mut points = points;
    if let Some(run) = first_run::<F>(rows, buckets, from, &mut points) {
        let mut room = [(Time::least(), 0); ROOM];
        continue_run(rows, buckets, run, points, &mut room);
    }
}
