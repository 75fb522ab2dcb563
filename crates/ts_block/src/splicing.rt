//! Copies blocks with one point more, or parts of blocks. All but a few numbers are slices of the old bytes.
ghost use Rattle.std.specs.Prelude.{◌≡◌, ◌+◌, ◌-◌, ◌<◌, ◌≤ℤ◌, ◌<ℤ◌, int_lt, ℤ, List, ◌++◌, length, take, drop, IsOk, IfOk, OnOk};
ghost use Rattle.ts_block.specs.Varints.{number_text};
ghost use Rattle.ts_block.specs.NumbersRead.{number_at};
ghost use Rattle.ts_block.specs.Blocks.{head_text, step_between, IsBlockOf};
ghost use Rattle.ts_block.specs.Appending.{values_start, last_time};
ghost use Rattle.ts_block.specs.Splicing.{text_to, count_with, steps_after, values_after, IsBlockWith, IsPart};

use crate::number::{decode_number, push_number, to_zigzag};
use crate::place::{Place, find};
use std::alloc::{AllocError, Allocator};
use ts_core::Time;

/// Appends the number of points after the first one, and the first time.
fn push_head<A: Allocator>(
    out: &mut Vec<u8, A>,
    later: usize,
    first: Time,
) -> Result<(), AllocError>
    requires { later < 256 }
    ensures { OnOk result (out.new.items ≡ out.old.items ++ head_text later first) }
{
    out.push(later as u8)?;
    out.extend_from_slice(&first.nanos().to_be_bytes())
}

/// Appends the step between two times.
fn push_step<A: Allocator>(out: &mut Vec<u8, A>, from: Time, to: Time) -> Result<(), AllocError>
    requires { from <ℤ to }
    ensures { OnOk result (out.new.items ≡ out.old.items ++ number_text (step_between from to)) }
{
    push_number(out, to.nanos().abs_diff(from.nanos()) - 1)
}

/// Appends the number of points after the first one, the first time, and the steps up to a time at a place.
fn push_to<A: Allocator>(
    out: &mut Vec<u8, A>,
    later: usize,
    place: &Place<'_>,
    time: Time,
) -> Result<(), AllocError>
    requires few { later < 256 }
    requires after { 0 < place.now.index → place.now.before <ℤ time }
    ensures { OnOk result (out.new.items ≡ out.old.items ++ text_to later place.now time) }
{
    if place.index == 0 {
        return push_head(out, later, time);
    }
    push_head(out, later, place.first)?;
    out.extend_from_slice(place.earlier_steps)?;
    push_step(out, place.before, time)
}

/// Appends the steps after a time at a place.
fn push_after<A: Allocator>(
    out: &mut Vec<u8, A>,
    place: &Place<'_>,
    time: Time,
) -> Result<(), AllocError>
    ensures { OnOk result (out.new.items ≡ out.old.items ++ steps_after place.now time) }
{
    if time < place.time {
        push_step(out, time, place.time)?;
    }
    out.extend_from_slice(place.later_steps)
}

/// Returns the values after a time at a place.
fn rest_after<'a>(place: &Place<'a>, time: Time) -> &'a [u8]
    requires { IsOk (number_at place.now.later_values.now) }
    ensures { result.now ≡ values_after place.now time }
{
    if time < place.time {
        place.later_values
    } else {
        decode_number(place.later_values).1
    }
}

/// Returns true if a time is before a place, so that a point of this time is one more.
fn is_before(place: &Place<'_>, time: Time) -> bool
    ensures { result ≡ int_lt time place.now.time }
{
    time < place.time
}

/// Returns the number of points after the first one when there is a point of this time.
fn count_after(later: usize, place: &Place<'_>, time: Time) -> usize
    requires { later < 256 }
    ensures { result ≡ count_with later place.now time }
{
    if time < place.time { later + 1 } else { later }
}

/// Returns a block with a point inserted or replaced that isn't after the last one, and the offset of its values. The
/// old block has less than 256 points, and its values start at `values`. Returns also whether there is one point more.
pub fn with_point<A: Allocator>(
    alloc: A,
    block: &[u8],
    values: usize,
    point: &(Time, i64),
) -> Result<(Vec<u8, A>, usize, bool), AllocError>
    requires { (points : List (ℤ × ℤ)) × IsBlockOf block.now points
        × (values ≡ values_start points) × (length points < 256) × (point.now.0 ≤ℤ last_time points) }
    ensures { IfOk result (λ found. (points : List (ℤ × ℤ))
        → IsBlockOf block.now points → IsBlockWith points point.now found.0.items found.1 found.2) }
{
    // For the proof: the time is valid.
    let _valid = point.0.nanos();
    let limit = usize::from(block[0]);
    let place = find(block, values, limit, point.0);
    let mut out = Vec::with_capacity(alloc, block.len() + 20)?;
    push_to(
        &mut out,
        count_after(limit, &place, point.0),
        &place,
        point.0,
    )?;
    push_after(&mut out, &place, point.0)?;
    let values = out.len();
    out.extend_from_slice(place.earlier_values)?;
    push_number(&mut out, to_zigzag(point.1))?;
    out.extend_from_slice(rest_after(&place, point.0))?;
    Ok((out, values, is_before(&place, point.0)))
}

/// Returns the block of the first `count` points of a block, but not all, the offset of its values, and its last time.
/// The values of the old block start at `values`.
pub fn first_points<A: Allocator>(
    alloc: A,
    block: &[u8],
    values: usize,
    last: Time,
    count: usize,
) -> Result<(Vec<u8, A>, usize, Time), AllocError>
    requires { (points : List (ℤ × ℤ)) × IsBlockOf block.now points
        × (values ≡ values_start points) × (last ≡ last_time points) × (0 < count) × (count < length points) }
    ensures { IfOk result (λ found. (points : List (ℤ × ℤ))
        → IsBlockOf block.now points → IsPart (take count points) found.0.items found.1 found.2) }
{
    let place = find(block, values, count, last);
    let mut out = Vec::with_capacity(alloc, block.len())?;
    push_head(&mut out, count - 1, place.first)?;
    out.extend_from_slice(place.earlier_steps)?;
    let values = out.len();
    out.extend_from_slice(place.earlier_values)?;
    Ok((out, values, place.before))
}

/// Returns the block of the points of a block after the first `count`, of which there are some, and the offset of its
/// values. The values of the old block start at `values`.
pub fn last_points<A: Allocator>(
    alloc: A,
    block: &[u8],
    values: usize,
    last: Time,
    count: usize,
) -> Result<(Vec<u8, A>, usize), AllocError>
    requires { (points : List (ℤ × ℤ)) × IsBlockOf block.now points
        × (values ≡ values_start points) × (last ≡ last_time points) × (count < length points) }
    ensures { IfOk result (λ found. (points : List (ℤ × ℤ))
        → IsBlockOf block.now points → IsPart (drop count points) found.0.items found.1 (last_time points)) }
{
    let place = find(block, values, count, last);
    let mut out = Vec::with_capacity(alloc, block.len() + 9)?;
    push_head(&mut out, usize::from(block[0]) - count, place.time)?;
    out.extend_from_slice(place.later_steps)?;
    let values = out.len();
    out.extend_from_slice(place.later_values)?;
    Ok((out, values))
}
