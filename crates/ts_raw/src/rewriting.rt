//! Encodes a block anew, with a point inserted or replaced, and replaces the old block with the new ones.
ghost use Rattle.std.specs.Prelude.{◌≡◌, ◌+◌, ◌<◌, ◌≤◌, ◌≤ℤ◌, ℕ, ℤ, List, length, take, drop, vec_len, vec_capacity, Some, IfOk};
ghost use Rattle.std.specs.Ordering.{int_cmp};
ghost use Rattle.std.specs.FinMap.{put};
ghost use Rattle.ts_core.specs.aggregates.Aggregates.{aggregate_of_points};
ghost use Rattle.ts_block.specs.Blocks.{IsBlockOf};
ghost use Rattle.ts_block.specs.Appending.{values_start, last_time};
ghost use Rattle.ts_raw.specs.CodedPoints.{IsBlockHandle, AreBlocks, LieFrom, block_points_at, coded_points, count_in_blocks};
ghost use Rattle.ts_core.specs.facts.Times.{IsTime};
ghost use Rattle.ts_raw.specs.CodedBlocks.{AreSoundBlocks, IsStaged, points_of_blocks};
ghost use Rattle.ts_raw.specs.Rewriting.{IsEncoded, AreHalves, blocks_of, handles_replaced, cut_in_block, cut_after};

use crate::block_handle::BlockHandle;
use crate::coded::count_of;
use crate::coded_blocks::CodedBlocks;
use crate::walk::text_of;
use std::alloc::{AllocError, Allocator};
use ts_block::{Decoder, first_points, last_points, spacing_of, with_point};
use ts_core::{Agg, Partial, Time, reserve_eighth};

/// Number of points above which a block is halved when a point is inserted or replaced. Late points mostly come near
/// one another, and a smaller block is encoded anew sooner.
const HALVED_POINTS: usize = 64;

/// The blocks that replace the block at an index: one or two.
#[derive(Clone, Copy, Drop)]
pub(crate) struct Rewritten {
    pub(crate) at: usize,
    pub(crate) first: BlockHandle,
    pub(crate) second: Option<BlockHandle>,
}

/// Returns the number of points to leave out of the block at an index: only the first block has removed ones.
pub(crate) fn cut_of(at: usize, cut: usize) -> usize
    ensures { result ≡ cut_in_block at cut }
{
    if at == 0 { cut } else { 0 }
}

/// Returns the number of removed points after the block at an index was encoded anew: the first one is encoded without
/// them.
fn cut_left(at: usize, cut: usize) -> usize
    ensures { result ≡ cut_after at cut }
{
    if at == 0 { 0 } else { cut }
}

/// Aggregates the points of a block.
fn summary_of(decoder: Decoder<'_>) -> Agg
    requires { length decoder ≤ 256 }
    ensures { result ≡ aggregate_of_points decoder.entry }
{
    let mut summary = Agg::empty();
    let mut rest = decoder;
    while let Some(point) = rest.next() {
        summary = summary.merge(Agg::single(point.0, point.1));
    }
    summary
}

/// Appends the bytes of a block. Returns its handle.
fn push_text<A: Allocator>(
    bytes: &mut Vec<u8, A>,
    text: &[u8],
    values: usize,
    count: usize,
    last: Time,
    summary: Agg,
) -> Result<BlockHandle, AllocError>
    requires { (points : List (ℤ × ℤ)) × IsBlockOf text.now points × (values ≡ values_start points)
        × (count ≡ length points) × (last ≡ last_time points) × (summary ≡ aggregate_of_points points) }
    ensures kept { take (vec_len bytes.old) bytes.new.items ≡ bytes.old.items }
    ensures block { IfOk result (λ handle. (points : List (ℤ × ℤ))
        → IsBlockOf text.now points → IsEncoded (vec_len bytes.old) bytes.new.items handle points) }
{
    reserve_eighth(bytes, text.len())?;
    let start = bytes.len();
    bytes.extend_from_slice(text).unwrap();
    let spacing = spacing_of(text, values);
    Ok(BlockHandle {
        start,
        values,
        end: bytes.len(),
        count,
        last,
        spacing,
        summary,
    })
}

/// Copies a block that isn't full to the end of the bytes, with a point inserted or replaced that isn't after its last
/// one.
fn copy_with<A: Allocator + Copy>(
    bytes: &mut Vec<u8, A>,
    handle: &BlockHandle,
    point: &(Time, i64),
) -> Result<BlockHandle, AllocError>
    requires marked { IsBlockHandle bytes.old.items handle.now }
    requires few { handle.now.count < 256 }
    requires reached { point.now.0 ≤ℤ handle.now.last }
    ensures kept { take (vec_len bytes.old) bytes.new.items ≡ bytes.old.items }
    ensures block { IfOk result (λ new. IsEncoded (vec_len bytes.old) bytes.new.items new
        (put int_cmp point.now.0 point.now.1 (block_points_at bytes.old.items handle.now))) }
{
    let alloc = *bytes.allocator();
    let block = text_of(bytes.as_slice(), handle);
    let (text, values, more) = with_point(alloc, block, handle.values, point)?;
    if more {
        let summary = handle.summary.merge(Agg::single(point.0, point.1));
        return push_text(
            bytes,
            text.as_slice(),
            values,
            handle.count + 1,
            handle.last,
            summary,
        );
    }
    let summary = summary_of(Decoder::at(text.as_slice(), values));
    push_text(
        bytes,
        text.as_slice(),
        values,
        handle.count,
        handle.last,
        summary,
    )
}

/// Copies the first `count` points of a block, but not all, to the end of the bytes as a block.
fn copy_first<A: Allocator + Copy>(
    bytes: &mut Vec<u8, A>,
    handle: &BlockHandle,
    count: usize,
) -> Result<BlockHandle, AllocError>
    requires marked { IsBlockHandle bytes.old.items handle.now }
    requires some { 0 < count }
    requires few { count < handle.now.count }
    ensures kept { take (vec_len bytes.old) bytes.new.items ≡ bytes.old.items }
    ensures block { IfOk result (λ new. IsEncoded
        (vec_len bytes.old) bytes.new.items new (take count (block_points_at bytes.old.items handle.now))) }
{
    let alloc = *bytes.allocator();
    let block = text_of(bytes.as_slice(), handle);
    let (text, values, last) = first_points(alloc, block, handle.values, handle.last, count)?;
    let summary = summary_of(Decoder::at(text.as_slice(), values));
    push_text(bytes, text.as_slice(), values, count, last, summary)
}

/// Copies the points of a block after the first `count`, of which there are some, to the end of the bytes as a block.
fn copy_last<A: Allocator + Copy>(
    bytes: &mut Vec<u8, A>,
    handle: &BlockHandle,
    count: usize,
) -> Result<BlockHandle, AllocError>
    requires marked { IsBlockHandle bytes.old.items handle.now }
    requires few { count < handle.now.count }
    ensures kept { take (vec_len bytes.old) bytes.new.items ≡ bytes.old.items }
    ensures block { IfOk result (λ new. IsEncoded
        (vec_len bytes.old) bytes.new.items new (drop count (block_points_at bytes.old.items handle.now))) }
{
    let alloc = *bytes.allocator();
    let block = text_of(bytes.as_slice(), handle);
    let (text, values) = last_points(alloc, block, handle.values, handle.last, count)?;
    let summary = summary_of(Decoder::at(text.as_slice(), values));
    push_text(
        bytes,
        text.as_slice(),
        values,
        handle.count - count,
        handle.last,
        summary,
    )
}

/// Copies the halves of a block to the end of the bytes as two blocks.
fn halve<A: Allocator + Copy>(
    bytes: &mut Vec<u8, A>,
    handle: &BlockHandle,
) -> Result<(BlockHandle, BlockHandle), AllocError>
    requires marked { IsBlockHandle bytes.old.items handle.now }
    requires some { 1 < handle.now.count }
    ensures kept { take (vec_len bytes.old) bytes.new.items ≡ bytes.old.items }
    ensures halves { IfOk result (λ two. AreHalves
        (vec_len bytes.old) bytes.new.items two.0 two.1 (block_points_at bytes.old.items handle.now)) }
{
    let count = handle.count / 2;
    let first = copy_first(bytes, handle, count)?;
    let second = copy_last(bytes, handle, count)?;
    Ok((first, second))
}

/// Copies one of two blocks to the end of the bytes, with a point inserted or replaced that isn't after the last one.
/// `at` is the index of the old block.
fn rewrite_half<A: Allocator + Copy>(
    bytes: &mut Vec<u8, A>,
    first: &BlockHandle,
    second: &BlockHandle,
    at: usize,
    point: &(Time, i64),
) -> Result<Rewritten, AllocError>
    requires { (from : ℕ) × (points : List (ℤ × ℤ))
        × AreHalves from bytes.old.items first.now second.now points × (point.now.0 ≤ℤ last_time points) }
    ensures kept { take (vec_len bytes.old) bytes.new.items ≡ bytes.old.items }
    ensures at { IfOk result (λ new. new.at ≡ at) }
    ensures blocks { IfOk result (λ new. AreBlocks bytes.new.items (blocks_of new)) }
    ensures behind { IfOk result (λ new. (from : ℕ) (points : List (ℤ × ℤ))
        → AreHalves from bytes.old.items first.now second.now points → LieFrom from (blocks_of new)) }
    ensures points { IfOk result (λ new. (from : ℕ) (points : List (ℤ × ℤ))
        → AreHalves from bytes.old.items first.now second.now points
        → coded_points bytes.new.items (blocks_of new) ≡ put int_cmp point.now.0 point.now.1 points) }
{
    if point.0 <= first.last {
        let new = copy_with(bytes, first, point)?;
        return Ok(Rewritten {
            at,
            first: new,
            second: Some(*second),
        });
    }
    let new = copy_with(bytes, second, point)?;
    Ok(Rewritten {
        at,
        first: *first,
        second: Some(new),
    })
}

/// Copies a block to the end of the bytes, with a point inserted or replaced that isn't after its last one. Makes one
/// block, or two halves if there are many points. `at` is the index of the block.
fn rewrite_all<A: Allocator + Copy>(
    bytes: &mut Vec<u8, A>,
    handle: &BlockHandle,
    at: usize,
    point: &(Time, i64),
) -> Result<Rewritten, AllocError>
    requires marked { IsBlockHandle bytes.old.items handle.now }
    requires reached { point.now.0 ≤ℤ handle.now.last }
    ensures kept { take (vec_len bytes.old) bytes.new.items ≡ bytes.old.items }
    ensures at { IfOk result (λ new. new.at ≡ at) }
    ensures blocks { IfOk result (λ new. AreBlocks bytes.new.items (blocks_of new)) }
    ensures behind { IfOk result (λ new. LieFrom (vec_len bytes.old) (blocks_of new)) }
    ensures points { IfOk result (λ new. coded_points bytes.new.items (blocks_of new)
        ≡ put int_cmp point.now.0 point.now.1 (block_points_at bytes.old.items handle.now)) }
{
    if handle.count <= HALVED_POINTS {
        let first = copy_with(bytes, handle, point)?;
        return Ok(Rewritten {
            at,
            first,
            second: None,
        });
    }
    let (first, second) = halve(bytes, handle)?;
    rewrite_half(bytes, &first, &second, at, point)
}

/// Copies a block from the index `skip` on to the end of the bytes, with a point inserted or replaced that isn't after
/// its last one. Makes one block, or two halves if there are many points. `at` is the index of the block.
pub(crate) fn rewrite<A: Allocator + Copy>(
    bytes: &mut Vec<u8, A>,
    handle: &BlockHandle,
    at: usize,
    skip: usize,
    point: &(Time, i64),
) -> Result<Rewritten, AllocError>
    requires marked { IsBlockHandle bytes.old.items handle.now }
    requires skip { skip < handle.now.count }
    requires reached { point.now.0 ≤ℤ handle.now.last }
    ensures kept { take (vec_len bytes.old) bytes.new.items ≡ bytes.old.items }
    ensures at { IfOk result (λ new. new.at ≡ at) }
    ensures blocks { IfOk result (λ new. AreBlocks bytes.new.items (blocks_of new)) }
    ensures behind { IfOk result (λ new. LieFrom (vec_len bytes.old) (blocks_of new)) }
    ensures points { IfOk result (λ new. coded_points bytes.new.items (blocks_of new)
        ≡ put int_cmp point.now.0 point.now.1 (drop skip (block_points_at bytes.old.items handle.now))) }
{
    if skip == 0 {
        return rewrite_all(bytes, handle, at, point);
    }
    let rest = copy_last(bytes, handle, skip)?;
    rewrite_all(bytes, &rest, at, point)
}

/// Replaces the block at an index with new blocks. There must be capacity for a handle.
fn insert_blocks<A: Allocator>(handles: &mut Vec<BlockHandle, A>, new: &Rewritten)
    requires within { new.now.at < length handles.old.items }
    requires spare { vec_len handles.old < vec_capacity handles.old }
    ensures { handles.new.items ≡ handles_replaced new.now handles.old.items }
{
    handles[new.at] = new.first;
    match new.second {
        Some(second) => handles.insert(new.at + 1, second).unwrap(),
        None => (),
    }
}

/// Returns the number of points of the new blocks.
fn count_of_new(new: &Rewritten) -> usize
    requires { count_in_blocks (blocks_of new.now) ≤ 18446744073709551615 }
    ensures { result ≡ count_in_blocks (blocks_of new.now) }
{
    match new.second {
        Some(second) => new.first.count + second.count,
        None => new.first.count,
    }
}

/// Replaces a block with new ones. There must be capacity for a handle. `total` is the number of all points; returns
/// their number afterwards.
#[cold]
fn replace_handles<A: Allocator>(
    handles: &mut Vec<BlockHandle, A>,
    total: usize,
    new: &Rewritten,
) -> usize
    requires within { new.now.at < length handles.old.items }
    requires spare { vec_len handles.old < vec_capacity handles.old }
    requires total { total ≡ count_in_blocks handles.old.items }
    requires few { count_in_blocks (handles_replaced new.now handles.old.items) ≤ 18446744073709551615 }
    ensures handles { handles.new.items ≡ handles_replaced new.now handles.old.items }
    ensures total { result ≡ count_in_blocks (handles_replaced new.now handles.old.items) }
{
    let others = total - handles[new.at].count;
    insert_blocks(handles, new);
    others + count_of_new(new)
}

impl<A: Allocator> CodedBlocks<A> {
    /// Replaces a block with the new ones of a staged point.
    pub(crate) fn replace(&mut self, new: &Rewritten)
        requires sound { AreSoundBlocks self.old }
        requires staged { (p : ℤ × ℤ) × IsTime p.0 × IsStaged self.old p (Some new.now) }
        ensures sound { AreSoundBlocks self.new }
        ensures points { (p : ℤ × ℤ) → IsStaged self.old p (Some new.now)
            → points_of_blocks self.new ≡ put int_cmp p.0 p.1 (points_of_blocks self.old) }
    {
        self.total = replace_handles(&mut self.handles, self.total, new);
        self.cut = cut_left(new.at, self.cut);
    }
}

/// Removes the first `count` blocks. `total` is the number of all points; returns the number of those left.
pub(crate) fn remove_front<A: Allocator>(
    handles: &mut Vec<BlockHandle, A>,
    total: usize,
    count: usize,
) -> usize
    requires bound { count ≤ length handles.old.items }
    requires total { total ≡ count_in_blocks handles.old.items }
    ensures handles { handles.new.items ≡ drop count handles.old.items }
    ensures total { result ≡ count_in_blocks (drop count handles.old.items) }
{
    let removed = count_of(&handles.as_slice()[..count]);
    drop(handles.drain(..count));
    total - removed
}
