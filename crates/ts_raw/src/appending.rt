//! Appends points to coded blocks.
ghost use Rattle.std.specs.Prelude.{◌≡◌, ◌↔◌, ◌+◌, ◌<◌, ◌≤◌, ◌<ℤ◌, ℕ, ℤ, List, [], ◌∷◌, ◌++◌, length, take, vec_len, vec_capacity, IsTrue, false, None};
ghost use Rattle.ts_block.specs.Appending.{last_time};
ghost use Rattle.ts_block.specs.Decoding.{AreApartBy};
ghost use Rattle.ts_raw.specs.CodedPoints.{IsCoded, AreOrdered, AllEndBefore, IsBlockHandle, LastGrows, AreApart, IsLastBefore, CutFits, block_points_at, coded_points, blocks_at};
ghost use Rattle.ts_raw.specs.CodedBlocks.{HasRoom, HasSpare, AreSoundBlocks, IsStaged, KeepsCounts, points_of_blocks};
ghost use Rattle.ts_raw.specs.Rewriting.{IsEncoded};

use crate::block_handle::BlockHandle;
use crate::coded_blocks::CodedBlocks;
use std::alloc::Allocator;
use ts_block::{append, begin};
use ts_core::{Agg, Partial, Time};

/// Number of points that a block holds at most.
const BLOCK_POINTS: usize = 256;

/// Number of bytes that a point takes at most: a block's count, time and value, or a step and a value.
pub(crate) const POINT_BYTES: usize = 20;

/// Returns the number of blocks that end before a time. Compares the time with the last one first, then searches.
pub(crate) fn blocks_before(handles: &[BlockHandle], time: Time) -> usize
    requires { AreOrdered handles.now }
    ensures bound { result ≤ length handles.now }
    ensures parted { IsLastBefore time handles.now result }
{
    match handles.last() {
        Some(handle) if handle.last < time => handles.len(),
        _ => handles.partition_point(|handle| handle.last < time),
    }
}

/// Returns true if a block holds as many points as it can.
pub(crate) fn is_full(handle: &BlockHandle) -> bool
    ensures full { IsTrue result → 256 ≤ handle.now.count }
    ensures few { result ≡ false → handle.now.count < 256 }
{
    handle.count >= BLOCK_POINTS
}

/// Returns true if the last block can grow in place: it isn't full and ends the bytes, which number `size`.
pub(crate) fn can_grow(handles: &[BlockHandle], size: usize) -> bool
    ensures { IsTrue result ↔ LastGrows size handles.now }
{
    match handles.last() {
        Some(handle) => !is_full(handle) && handle.end == size,
        None => false,
    }
}

/// Returns the nanoseconds from each time of a block to the next if a later time is appended, or 0 if they differ.
fn spacing_after(handle: &BlockHandle, time: Time) -> u64
    requires { handle.now.last <ℤ time }
    ensures { (points : List (ℤ × ℤ)) (value : ℤ) → handle.now.count ≡ length points → handle.now.last
        ≡ last_time points → AreApartBy handle.now.spacing points → AreApartBy result (points ++ (time, value) ∷ []) }
{
    let distance = time.nanos().abs_diff(handle.last.nanos());
    if handle.count > 1 && handle.spacing != distance {
        return 0;
    }
    distance
}

/// Appends a point to the block that ends the bytes, in place. There must be capacity.
fn push_last<A: Allocator>(bytes: &mut Vec<u8, A>, handle: &mut BlockHandle, point: &(Time, i64))
    requires marked { IsBlockHandle bytes.old.items handle.old }
    requires later { handle.old.last <ℤ point.now.0 }
    requires few { handle.old.count < 256 }
    requires ends { handle.old.end ≡ vec_len bytes.old }
    requires spare { vec_len bytes.old + 20 ≤ vec_capacity bytes.old }
    ensures kept { take handle.old.start bytes.new.items ≡ take handle.old.start bytes.old.items }
    ensures block { IsEncoded handle.old.start bytes.new.items handle.new
        (block_points_at bytes.old.items handle.old ++ point.now ∷ []) }
{
    let spacing = spacing_after(handle, point.0);
    let values = append(
        bytes,
        handle.start,
        handle.start + handle.values,
        handle.last,
        point,
    );
    handle.values = values - handle.start;
    handle.end = bytes.len();
    handle.count += 1;
    handle.last = point.0;
    handle.spacing = spacing;
    handle.summary = handle.summary.merge(Agg::single(point.0, point.1));
}

impl<A: Allocator> CodedBlocks<A> {
    /// Appends a point as a block of its own. There must be capacity.
    #[cold]
    fn push_block(&mut self, point: &(Time, i64))
        requires coded { IsCoded self.old.bytes.items self.old.handles.items }
        requires apart { AreApart self.old.handles.items }
        requires later { AllEndBefore self.old.handles.items point.now.0 }
        requires spare { HasSpare 20 self.old }
        requires handles_spare { vec_len self.old.handles < vec_capacity self.old.handles }
        ensures coded { IsCoded self.new.bytes.items self.new.handles.items }
        ensures apart { AreApart self.new.handles.items }
        ensures points { coded_points self.new.bytes.items self.new.handles.items
            ≡ coded_points self.old.bytes.items self.old.handles.items ++ point.now ∷ [] }
        ensures counts { KeepsCounts self.old self.new }
        ensures blocks { blocks_at self.new.bytes.items self.new.handles.items
            ≡ blocks_at self.old.bytes.items self.old.handles.items ++ ((point.now ∷ []) ∷ []) }
    {
        let start = self.bytes.len();
        begin(&mut self.bytes, point);
        let handle = BlockHandle {
            start,
            values: 9,
            end: self.bytes.len(),
            count: 1,
            last: point.0,
            spacing: 0,
            summary: Agg::single(point.0, point.1),
        };
        self.handles.push_reserved(handle);
    }

    /// Appends a point after all others, to the last block if it can grow in place, else as a block of its own. There
    /// must be capacity.
    fn push_later(&mut self, point: &(Time, i64))
        requires coded { IsCoded self.old.bytes.items self.old.handles.items }
        requires apart { AreApart self.old.handles.items }
        requires later { AllEndBefore self.old.handles.items point.now.0 }
        requires room { HasRoom self.old }
        ensures coded { IsCoded self.new.bytes.items self.new.handles.items }
        ensures apart { AreApart self.new.handles.items }
        ensures points { coded_points self.new.bytes.items self.new.handles.items
            ≡ coded_points self.old.bytes.items self.old.handles.items ++ point.now ∷ [] }
        ensures counts { KeepsCounts self.old self.new }
        ensures cut { (cut : ℕ) → CutFits cut (blocks_at self.old.bytes.items self.old.handles.items)
            → CutFits cut (blocks_at self.new.bytes.items self.new.handles.items) }
    {
        if !can_grow(self.handles.as_slice(), self.bytes.len()) {
            self.push_block(point);
            return;
        }
        let at = self.handles.len() - 1;
        push_last(&mut self.bytes, &mut self.handles[at], point);
    }

    /// Appends a staged point after all others.
    pub(crate) fn append(&mut self, point: &(Time, i64))
        requires sound { AreSoundBlocks self.old }
        requires staged { IsStaged self.old point.now None }
        ensures sound { AreSoundBlocks self.new }
        ensures points { points_of_blocks self.new ≡ points_of_blocks self.old ++ point.now ∷ [] }
    {
        self.push_later(point);
        self.total += 1;
    }
}
