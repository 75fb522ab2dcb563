//! Keeps the coded blocks of a column, with their bytes.
ghost use Rattle.std.specs.Prelude.{◌≡◌, ◌+◌, ◌*◌, ◌≤◌, ◌<ℤ◌, int_le, length, drop, filter, IsTrue};
ghost use Rattle.std.specs.List.{AllByRecursion};
ghost use Rattle.ts_core.specs.facts.Facts.{is_within};
ghost use Rattle.ts_raw.specs.CodedBlocks.{AreNone, AreSoundBlocks, points_of_blocks};
ghost use Rattle.ts_raw.specs.CodedPoints.{IsCoded, CutFits, coded_points, blocks_at};
ghost use Rattle.ts_raw.specs.Columns.{AreTimed};
ghost use Rattle.ts_raw.specs.Sliding.{bytes_in_blocks};

use crate::block_handle::BlockHandle;
use crate::coded::{count_of, position, walk};
use crate::rewriting::remove_front;
use crate::walk::BlockWalk;
use std::alloc::Allocator;
use ts_core::Time;

/// Coded blocks: all their bytes, and a handle per block, in the order of time. No two blocks share bytes. They have
/// `total` points; the first `cut` of them, all in the first block, were removed.
#[derive(Drop)]
pub(crate) struct CodedBlocks<A: Allocator> {
    pub(crate) bytes: Vec<u8, A>,
    pub(crate) handles: Vec<BlockHandle, A>,
    pub(crate) total: usize,
    pub(crate) cut: usize,
}

/// Returns the points from `from`, inclusive, to `to`, exclusive (nanoseconds), without the first `cut`.
fn between<'a>(
    bytes: &'a [u8],
    handles: &'a [BlockHandle],
    cut: usize,
    from: i64,
    to: i64,
) -> BlockWalk<'a>
    requires coded { IsCoded bytes.now handles.now }
    requires few { length (coded_points bytes.now handles.now) ≤ 18446744073709551615 }
    requires cut { CutFits cut (blocks_at bytes.now handles.now) }
    ensures points { result ≡ filter (λ p. is_within from to p.0) (drop cut (coded_points bytes.now handles.now)) }
    ensures timed { AreTimed result }
{
    let (at, skip) = position(bytes, handles, cut, from);
    let (end, rest) = position(bytes, handles, cut, to);
    if end < at {
        return BlockWalk::none();
    }
    let count = (count_of(&handles[at..end]) + rest).saturating_sub(skip);
    walk(bytes, &handles[at..], skip, count)
}

impl<A: Allocator> CodedBlocks<A> {
    /// Creates an empty list of blocks. Does not allocate.
    pub(crate) fn new(alloc: A) -> CodedBlocks<A>
    where
        A: Copy,
        ensures none { AreNone result }
    {
        CodedBlocks {
            bytes: Vec::new(alloc),
            handles: Vec::new(alloc),
            total: 0,
            cut: 0,
        }
    }

    /// Returns the number of points.
    pub(crate) fn live(&self) -> usize
        requires sound { AreSoundBlocks self.now }
        ensures { result ≡ length (points_of_blocks self.now) }
    {
        self.total - self.cut
    }

    /// Returns true if all points are before a time.
    #[inline]
    pub(crate) fn end_before(&self, time: Time) -> bool
        requires sound { AreSoundBlocks self.now }
        ensures { IsTrue result → AllByRecursion (λ p. p.0 <ℤ time) (points_of_blocks self.now) }
    {
        match self.handles.last() {
            Some(handle) => handle.last < time,
            None => true,
        }
    }

    /// Returns all points in the order of time.
    pub(crate) fn every(&self) -> BlockWalk<'_>
        requires sound { AreSoundBlocks self.now }
        ensures { result ≡ points_of_blocks self.now }
    {
        let count = self.live();
        walk(
            self.bytes.as_slice(),
            self.handles.as_slice(),
            self.cut,
            count,
        )
    }

    /// Returns the points from `from`, inclusive, to `to`, exclusive (nanoseconds).
    pub(crate) fn window(&self, from: i64, to: i64) -> BlockWalk<'_>
        requires sound { AreSoundBlocks self.now }
        ensures points { result ≡ filter (λ p. is_within from to p.0) (points_of_blocks self.now) }
        ensures timed { AreTimed result }
    {
        // For the proof: the number of points fits 64 bits.
        let _total = self.total;
        between(
            self.bytes.as_slice(),
            self.handles.as_slice(),
            self.cut,
            from,
            to,
        )
    }
}

impl<A: Allocator + Copy> CodedBlocks<A> {
    /// Removes all points, and frees their memory.
    fn clear(&mut self)
        ensures none { AreNone self.new }
    {
        let alloc = *self.bytes.allocator();
        *self = CodedBlocks::new(alloc);
    }

    /// Removes the points before a time in nanoseconds. Afterwards at most half of the bytes are of no block. Needs no
    /// memory.
    pub(crate) fn drop_below(&mut self, time: i64)
        requires sound { AreSoundBlocks self.old }
        ensures sound { AreSoundBlocks self.new }
        ensures points { points_of_blocks self.new ≡ filter (λ p. int_le time p.0) (points_of_blocks self.old) }
        ensures few_dead { length self.new.bytes.items ≤ 2 * bytes_in_blocks self.new.handles.items }
    {
        let (at, cut) = position(
            self.bytes.as_slice(),
            self.handles.as_slice(),
            self.cut,
            time,
        );
        if at == self.handles.len() {
            self.clear();
            return;
        }
        self.cut = cut;
        self.total = remove_front(&mut self.handles, self.total, at);
        self.pack();
    }
}
