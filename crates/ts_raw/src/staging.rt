//! Stages a point: allocates all that its insertion needs.
ghost use Rattle.std.specs.Prelude.{◌≡◌, ◌<◌, ◌≤◌, length, vec_len, vec_capacity, option_map, IfOk, OnOk};
ghost use Rattle.ts_raw.specs.CodedPoints.{blocks_at, IsLastBefore, CutFits};
ghost use Rattle.ts_raw.specs.CodedBlocks.{AreLaid, AreSame, HasSpare, HasRoom, AreSoundBlocks, IsStaged};
ghost use Rattle.ts_raw.specs.Rewriting.{IsRewritten};

use crate::appending::{POINT_BYTES, blocks_before, can_grow, is_full};
use crate::block_handle::BlockHandle;
use crate::coded_blocks::CodedBlocks;
use crate::rewriting::{Rewritten, cut_of, rewrite};
use std::alloc::{AllocError, Allocator};
use ts_core::{Time, reserve_eighth};

/// Returns about as many bytes as the copy of a point's block takes with the point.
#[cold]
fn needed_among(handles: &[BlockHandle], time: Time) -> usize
    ensures { 20 ≤ result }
{
    let at = handles.partition_point(|handle| handle.last < time);
    let size = match handles.get(at) {
        Some(handle) => handle.end.saturating_sub(handle.start),
        None => 0,
    };
    size.saturating_add(2 * POINT_BYTES)
}

/// Returns about as many bytes as a point takes: if its block is to be copied, those of the block.
fn needed_bytes(handles: &[BlockHandle], time: Time) -> usize
    ensures { 20 ≤ result }
{
    match handles.last() {
        Some(last) if last.last >= time => needed_among(handles, time),
        _ => POINT_BYTES,
    }
}

impl<A: Allocator> CodedBlocks<A> {
    /// Moves the last block to the end of the bytes if it isn't full and can't grow where it is. Keeps capacity for a
    /// point.
    fn open_last(&mut self) -> Result<(), AllocError>
        requires laid { AreLaid self.old }
        requires spare { HasSpare 20 self.old }
        ensures same { AreSame self.old self.new }
        ensures spare { OnOk result (HasSpare 20 self.new) }
    {
        let Some(handle) = self.handles.last() else {
            return Ok(());
        };
        if is_full(handle) || handle.end == self.bytes.len() {
            return Ok(());
        }
        self.move_last()?;
        reserve_eighth(&mut self.bytes, POINT_BYTES)
    }

    /// Reserves capacity for a handle if a point after all others will be a block of its own.
    fn stage_last(&mut self) -> Result<(), AllocError>
        requires laid { AreLaid self.old }
        requires spare { HasSpare 20 self.old }
        ensures same { AreSame self.old self.new }
        ensures room { OnOk result (HasRoom self.new) }
    {
        self.open_last()?;
        if can_grow(self.handles.as_slice(), self.bytes.len()) {
            return Ok(());
        }
        reserve_eighth(&mut self.handles, 1)
    }
}

impl<A: Allocator + Copy> CodedBlocks<A> {
    /// Encodes the block of a point anew. `at` is the index of the first block that doesn't end before the point.
    fn stage_among(&mut self, at: usize, point: &(Time, i64)) -> Result<Rewritten, AllocError>
        requires laid { AreLaid self.old }
        requires cut { CutFits self.old.cut (blocks_at self.old.bytes.items self.old.handles.items) }
        requires at { IsLastBefore point.now.0 self.old.handles.items at }
        requires within { at < length self.old.handles.items }
        ensures same { AreSame self.old self.new }
        ensures spare { OnOk result (vec_len self.new.handles < vec_capacity self.new.handles) }
        ensures rewritten { IfOk result
            (λ new. IsRewritten self.new.bytes.items self.new.handles.items self.new.cut point.now new) }
    {
        reserve_eighth(&mut self.handles, 1)?;
        let handle = self.handles[at];
        rewrite(&mut self.bytes, &handle, at, cut_of(at, self.cut), point)
    }

    /// As `stage_among`, with the new blocks in a box.
    #[cold]
    fn stage_boxed(
        &mut self,
        at: usize,
        point: &(Time, i64),
    ) -> Result<Box<Rewritten, A>, AllocError>
        requires laid { AreLaid self.old }
        requires cut { CutFits self.old.cut (blocks_at self.old.bytes.items self.old.handles.items) }
        requires at { IsLastBefore point.now.0 self.old.handles.items at }
        requires within { at < length self.old.handles.items }
        ensures same { AreSame self.old self.new }
        ensures spare { OnOk result (vec_len self.new.handles < vec_capacity self.new.handles) }
        ensures rewritten { IfOk result
            (λ new. IsRewritten self.new.bytes.items self.new.handles.items self.new.cut point.now new.value) }
    {
        let new = self.stage_among(at, point)?;
        let alloc = *self.bytes.allocator();
        Ok(Box::new(alloc, new)?)
    }

    /// Stages a point: reserves the capacity to append it, or copies its block with the point and returns the new
    /// blocks.
    pub(crate) fn stage(
        &mut self,
        point: (Time, i64),
    ) -> Result<Option<Box<Rewritten, A>>, AllocError>
        requires sound { AreSoundBlocks self.old }
        ensures same { AreSame self.old self.new }
        ensures staged { IfOk result (λ new. IsStaged self.new point (option_map (λ b. b.value) new)) }
    {
        if self.total == usize::MAX {
            return Err(AllocError);
        }
        let needed = needed_bytes(self.handles.as_slice(), point.0);
        self.reserve_bytes(needed)?;
        let at = blocks_before(self.handles.as_slice(), point.0);
        if at == self.handles.len() {
            self.stage_last()?;
            return Ok(None);
        }
        let new = self.stage_boxed(at, &point)?;
        Ok(Some(new))
    }
}
