//! Copies coded blocks: the last one to the end of the bytes, where it can grow, or all into new bytes without gaps.
ghost use Rattle.std.specs.Prelude.{◌≡◌, ◌≤◌, IfOk, OnOk};
ghost use Rattle.ts_raw.specs.CodedPoints.{AreBlocks, AreApart, blocks_at};
ghost use Rattle.ts_raw.specs.CodedBlocks.{AreLaid, AreSame, HasSpare};
ghost use Rattle.ts_raw.specs.Sliding.{bytes_in_blocks};

use crate::block_handle::BlockHandle;
use crate::coded_blocks::CodedBlocks;
use crate::walk::text_of;
use std::alloc::{AllocError, Allocator};
use ts_core::reserve_eighth;

/// Returns the number of bytes of all blocks.
pub(crate) fn blocks_size(handles: &[BlockHandle]) -> usize
    ensures { result ≤ bytes_in_blocks handles.now }
{
    let mut size: usize = 0;
    for handle in handles {
        size = size.saturating_add(handle.end.saturating_sub(handle.start));
    }
    size
}

/// Copies the blocks into new bytes, in the order of time.
fn copy_blocks<A: Allocator + Copy>(
    alloc: A,
    bytes: &[u8],
    handles: &[BlockHandle],
    size: usize,
) -> Result<(Vec<u8, A>, Vec<BlockHandle, A>), AllocError>
    requires { AreBlocks bytes.now handles.now }
    ensures marked { IfOk result (λ new. AreBlocks new.0.items new.1.items) }
    ensures apart { IfOk result (λ new. AreApart new.1.items) }
    ensures blocks { IfOk result (λ new. blocks_at new.0.items new.1.items ≡ blocks_at bytes.now handles.now) }
{
    let mut new_bytes = Vec::with_capacity(alloc, size)?;
    let mut new_handles = Vec::with_capacity(alloc, handles.len())?;
    for handle in handles {
        let start = new_bytes.len();
        new_bytes.extend_from_slice(text_of(bytes, handle))?;
        let copy = BlockHandle {
            start,
            end: new_bytes.len(),
            ..*handle
        };
        new_handles.push(copy)?;
    }
    Ok((new_bytes, new_handles))
}

impl<A: Allocator> CodedBlocks<A> {
    /// Copies the last block to the end of the bytes, so that it can grow in place.
    pub(crate) fn move_last(&mut self) -> Result<(), AllocError>
        requires laid { AreLaid self.old }
        ensures same { AreSame self.old self.new }
    {
        let Some(handle) = self.handles.last() else {
            return Ok(());
        };
        reserve_eighth(&mut self.bytes, handle.end - handle.start)?;
        let start = self.bytes.len();
        let handle = self.handles.pop().unwrap();
        self.bytes
            .extend_from_within(handle.start..handle.end)
            .unwrap();
        let moved = BlockHandle {
            start,
            end: self.bytes.len(),
            ..handle
        };
        self.handles.push(moved).unwrap();
        Ok(())
    }
}

impl<A: Allocator + Copy> CodedBlocks<A> {
    /// Copies the blocks into new bytes without gaps, which will number `size`.
    fn compact(&mut self, size: usize) -> Result<(), AllocError>
        requires laid { AreLaid self.old }
        ensures same { AreSame self.old self.new }
    {
        let alloc = *self.bytes.allocator();
        let (bytes, handles) = copy_blocks(
            alloc,
            self.bytes.as_slice(),
            self.handles.as_slice(),
            size,
        )?;
        self.bytes = bytes;
        self.handles = handles;
        Ok(())
    }

    /// Adds capacity for `size` bytes. If more than a quarter of the bytes is of no block, the blocks are copied into
    /// new bytes without gaps, with capacity for half as many more: so the copied bytes are few by comparison with
    /// those that came in between.
    #[cold]
    fn add_capacity(&mut self, size: usize) -> Result<(), AllocError>
        requires laid { AreLaid self.old }
        ensures same { AreSame self.old self.new }
        ensures spare { OnOk result (HasSpare size self.new) }
    {
        let used = blocks_size(self.handles.as_slice());
        if self.bytes.len() - used.min(self.bytes.len()) > self.bytes.len() / 4 {
            self.compact(used.saturating_add(used / 2))?;
        }
        reserve_eighth(&mut self.bytes, size)
    }

    /// Reserves capacity for `size` bytes.
    #[inline]
    pub(crate) fn reserve_bytes(&mut self, size: usize) -> Result<(), AllocError>
        requires laid { AreLaid self.old }
        ensures same { AreSame self.old self.new }
        ensures spare { OnOk result (HasSpare size self.new) }
    {
        if self.bytes.capacity() - self.bytes.len() >= size {
            return Ok(());
        }
        self.add_capacity(size)
    }
}
