//! The bytes of a column's coded blocks.
ghost use Rattle.std.specs.Prelude.{◌≡◌, ◌≤◌, length, slice_get, Some, None, IfSome};
ghost use Rattle.ts_raw.specs.BlockColumns.{texts_at, points_in_texts};
ghost use Rattle.ts_raw.specs.CodedPoints.{AreCountedBlocks};

use crate::block_handle::BlockHandle;
use crate::walk::text_of;
use std::marker::Model;

/// The bytes of a column's coded blocks, in the order of time; its model is the list of them. `total` is the number of
/// their points.
#[derive(Drop)]
pub struct Blocks<'a> {
    bytes: &'a [u8],
    handles: &'a [BlockHandle],
    total: usize,
}

impl<'a> Model for Blocks<'a> {
    ghost use Rattle.std.specs.Prelude.{ℕ, List};
    ghost use Rattle.ts_raw.specs.BlockColumns.{texts_at};
    ghost use Rattle.ts_raw.specs.CodedPoints.{AreCountedBlocks};

    ghost Value = { List (List ℕ) };

    ghost view = { λ b. texts_at b.bytes.now b.handles.now };

    ghost invariant = { λ b. AreCountedBlocks b.bytes.now b.handles.now b.total };
}

impl<'a> Blocks<'a> {
    /// Returns the blocks of the handles, which have `total` points.
    pub(crate) fn new(bytes: &'a [u8], handles: &'a [BlockHandle], total: usize) -> Blocks<'a>
        requires { AreCountedBlocks bytes.now handles.now total }
        ensures { result ≡ texts_at bytes.now handles.now }
    {
        Blocks {
            bytes,
            handles,
            total,
        }
    }

    /// Returns the number of blocks.
    pub fn len(&self) -> usize
        ensures { result ≡ length self.now }
    {
        self.handles.len()
    }

    /// Returns the number of points of all blocks, in constant time.
    pub fn points(&self) -> usize
        ensures { result ≡ points_in_texts self.now }
    {
        self.total
    }

    /// Returns the bytes of the block at an index.
    pub fn get(&self, index: usize) -> Option<&'a [u8]>
        ensures some { IfSome result (λ block. slice_get self.now index ≡ Some block.now) }
        ensures none { result ≡ None → length self.now ≤ index }
    {
        let handle = self.handles.get(index)?;
        Some(text_of(self.bytes, handle))
    }
}
