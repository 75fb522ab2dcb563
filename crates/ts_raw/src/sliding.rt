//! Slides coded blocks down in place, so that no bytes lie between them.
ghost use Rattle.std.specs.Prelude.{◌≡◌, ◌≤◌, ◌*◌, length, None, IfSome};
ghost use Rattle.ts_raw.specs.CodedBlocks.{AreLaid, AreSame};
ghost use Rattle.ts_raw.specs.Sliding.{IsNextBlock, AllStartBefore, bytes_in_blocks};

use crate::block_handle::BlockHandle;
use crate::coded_blocks::CodedBlocks;
use crate::relocating::blocks_size;
use std::alloc::Allocator;

/// Searches for the first block in the bytes that starts at an offset or after it. Returns its index.
#[cold]
fn search_next(handles: &[BlockHandle], from: usize) -> Option<usize>
    ensures next { IfSome result (λ at. IsNextBlock from handles.now at) }
    ensures none { result ≡ None → AllStartBefore from handles.now }
{
    let mut next: Option<(usize, usize)> = None;
    for (at, handle) in handles.iter().enumerate() {
        if handle.start < from {
            continue;
        }
        match next {
            None => next = Some((at, handle.start)),
            Some((_, start)) => {
                if handle.start < start {
                    next = Some((at, handle.start));
                }
            }
        }
    }
    let (at, _) = next?;
    Some(at)
}

/// Returns the index of the first block in the bytes that starts at an offset or after it. Tries the index `guess`
/// first: blocks that were appended follow one another.
fn next_block(handles: &[BlockHandle], from: usize, guess: usize) -> Option<usize>
    ensures next { IfSome result (λ at. IsNextBlock from handles.now at) }
    ensures none { result ≡ None → AllStartBefore from handles.now }
{
    match handles.get(guess) {
        Some(handle) if handle.start == from => Some(guess),
        _ => search_next(handles, from),
    }
}

impl<A: Allocator> CodedBlocks<A> {
    /// Slides the blocks down in place, in the order of their bytes, so that no bytes lie between them, and releases
    /// unused capacity. Needs no memory.
    #[cold]
    fn slide(&mut self)
        requires laid { AreLaid self.old }
        ensures same { AreSame self.old self.new }
        ensures packed { length self.new.bytes.items ≤ bytes_in_blocks self.new.handles.items }
    {
        let mut from = 0;
        let mut to = 0;
        let mut guess = 0;
        while let Some(at) = next_block(self.handles.as_slice(), from, guess) {
            let handle = self.handles[at];
            let end = to + (handle.end - handle.start);
            self.bytes
                .as_mut_slice()
                .copy_within(handle.start..handle.end, to);
            self.handles[at] = BlockHandle {
                start: to,
                end,
                ..handle
            };
            from = handle.end;
            to = end;
            guess = at + 1;
        }
        self.bytes.truncate(to);
        self.bytes.shrink_to_fit();
        self.handles.shrink_to_fit();
    }

    /// Slides the blocks down if more bytes are of no block than of blocks. Needs no memory.
    pub(crate) fn pack(&mut self)
        requires laid { AreLaid self.old }
        ensures same { AreSame self.old self.new }
        ensures few_dead { length self.new.bytes.items ≤ 2 * bytes_in_blocks self.new.handles.items }
    {
        let used = blocks_size(self.handles.as_slice());
        if self.bytes.len().saturating_sub(used) > used {
            self.slide();
        }
    }
}
