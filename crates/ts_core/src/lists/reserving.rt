//! Reserves capacity in lists that are many and small.
ghost use Rattle.std.specs.Prelude.{◌≡◌, ◌≤◌, ◌+◌, vec_len, vec_capacity, OnOk};

use std::alloc::{AllocError, Allocator};

/// Reserves capacity for `more` items. Grows by an eighth, or by `more` if that is greater, so at most a ninth of the
/// capacity is unused.
pub fn reserve_eighth<T, A: Allocator>(list: &mut Vec<T, A>, more: usize) -> Result<(), AllocError>
    ensures items { list.new.items ≡ list.old.items }
    ensures spare { OnOk result (vec_len list.new + more ≤ vec_capacity list.new) }
{
    if more <= list.capacity() - list.len() {
        return Ok(());
    }
    list.reserve_exact(more.max(list.len() / 8))
}
