//! 32-bit indices, assigned in creation order.
ghost use Rattle.std.specs.Prelude.{◌≡◌, ◌≤◌, IfOk, OnErr};

use std::alloc::AllocError;

/// Converts a list's length to the 32-bit index of its next entry. Returns `AllocError` if it doesn't fit 32 bits.
pub fn next_id(len: usize) -> Result<u32, AllocError>
    ensures ok { IfOk result (λ n. n ≡ len) }
    ensures err { OnErr result (4_294_967_296 ≤ len) }
{
    let Ok(number) = u32::try_from(len) else {
        return Err(AllocError);
    };
    Ok(number)
}
