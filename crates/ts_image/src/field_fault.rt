//! Errors of reading a field.
ghost use Rattle.std.specs.Prelude.{◌≡◌};
ghost use Rattle.ts_image.specs.declared.field_fault.FieldFault.TheVariants.{OutOfMemory};

use std::alloc::{AllocError, AllocFailed};

/// Error of reading a field.
#[derive(Clone, Copy, Debug, Drop)]
pub(crate) enum FieldFault {
    /// The input ends in the field, or it isn't UTF-8. The field begins at this offset.
    Misshapen(u64),
    /// A read failed.
    Device,
    /// Limit of reads, reached without an end of input.
    TooManyReads,
    /// Out of memory.
    OutOfMemory,
}

impl From<AllocError> for FieldFault {
    ghost from_gives = { λ _ e. e ≡ OutOfMemory };

    fn from(_e: AllocError) -> FieldFault {
        FieldFault::OutOfMemory
    }
}

impl<T: Drop> From<AllocFailed<T>> for FieldFault {
    ghost from_gives = { λ _ e. e ≡ OutOfMemory };

    fn from(_e: AllocFailed<T>) -> FieldFault {
        FieldFault::OutOfMemory
    }
}
