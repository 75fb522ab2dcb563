//! Errors of writes and of the start of a retention run, with their messages.
ghost use Rattle.std.specs.Prelude.{◌≡◌, ◌≤◌, length};
ghost use Rattle.ts_core.specs.text.FaultTexts.{IsAppended};
ghost use Rattle.ts_store.specs.write.StoreFaultTexts.{write_fault_text, run_in_progress_text};

use std::alloc::{AllocError, Allocator};
use thiserror::Error;
use ts_core::{FaultCode, FaultDetail, Time};

/// Error of a write.
#[derive(Clone, Copy, Debug, PartialEq, Eq, Error)]
pub enum WriteFault {
    /// Line with a time below the raw mark, which is attached.
    #[error("{}: {}", FaultCode::BelowRawMark.message(), .0.nanos())]
    BelowRawMark(Time),
    /// New series while 1,000,000 are registered.
    #[error("{}", FaultCode::TooManySeries.message())]
    TooManySeries,
    /// More than 2^62 accepted facts, including repeats.
    #[error("{}", FaultCode::TooManyFacts.message())]
    TooManyFacts,
    /// Out of memory.
    #[error("out of memory")]
    OutOfMemory,
}

impl WriteFault {
    /// Appends the message to `text`. When out of memory, `text` may end in part of the message. Does not allocate if
    /// `text` has the capacity.
    #[tactic(auto, using(crate::proofs::write::StoreFaultLemmas::below_mark_short), unfolding(crate::specs::write::StoreFaultTexts::write_fault_text))]
    pub fn text_to<A: Allocator>(&self, text: &mut String<A>) -> Result<(), AllocError>
        ensures appended { IsAppended (write_fault_text self.now) text.old text.new result }
        ensures short { length (write_fault_text self.now) ≤ 34 }
    {
        match self {
            WriteFault::BelowRawMark(mark) => {
                FaultCode::BelowRawMark.text_to(FaultDetail::Mark(mark.nanos()), text)
            }
            WriteFault::TooManySeries => FaultCode::TooManySeries.text_to(FaultDetail::Alone, text),
            WriteFault::TooManyFacts => FaultCode::TooManyFacts.text_to(FaultDetail::Alone, text),
            WriteFault::OutOfMemory => text.push_str("fault memory"),
        }
    }
}

impl From<AllocError> for WriteFault {
    ghost use Rattle.std.specs.Prelude.{◌≡◌};
    ghost use Rattle.ts_store.specs.declared.write.fault.WriteFault.TheVariants.{OutOfMemory};

    ghost from_gives = { λ _ f. f ≡ OutOfMemory };

    fn from(_e: AllocError) -> WriteFault {
        WriteFault::OutOfMemory
    }
}

/// Error: a retention run is in progress.
#[derive(Clone, Copy, Debug, PartialEq, Eq, Error)]
#[error("{}", FaultCode::RunInProgress.message())]
pub struct RunInProgress;

impl RunInProgress {
    /// Appends the message to `text`. When out of memory, `text` may end in part of the message. Does not allocate if
    /// `text` has the capacity.
    pub fn text_to<A: Allocator>(&self, text: &mut String<A>) -> Result<(), AllocError>
        ensures { IsAppended run_in_progress_text text.old text.new result }
    {
        FaultCode::RunInProgress.text_to(FaultDetail::Alone, text)
    }
}
