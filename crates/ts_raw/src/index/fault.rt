//! Errors of the registration of series, with their messages.
ghost use Rattle.std.specs.Prelude.{◌≡◌};
ghost use Rattle.ts_core.specs.text.FaultTexts.{IsAppended};
ghost use Rattle.ts_raw.specs.IndexFaultTexts.{index_fault_text};
ghost use Rattle.ts_raw.specs.declared.index.fault.IndexFault.TheVariants.{OutOfMemory};

use std::alloc::{AllocError, Allocator};
use thiserror::Error;
use ts_core::{FaultCode, FaultDetail};

/// Error of the registration of a series.
#[derive(Clone, Copy, Debug, PartialEq, Eq, Error)]
pub enum IndexFault {
    /// As many series are registered as the limit allows.
    #[error("{}", FaultCode::TooManySeries.message())]
    TooManySeries,
    /// Out of memory.
    #[error("out of memory")]
    OutOfMemory,
}

impl IndexFault {
    /// Appends the message to `text`. When out of memory, `text` may end in part of the message. Does not allocate if
    /// `text` has the capacity.
    #[tactic(auto, unfolding(crate::specs::IndexFaultTexts::index_fault_text))]
    pub fn text_to<A: Allocator>(&self, text: &mut String<A>) -> Result<(), AllocError>
        ensures { IsAppended (index_fault_text self.now) text.old text.new result }
    {
        match self {
            IndexFault::TooManySeries => FaultCode::TooManySeries.text_to(FaultDetail::Alone, text),
            IndexFault::OutOfMemory => text.push_str("fault memory"),
        }
    }
}

impl From<AllocError> for IndexFault {
    ghost from_gives = { λ _ e. e ≡ OutOfMemory };

    fn from(_error: AllocError) -> IndexFault {
        IndexFault::OutOfMemory
    }
}
