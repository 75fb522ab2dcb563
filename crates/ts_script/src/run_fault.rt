//! Errors that stop a script.
ghost use Rattle.std.specs.Prelude.{◌≡◌};
ghost use Rattle.ts_core.specs.text.FaultTexts.{IsAppended};
ghost use Rattle.ts_script.specs.RunFaults.{run_fault_code, run_fault_text};

use std::alloc::{AllocError, Allocator};
use thiserror::Error;
use ts_core::{FaultCode, FaultDetail, ReadFault, Refused};

/// Error that stops a script before its end.
#[derive(Clone, Copy, Debug, PartialEq, Eq, Error)]
pub enum RunFault {
    /// Out of memory when allocating the buffers.
    #[error("out of memory")]
    OutOfMemory,
    /// Reading standard input failed.
    #[error("{}", FaultCode::ReaderFailed.message())]
    Reader,
    /// Writing standard output failed.
    #[error("{}", FaultCode::WriterFailed.message())]
    Writer,
    /// Input without an end within 2^32 reads.
    #[error("{}", FaultCode::EndlessScript.message())]
    TooManyReads,
}

impl RunFault {
    /// Returns the code of this fault in the common table of faults. Out of memory has none.
    pub fn code(self) -> Option<FaultCode>
        ensures { result ≡ run_fault_code self }
    {
        match self {
            RunFault::OutOfMemory => None,
            RunFault::Reader => Some(FaultCode::ReaderFailed),
            RunFault::Writer => Some(FaultCode::WriterFailed),
            RunFault::TooManyReads => Some(FaultCode::EndlessScript),
        }
    }

    /// Appends the message to `text`. When out of memory, `text` may end in part of the message. Does not allocate if
    /// `text` has the capacity.
    pub fn text_to<A: Allocator>(&self, text: &mut String<A>) -> Result<(), AllocError>
        ensures { IsAppended (run_fault_text self.now) text.old text.new result }
    {
        match self.code() {
            Some(code) => code.text_to(FaultDetail::Alone, text),
            None => text.push_str("fault memory"),
        }
    }
}

impl From<AllocError> for RunFault {
    ghost use Rattle.std.specs.Prelude.{◌≡◌};
    ghost use Rattle.ts_script.specs.declared.run_fault.RunFault.TheVariants.{OutOfMemory};

    ghost from_gives = { λ _ e. e ≡ OutOfMemory };

    fn from(_e: AllocError) -> RunFault {
        RunFault::OutOfMemory
    }
}

impl From<ReadFault> for RunFault {
    ghost use Rattle.std.specs.Prelude.{◌≡◌};
    ghost use Rattle.ts_script.specs.RunFaults.{fault_of_read};

    ghost from_gives = { λ f e. e ≡ fault_of_read f };

    fn from(fault: ReadFault) -> RunFault {
        match fault {
            ReadFault::Device => RunFault::Reader,
            ReadFault::TooManyReads => RunFault::TooManyReads,
        }
    }
}

impl From<Refused> for RunFault {
    ghost use Rattle.std.specs.Prelude.{◌≡◌};
    ghost use Rattle.ts_script.specs.declared.run_fault.RunFault.TheVariants.{Writer};

    ghost from_gives = { λ _ e. e ≡ Writer };

    fn from(_e: Refused) -> RunFault {
        RunFault::Writer
    }
}
