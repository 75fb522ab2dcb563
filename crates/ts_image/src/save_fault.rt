//! Errors of saving an image.
ghost use Rattle.ts_core.specs.text.FaultTexts.{IsAppended};
ghost use Rattle.ts_image.specs.ImageFaultTexts.{save_fault_text};

use std::alloc::{AllocError, Allocator};
use thiserror::Error;
use ts_core::{FaultCode, FaultDetail, Refused};

/// Error of saving an image.
#[derive(Clone, Copy, Debug, PartialEq, Eq, Error)]
pub enum SaveFault {
    /// A write failed. A prefix of the image was written.
    #[error("{}", FaultCode::ImageDevice.message())]
    Device,
    /// Out of memory. Nothing was written.
    #[error("out of memory")]
    OutOfMemory,
}

impl From<AllocError> for SaveFault {
    ghost use Rattle.std.specs.Prelude.{◌≡◌};
    ghost use Rattle.ts_image.specs.declared.save_fault.SaveFault.TheVariants.{OutOfMemory};

    ghost from_gives = { λ _ e. e ≡ OutOfMemory };

    fn from(_e: AllocError) -> SaveFault {
        SaveFault::OutOfMemory
    }
}

impl From<Refused> for SaveFault {
    ghost use Rattle.std.specs.Prelude.{◌≡◌};
    ghost use Rattle.ts_image.specs.declared.save_fault.SaveFault.TheVariants.{Device};

    ghost from_gives = { λ _ e. e ≡ Device };

    fn from(_e: Refused) -> SaveFault {
        SaveFault::Device
    }
}

impl SaveFault {
    /// Appends the message to `text`. When out of memory, `text` may end in part of the message. Does not allocate if
    /// `text` has the capacity.
    #[tactic(auto, unfolding(crate::specs::ImageFaultTexts::save_fault_text))]
    pub fn text_to<A: Allocator>(&self, text: &mut String<A>) -> Result<(), AllocError>
        ensures { IsAppended (save_fault_text self.now) text.old text.new result }
    {
        match self {
            SaveFault::Device => FaultCode::ImageDevice.text_to(FaultDetail::Alone, text),
            SaveFault::OutOfMemory => text.push_str("fault memory"),
        }
    }
}
