//! Errors of loading an image.
ghost use Rattle.std.specs.Prelude.{◌≡◌};
ghost use Rattle.ts_image.specs.declared.load_fault.LoadFault.TheVariants.{OutOfMemory};
ghost use Rattle.ts_core.specs.text.FaultTexts.{IsAppended};
ghost use Rattle.ts_image.specs.ImageFaultTexts.{load_fault_text};
ghost use Rattle.ts_image.specs.LoadFaults.{load_fault_of};

use crate::field_fault::FieldFault;
use std::alloc::{AllocError, Allocator};
use thiserror::Error;
use ts_core::{FaultCode, FaultDetail};

/// Error of loading an image.
#[derive(Clone, Copy, Debug, PartialEq, Eq, Error)]
pub enum LoadFault {
    /// The input doesn't begin as an image does.
    #[error("{}", FaultCode::NotAnImage.message())]
    NotAnImage,
    /// The image is of another version.
    #[error("{}", FaultCode::ImageVersion.message())]
    OtherVersion,
    /// The input isn't of the form of an image. The first field at fault begins at this offset.
    #[error("{}, at byte {}", FaultCode::BrokenImage.message(), .0)]
    Misshapen(u64),
    /// The image is of the form and contradicts itself.
    #[error("{}", FaultCode::ContradictoryImage.message())]
    Contradiction,
    /// A read failed.
    #[error("{}", FaultCode::ImageDevice.message())]
    Device,
    /// Limit of reads, reached without an end of input.
    #[error("{}", FaultCode::EndlessImage.message())]
    TooManyReads,
    /// Out of memory.
    #[error("out of memory")]
    OutOfMemory,
}

impl From<AllocError> for LoadFault {
    ghost from_gives = { λ _ e. e ≡ OutOfMemory };

    fn from(_e: AllocError) -> LoadFault {
        LoadFault::OutOfMemory
    }
}

impl From<FieldFault> for LoadFault {
    ghost from_gives = { λ f e. e ≡ load_fault_of f };

    fn from(fault: FieldFault) -> LoadFault {
        match fault {
            FieldFault::Misshapen(at) => LoadFault::Misshapen(at),
            FieldFault::Device => LoadFault::Device,
            FieldFault::TooManyReads => LoadFault::TooManyReads,
            FieldFault::OutOfMemory => LoadFault::OutOfMemory,
        }
    }
}

impl LoadFault {
    /// Appends the message to `text`. When out of memory, `text` may end in part of the message. Does not allocate if
    /// `text` has the capacity.
    #[tactic(auto, unfolding(crate::specs::ImageFaultTexts::load_fault_text))]
    pub fn text_to<A: Allocator>(&self, text: &mut String<A>) -> Result<(), AllocError>
        ensures { IsAppended (load_fault_text self.now) text.old text.new result }
    {
        let (code, detail) = match self {
            LoadFault::NotAnImage => (FaultCode::NotAnImage, FaultDetail::Alone),
            LoadFault::OtherVersion => (FaultCode::ImageVersion, FaultDetail::Alone),
            LoadFault::Misshapen(at) => (FaultCode::BrokenImage, FaultDetail::At(*at as usize)),
            LoadFault::Contradiction => (FaultCode::ContradictoryImage, FaultDetail::Alone),
            LoadFault::Device => (FaultCode::ImageDevice, FaultDetail::Alone),
            LoadFault::TooManyReads => (FaultCode::EndlessImage, FaultDetail::Alone),
            LoadFault::OutOfMemory => return text.push_str("fault memory"),
        };
        code.text_to(detail, text)
    }
}
