//! Error of a certificate's text, with its byte offset and its message.
ghost use Rattle.std.specs.Prelude.{◌≡◌, ◌≤◌, length};
ghost use Rattle.ts_core.specs.text.FaultTexts.{IsAppended};
ghost use Rattle.ts_check.specs.CheckTexts.{certificate_fault_text, read_certificate_error_text};
ghost use Rattle.ts_check.specs.declared.certificate_fault.ReadCertificateError.TheVariants as errors;

use std::alloc::{AllocError, AllocFailed, Allocator};
use thiserror::Error;
use ts_core::{FaultCode, FaultDetail, push_all};

/// Malformed certificate.
#[derive(Clone, Copy, Debug, PartialEq, Eq, Error)]
#[error("{}, at byte {at}", self.code().message())]
pub struct CertificateFault {
    /// Byte offset, from 0, of the first malformed line. If the text stops after whole lines but before `end`, its
    /// length.
    pub at: usize,
}

impl CertificateFault {
    /// Returns the code of this error in the common table of faults.
    pub fn code(&self) -> FaultCode
        ensures { result ≡ FaultCode.BadCertificate }
    {
        FaultCode::BadCertificate
    }

    /// Appends the message to `text`. When out of memory, `text` may end in part of the message. Does not allocate if
    /// `text` has the capacity; a message has at most 32 bytes.
    #[tactic(auto, using(crate::proofs::FaultLemmas::certificate_fault_text_short), unfolding(crate::specs::CheckTexts::certificate_fault_text))]
    pub fn text_to<A: Allocator>(&self, text: &mut String<A>) -> Result<(), AllocError>
        ensures appended { IsAppended (certificate_fault_text self.now) text.old text.new result }
        ensures short { length (certificate_fault_text self.now) ≤ 32 }
    {
        self.code().text_to(FaultDetail::at(self.at), text)
    }
}

/// Error of `read_certificate`.
#[derive(Clone, Copy, Debug, PartialEq, Eq, Error)]
pub enum ReadCertificateError {
    /// Malformed certificate.
    #[error(transparent)]
    Fault(CertificateFault),
    /// Out of memory.
    #[error("out of memory")]
    OutOfMemory,
}

impl From<CertificateFault> for ReadCertificateError {
    ghost from_gives = { λ f e. e ≡ errors.Fault f };

    fn from(fault: CertificateFault) -> ReadCertificateError {
        ReadCertificateError::Fault(fault)
    }
}

impl From<AllocError> for ReadCertificateError {
    ghost from_gives = { λ _ e. e ≡ errors.OutOfMemory };

    fn from(_failed: AllocError) -> ReadCertificateError {
        ReadCertificateError::OutOfMemory
    }
}

impl<T: Drop> From<AllocFailed<T>> for ReadCertificateError {
    ghost from_gives = { λ _ e. e ≡ errors.OutOfMemory };

    fn from(_failed: AllocFailed<T>) -> ReadCertificateError {
        ReadCertificateError::OutOfMemory
    }
}

impl ReadCertificateError {
    /// Appends the message to `text`. When out of memory, `text` may end in part of the message. Does not allocate if
    /// `text` has the capacity.
    pub fn text_to<A: Allocator>(&self, text: &mut String<A>) -> Result<(), AllocError>
        ensures { IsAppended (read_certificate_error_text self.now) text.old text.new result }
    {
        match self {
            ReadCertificateError::Fault(fault) => fault.text_to(text),
            ReadCertificateError::OutOfMemory => push_all(text, &["fault memory"]),
        }
    }
}
