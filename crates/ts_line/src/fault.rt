//! Errors of a line: their kinds, their byte offsets and their texts.
ghost use Rattle.std.specs.Prelude.{◌≡◌, ◌≤◌, length};
ghost use Rattle.ts_core.specs.text.FaultTexts.{IsAppended};
ghost use Rattle.ts_line.specs.FaultText.{fault_at, line_fault_code, line_fault_text, read_line_error_text};
ghost use Rattle.ts_line.specs.declared.fault.ReadLineError.TheVariants as errors;

use std::alloc::{AllocError, AllocFailed, Allocator};
use thiserror::Error;
use ts_core::{FaultCode, FaultDetail, push_all};

/// Kind of error in a line.
#[derive(Clone, Copy, Debug, PartialEq, Eq)]
pub enum LineFaultKind {
    /// Empty measurement. `at` is the offset where it would begin.
    NoMeasurement,
    /// Tag without an equals sign, with more than one, or with an empty key or value. `at` is the tag's first byte.
    BadTag,
    /// Tag key that an earlier tag of the line has too. `at` is the first byte of the later tag.
    RepeatedTagKey,
    /// Line without a field. `at` is the offset after the measurement and its tags.
    NoField,
    /// Malformed field. `at` is the field's first byte.
    BadField,
    /// Field whose value is a float, a string, a boolean or an unsigned integer. `at` is the field's first byte.
    FieldType,
    /// Integer that doesn't fit in 64 bits. `at` is the first byte of its field.
    IntegerRange,
    /// Timestamp that isn't a number. `at` is the timestamp's first byte.
    BadTimestamp,
    /// Timestamp outside the valid times. `at` is the timestamp's first byte.
    TimestampRange,
    /// Line, series key, number of tags or number of fields over its limit. `at` is the first byte after the limit, or
    /// the first byte of the first tag or field that is too many.
    OverLimit,
    /// Tag or field whose key is `time`. `at` is the first byte of that tag or field.
    ReservedKey,
}

/// Error in a line, with its byte offset.
#[derive(Clone, Copy, Debug, PartialEq, Eq, Error)]
#[error("{}, at byte {at}", .kind.code().message())]
pub struct LineFault {
    /// Kind of error.
    pub kind: LineFaultKind,
    /// Byte offset, from 0, in the text passed to `read_line`; the text's length if the error is at its end.
    pub at: usize,
}

impl LineFaultKind {
    /// Returns this kind as an error at a byte offset.
    pub(crate) fn at(self, at: usize) -> LineFault
        ensures { result ≡ fault_at self at }
    {
        LineFault { kind: self, at }
    }

    /// Returns the code of this kind in the common table of faults.
    pub fn code(self) -> FaultCode
        ensures { result ≡ line_fault_code self }
    {
        match self {
            LineFaultKind::NoMeasurement => FaultCode::NoMeasurement,
            LineFaultKind::BadTag => FaultCode::BadTag,
            LineFaultKind::RepeatedTagKey => FaultCode::RepeatedTagKey,
            LineFaultKind::NoField => FaultCode::NoField,
            LineFaultKind::BadField => FaultCode::BadField,
            LineFaultKind::FieldType => FaultCode::FieldType,
            LineFaultKind::IntegerRange => FaultCode::IntegerRange,
            LineFaultKind::BadTimestamp => FaultCode::BadTimestamp,
            LineFaultKind::TimestampRange => FaultCode::TimestampRange,
            LineFaultKind::OverLimit => FaultCode::OverLimit,
            LineFaultKind::ReservedKey => FaultCode::ReservedKey,
        }
    }
}

impl LineFault {
    /// Appends the message to `text`. When out of memory, `text` may end in part of the message. Does not allocate if
    /// `text` has the capacity; a message has at most 32 bytes.
    #[tactic(auto, using(crate::proofs::FaultLemmas::line_fault_text_short), unfolding(crate::specs::FaultText::line_fault_text))]
    pub fn text_to<A: Allocator>(&self, text: &mut String<A>) -> Result<(), AllocError>
        ensures appended { IsAppended (line_fault_text self.now) text.old text.new result }
        ensures short { length (line_fault_text self.now) ≤ 32 }
    {
        self.kind.code().text_to(FaultDetail::at(self.at), text)
    }
}

/// Error of `read_line`.
#[derive(Clone, Copy, Debug, PartialEq, Eq, Error)]
pub enum ReadLineError {
    /// Error in the text.
    #[error(transparent)]
    Fault(LineFault),
    /// Out of memory.
    #[error("out of memory")]
    OutOfMemory,
}

impl ReadLineError {
    /// Appends the message to `text`. When out of memory, `text` may end in part of the message. Does not allocate if
    /// `text` has the capacity; a message has at most 32 bytes.
    pub fn text_to<A: Allocator>(&self, text: &mut String<A>) -> Result<(), AllocError>
        ensures appended { IsAppended (read_line_error_text self.now) text.old text.new result }
        ensures short { length (read_line_error_text self.now) ≤ 32 }
    {
        match self {
            ReadLineError::Fault(fault) => fault.text_to(text),
            ReadLineError::OutOfMemory => push_all(text, &["fault memory"]),
        }
    }
}

impl From<LineFault> for ReadLineError {
    ghost from_gives = { λ f e. e ≡ errors.Fault f };

    fn from(fault: LineFault) -> ReadLineError {
        ReadLineError::Fault(fault)
    }
}

impl From<AllocError> for ReadLineError {
    ghost from_gives = { λ _ e. e ≡ errors.OutOfMemory };

    fn from(_failed: AllocError) -> ReadLineError {
        ReadLineError::OutOfMemory
    }
}

impl<T: Drop> From<AllocFailed<T>> for ReadLineError {
    ghost from_gives = { λ _ e. e ≡ errors.OutOfMemory };

    fn from(_failed: AllocFailed<T>) -> ReadLineError {
        ReadLineError::OutOfMemory
    }
}
