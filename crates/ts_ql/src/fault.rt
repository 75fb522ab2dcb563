//! Errors of InfluxQL texts: their kinds, their byte offsets and their messages.
ghost use Rattle.std.specs.Prelude.{◌≡◌};
ghost use Rattle.ts_ql.specs.QueryFaults.{as_fault, fault_of_kind};
ghost use Rattle.ts_core.specs.text.FaultTexts.{detail_text, IsAppended};
ghost use Rattle.ts_ql.specs.QueryFaultText.{query_fault_code, query_fault_detail, query_fault_text, error_text};
ghost use Rattle.ts_ql.specs.declared.fault.ParseError.TheVariants as errors;

use std::alloc::{AllocError, AllocFailed, Allocator};
use thiserror::Error;
use ts_core::{FaultCode, FaultDetail, push_all};

/// Kind of error in an InfluxQL text.
#[derive(Clone, Copy, Debug, PartialEq, Eq, Error)]
pub enum QlFaultKind<'a> {
    /// Syntax error: no query continues with this token. `at` is its first byte, or 65,536 if the text is longer than
    /// that.
    #[error("{}", FaultCode::Syntax.message())]
    Syntax,
    /// Unsupported InfluxQL, as written. `at` is its first byte, or the statement's if GROUP BY time is missing.
    #[error("{}: {}", FaultCode::OutOfProfile.message(), .0)]
    OutOfProfile(&'a str),
    /// Statement without a lower time bound. `at` is the statement's first byte.
    #[error("{}", FaultCode::NoLowerBound.message())]
    NoLowerBound,
    /// Literal or time expression outside its range. `at` is its first byte.
    #[error("{}", FaultCode::OutOfRange.message())]
    OutOfRange,
    /// Column name that another column has too, or `time`. `at` is the statement's first byte.
    #[error("{}", FaultCode::RepeatedColumn.message())]
    RepeatedColumn,
    /// More than 16 statements. `at` is the first byte of the 17th.
    #[error("{}", FaultCode::TooManyStatements.message())]
    TooManyStatements,
    /// Range of more than 10,000 buckets. `at` is the statement's first byte.
    #[error("{}", FaultCode::TooManyBuckets.message())]
    TooManyBuckets,
    /// First bucket that starts before the least time. `at` is the statement's first byte.
    #[error("{}", FaultCode::BucketBeforeLeastTime.message())]
    BucketBeforeLeastTime,
}

/// First error of an InfluxQL text, with its byte offset.
#[derive(Clone, Copy, Debug, PartialEq, Eq, Error)]
#[error("{kind}, at byte {at}")]
pub struct QlFault<'a> {
    pub kind: QlFaultKind<'a>,
    /// Byte offset in the text, from 0.
    pub at: usize,
}

/// Error of `parse`.
#[derive(Clone, Copy, Debug, PartialEq, Eq, Error)]
pub enum ParseError<'a> {
    /// Out of memory.
    #[error("out of memory")]
    OutOfMemory,
    /// Error in the text.
    #[error("{0}")]
    Fault(QlFault<'a>),
}

impl<'a> From<AllocError> for ParseError<'a> {
    ghost from_gives = { λ _ e. e ≡ errors.OutOfMemory };

    fn from(_error: AllocError) -> ParseError<'a> {
        ParseError::OutOfMemory
    }
}

impl<'a, T: Drop> From<AllocFailed<T>> for ParseError<'a> {
    ghost from_gives = { λ _ e. e ≡ errors.OutOfMemory };

    fn from(_failed: AllocFailed<T>) -> ParseError<'a> {
        ParseError::OutOfMemory
    }
}

impl<'a> QlFaultKind<'a> {
    /// Returns this kind as an error at a byte offset.
    pub(crate) fn at(self, at: usize) -> QlFault<'a>
        ensures { as_fault result ≡ fault_of_kind self.entry at }
    {
        QlFault { kind: self, at }
    }
}

impl<'a> QlFault<'a> {
    /// Returns the code of this error in the common table of faults.
    pub fn code(&self) -> FaultCode
        ensures { result ≡ query_fault_code (as_fault self.now) }
    {
        match self.kind {
            QlFaultKind::Syntax => FaultCode::Syntax,
            QlFaultKind::OutOfProfile(_) => FaultCode::OutOfProfile,
            QlFaultKind::NoLowerBound => FaultCode::NoLowerBound,
            QlFaultKind::OutOfRange => FaultCode::OutOfRange,
            QlFaultKind::RepeatedColumn => FaultCode::RepeatedColumn,
            QlFaultKind::TooManyStatements => FaultCode::TooManyStatements,
            QlFaultKind::TooManyBuckets => FaultCode::TooManyBuckets,
            QlFaultKind::BucketBeforeLeastTime => FaultCode::BucketBeforeLeastTime,
        }
    }

    /// Returns the byte offset, with the unsupported text if that is the error.
    fn detail(&self) -> FaultDetail<'a>
        ensures { detail_text result ≡ query_fault_detail (as_fault self.now) }
    {
        match self.kind {
            QlFaultKind::OutOfProfile(token) => FaultDetail::AtToken(self.at, token),
            _ => FaultDetail::At(self.at),
        }
    }

    /// Appends the message to `text`. When out of memory, `text` may end in part of the message. Does not allocate if
    /// `text` has the capacity.
    pub fn text_to<A: Allocator>(&self, text: &mut String<A>) -> Result<(), AllocError>
        ensures { IsAppended (query_fault_text (as_fault self.now)) text.old text.new result }
    {
        self.code().text_to(self.detail(), text)
    }
}

impl<'a> ParseError<'a> {
    /// Appends the message to `text`. When out of memory, `text` may end in part of the message. Does not allocate if
    /// `text` has the capacity.
    pub fn text_to<A: Allocator>(&self, text: &mut String<A>) -> Result<(), AllocError>
        ensures { IsAppended (error_text self.now) text.old text.new result }
    {
        match self {
            ParseError::OutOfMemory => push_all(text, &["fault memory"]),
            ParseError::Fault(fault) => fault.text_to(text),
        }
    }
}
