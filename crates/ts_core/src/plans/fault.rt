//! Errors of a list of pieces.
ghost use Rattle.std.specs.Prelude.{◌≡◌};
ghost use Rattle.ts_core.specs.plans.Faults.{piece_fault_code, fault_number, piece_fault_text};
ghost use Rattle.ts_core.specs.text.FaultTexts.{IsAppended};

use crate::text::{FaultCode, FaultDetail};
use std::alloc::{AllocError, Allocator};
use thiserror::Error;

/// Error of a list of pieces that doesn't cover all points of a query.
#[derive(Clone, Copy, Debug, PartialEq, Eq, Error)]
#[error("{}", self.code().message())]
pub enum PieceFault {
    /// Gap: the pieces don't follow one another from the start of the range to its end.
    Gap,
    /// Raw piece that starts below the raw mark.
    BelowMark,
    /// Unknown rule name.
    NoSuchRule,
    /// Rule of another measurement.
    OtherMeasurement,
    /// Piece with an end that isn't a bucket boundary of the rule.
    OffBoundary,
    /// First bucket below the rule's low index.
    BelowLow,
    /// Rule with buckets that don't fit the query's.
    Straddles,
    /// Rule that doesn't keep a tag that the query uses.
    TagNotKept,
}

impl PieceFault {
    /// Returns the code of this error in the common table of faults.
    pub fn code(self) -> FaultCode
        ensures { result ≡ piece_fault_code self }
    {
        match self {
            PieceFault::Gap => FaultCode::Gap,
            PieceFault::BelowMark => FaultCode::BelowMark,
            PieceFault::NoSuchRule => FaultCode::NoSuchRule,
            PieceFault::OtherMeasurement => FaultCode::OtherMeasurement,
            PieceFault::OffBoundary => FaultCode::OffBoundary,
            PieceFault::BelowLow => FaultCode::BelowLow,
            PieceFault::Straddles => FaultCode::Straddles,
            PieceFault::TagNotKept => FaultCode::TagNotKept,
        }
    }

    /// Returns the number of this error.
    pub fn number(self) -> u8
        ensures { result ≡ fault_number self }
    {
        self.code().number()
    }

    /// Appends the message to `text`. When out of memory, `text` may end in part of the message. Does not allocate if
    /// `text` has the capacity.
    pub fn text_to<A: Allocator>(&self, text: &mut String<A>) -> Result<(), AllocError>
        ensures { IsAppended (piece_fault_text self.now) text.old text.new result }
    {
        self.code().text_to(FaultDetail::Alone, text)
    }
}
