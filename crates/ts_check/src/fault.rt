//! Errors of a plan, with their pieces and messages.
ghost use Rattle.std.specs.Prelude.{◌≡◌, ◌≤◌, length};
ghost use Rattle.ts_core.specs.text.FaultTexts.{IsAppended};
ghost use Rattle.ts_check.specs.CheckTexts.{check_fault_text, check_error_text};
ghost use Rattle.ts_check.specs.declared.fault.CheckError.TheVariants as errors;

use std::alloc::{AllocError, Allocator};
use thiserror::Error;
use ts_core::{FaultDetail, PieceFault, push_all};

/// Error in a plan of a query.
#[derive(Clone, Copy, Debug, PartialEq, Eq, Error)]
#[error("{}, at piece {piece}", .kind.code().message())]
pub struct CheckFault {
    /// Kind of error.
    pub kind: PieceFault,
    /// Index of the piece, from 0. If the last piece doesn't reach the end of the range, the number of pieces.
    pub piece: usize,
}

impl CheckFault {
    /// Appends the message to `text`. When out of memory, `text` may end in part of the message. Does not allocate if
    /// `text` has the capacity; a message has at most 35 bytes.
    #[tactic(auto, using(crate::proofs::FaultLemmas::check_fault_text_short), unfolding(crate::specs::CheckTexts::check_fault_text))]
    pub fn text_to<A: Allocator>(&self, text: &mut String<A>) -> Result<(), AllocError>
        ensures appended { IsAppended (check_fault_text self.now) text.old text.new result }
        ensures short { length (check_fault_text self.now) ≤ 35 }
    {
        self.kind
            .code()
            .text_to(FaultDetail::of_piece(self.piece), text)
    }
}

/// Error of `check`.
#[derive(Clone, Copy, Debug, PartialEq, Eq, Error)]
pub enum CheckError {
    /// Pieces that aren't a valid plan of the query.
    #[error(transparent)]
    Fault(CheckFault),
    /// Out of memory.
    #[error("out of memory")]
    OutOfMemory,
}

impl From<CheckFault> for CheckError {
    ghost from_gives = { λ f e. e ≡ errors.Fault f };

    fn from(fault: CheckFault) -> CheckError {
        CheckError::Fault(fault)
    }
}

impl From<AllocError> for CheckError {
    ghost from_gives = { λ _ e. e ≡ errors.OutOfMemory };

    fn from(_failed: AllocError) -> CheckError {
        CheckError::OutOfMemory
    }
}

impl CheckError {
    /// Appends the message to `text`. When out of memory, `text` may end in part of the message. Does not allocate if
    /// `text` has the capacity.
    pub fn text_to<A: Allocator>(&self, text: &mut String<A>) -> Result<(), AllocError>
        ensures { IsAppended (check_error_text self.now) text.old text.new result }
    {
        match self {
            CheckError::Fault(fault) => fault.text_to(text),
            CheckError::OutOfMemory => push_all(text, &["fault memory"]),
        }
    }
}
