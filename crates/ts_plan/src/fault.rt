//! Errors of planning, with their messages.
ghost use Rattle.std.specs.Prelude.{◌≡◌};
ghost use Rattle.ts_core.specs.text.FaultTexts.{IsAppended};
ghost use Rattle.ts_plan.specs.PlanTexts.{plan_fault_code, plan_fault_text, plan_error_text};
ghost use Rattle.ts_plan.specs.declared.fault.PlanError.TheVariants as errors;

use std::alloc::{AllocError, Allocator};
use thiserror::Error;
use ts_core::{FaultCode, FaultDetail, push_all};

/// Reason why a query has no plan.
#[derive(Clone, Copy, Debug, PartialEq, Eq, Error)]
#[error("{}", self.code().message())]
pub enum PlanFault {
    /// No pieces cover all points that the query asks for.
    NoPlan,
    /// More than 1,000,000 buckets of rules to search.
    TooManyBuckets,
}

impl PlanFault {
    /// Returns the code of this error in the common table of faults.
    pub fn code(self) -> FaultCode
        ensures { result ≡ plan_fault_code self }
    {
        match self {
            PlanFault::NoPlan => FaultCode::NoPlan,
            PlanFault::TooManyBuckets => FaultCode::TooManyRuleBuckets,
        }
    }

    /// Appends the message to `text`. When out of memory, `text` may end in part of the message. Does not allocate if
    /// `text` has the capacity.
    #[tactic(auto, unfolding(crate::specs::PlanTexts::plan_fault_text))]
    pub fn text_to<A: Allocator>(&self, text: &mut String<A>) -> Result<(), AllocError>
        ensures { IsAppended (plan_fault_text self.now) text.old text.new result }
    {
        self.code().text_to(FaultDetail::Alone, text)
    }
}

/// Error of `plan`.
#[derive(Clone, Copy, Debug, PartialEq, Eq, Error)]
pub enum PlanError {
    /// No plan, or too many buckets to search for one.
    #[error(transparent)]
    Fault(PlanFault),
    /// Out of memory.
    #[error("out of memory")]
    OutOfMemory,
}

impl From<PlanFault> for PlanError {
    ghost from_gives = { λ f e. e ≡ errors.Fault f };

    fn from(fault: PlanFault) -> PlanError {
        PlanError::Fault(fault)
    }
}

impl From<AllocError> for PlanError {
    ghost from_gives = { λ _ e. e ≡ errors.OutOfMemory };

    fn from(_failed: AllocError) -> PlanError {
        PlanError::OutOfMemory
    }
}

impl PlanError {
    /// Appends the message to `text`. When out of memory, `text` may end in part of the message. Does not allocate if
    /// `text` has the capacity.
    pub fn text_to<A: Allocator>(&self, text: &mut String<A>) -> Result<(), AllocError>
        ensures { IsAppended (plan_error_text self.now) text.old text.new result }
    {
        match self {
            PlanError::Fault(fault) => fault.text_to(text),
            PlanError::OutOfMemory => push_all(text, &["fault memory"]),
        }
    }
}
