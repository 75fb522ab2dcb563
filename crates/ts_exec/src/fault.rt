//! Errors of an execution, with their messages.
ghost use Rattle.std.specs.Prelude.{◌≡◌};
ghost use Rattle.ts_core.specs.text.FaultTexts.{IsAppended};
ghost use Rattle.ts_exec.specs.ExecTexts.{exec_fault_text};
ghost use Rattle.ts_exec.specs.declared.fault.ExecFault.TheVariants as errors;

use std::alloc::{AllocError, Allocator};
use std::fmt;
use thiserror::Error;
use ts_core::{FaultCode, FaultDetail, Marks, Settings};

/// Error of an execution.
#[derive(Drop, Error)]
pub enum ExecFault<'a, A: Allocator> {
    /// Stale plan: the store has these settings and marks, not those that the plan was checked under.
    #[error("{}", FaultCode::StalePlan.message())]
    Stale(&'a Settings<A>, &'a Marks<A>),
    /// Out of memory.
    #[error("out of memory")]
    OutOfMemory,
}

impl<'a, A: Allocator> fmt::Debug for ExecFault<'a, A> {
    fn fmt<W: fmt::Write>(&self, f: &mut fmt::Formatter<W>) -> fmt::Result {
        match self {
            ExecFault::Stale(_, _) => f.write_str("Stale"),
            ExecFault::OutOfMemory => f.write_str("OutOfMemory"),
        }
    }
}

impl<'a, A: Allocator> ExecFault<'a, A> {
    /// Appends the message to `text`. When out of memory, `text` may end in part of the message. Does not allocate if
    /// `text` has the capacity.
    #[tactic(auto, unfolding(crate::specs::ExecTexts::exec_fault_text))]
    pub fn text_to<B: Allocator>(&self, text: &mut String<B>) -> Result<(), AllocError>
        ensures { IsAppended (exec_fault_text self.now) text.old text.new result }
    {
        match self {
            ExecFault::Stale(_, _) => FaultCode::StalePlan.text_to(FaultDetail::Alone, text),
            ExecFault::OutOfMemory => text.push_str("fault memory"),
        }
    }
}

impl<'a, A: Allocator> From<AllocError> for ExecFault<'a, A> {
    ghost from_gives = { λ _ e. e ≡ errors.OutOfMemory };

    fn from(_failed: AllocError) -> ExecFault<'a, A> {
        ExecFault::OutOfMemory
    }
}
