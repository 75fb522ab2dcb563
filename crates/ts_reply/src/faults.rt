//! Formats error messages, and replies that refuse a whole request.
ghost use Rattle.std.specs.Prelude.{◌≡◌, IfOk, string_bytes};
ghost use Rattle.ts_check.specs.CheckTexts.{certificate_fault_text, check_fault_text};
ghost use Rattle.ts_plan.specs.PlanTexts.{plan_fault_text};
ghost use Rattle.ts_ql.specs.QueryFaults.{as_fault};
ghost use Rattle.ts_ql.specs.QueryFaultText.{query_fault_text};
ghost use Rattle.ts_reply.specs.Answering.{several_text};
ghost use Rattle.ts_reply.specs.Replies.{refusal_reply_text};

use crate::results::refusal_json;
use std::alloc::{AllocError, Global};
use ts_check::{CertificateFault, CheckFault};
use ts_core::{FaultCode, FaultDetail};
use ts_plan::PlanFault;
use ts_ql::QlFault;

/// Formats an error of planning.
pub(crate) fn plan_fault_text(json: Global, fault: PlanFault) -> Result<String, AllocError>
    ensures { IfOk result (λ s. string_bytes s ≡ plan_fault_text fault) }
{
    let mut text = String::new(json);
    fault.text_to(&mut text)?;
    Ok(text)
}

/// Formats an error of a certificate's text.
pub(crate) fn certificate_fault_text(
    json: Global,
    fault: CertificateFault,
) -> Result<String, AllocError>
    ensures { IfOk result (λ s. string_bytes s ≡ certificate_fault_text fault) }
{
    let mut text = String::new(json);
    fault.text_to(&mut text)?;
    Ok(text)
}

/// Formats an error of a certificate's pieces.
pub(crate) fn check_fault_text(json: Global, fault: CheckFault) -> Result<String, AllocError>
    ensures { IfOk result (λ s. string_bytes s ≡ check_fault_text fault) }
{
    let mut text = String::new(json);
    fault.text_to(&mut text)?;
    Ok(text)
}

/// Returns the body of a reply that refuses a text with its first error.
pub(crate) fn refusal_of(json: Global, fault: &QlFault<'_>) -> Result<String, AllocError>
    ensures { IfOk result (λ s. string_bytes s ≡ refusal_reply_text (query_fault_text (as_fault fault.now))) }
{
    let mut text = String::new(json);
    fault.text_to(&mut text)?;
    refusal_json(json, text.as_str())
}

/// Returns the body of a reply that refuses a certificate given with several queries.
pub(crate) fn refusal_of_several(json: Global) -> Result<String, AllocError>
    ensures { IfOk result (λ s. string_bytes s ≡ refusal_reply_text several_text) }
{
    let mut text = String::new(json);
    FaultCode::SeveralStatements.text_to(FaultDetail::Alone, &mut text)?;
    refusal_json(json, text.as_str())
}
