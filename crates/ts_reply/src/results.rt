//! Results of statements without rows, as JSON.
ghost use Rattle.std.specs.Prelude.{◌≡◌, codes, IfOk, string_bytes};
ghost use Rattle.serde_json.specs.Data.{string, object};
ghost use Rattle.serde_json.specs.View.{view};
ghost use Rattle.serde_json.specs.Written.{compact_text};
ghost use Rattle.ts_reply.specs.Replies.{refusal_data, result_of, statement_id};

use serde_json::{Value, json};
use std::alloc::{AllocError, Global};

/// Creates the result of a statement without series.
pub(crate) fn empty_result(alloc: Global, number: usize) -> Result<Value, AllocError>
    ensures { IfOk result (λ v. view v ≡ object (statement_id number)) }
{
    json!(in alloc; {"statement_id": number})
}

/// Creates the result of a statement with an error.
pub(crate) fn fault_result(alloc: Global, fault: &str, number: usize) -> Result<Value, AllocError>
    ensures { IfOk result (λ v. view v ≡ result_of (codes "error") (string fault.now) number) }
{
    json!(in alloc; {"error": fault, "statement_id": number})
}

/// Creates the result of a statement that is explained by a certificate.
pub(crate) fn certificate_result(
    alloc: Global,
    text: &str,
    number: usize,
) -> Result<Value, AllocError>
    ensures { IfOk result (λ v. view v ≡ result_of (codes "cert") (string text.now) number) }
{
    json!(in alloc; {"cert": text, "statement_id": number})
}

fn refusal_value(alloc: Global, fault: &str) -> Result<Value, AllocError>
    ensures { IfOk result (λ v. view v ≡ refusal_data fault.now) }
{
    json!(in alloc; {"error": fault})
}

/// Writes the body of a reply that refuses the whole request.
pub(crate) fn refusal_json(alloc: Global, fault: &str) -> Result<String, AllocError>
    ensures { IfOk result (λ s. string_bytes s ≡ compact_text (refusal_data fault.now)) }
{
    let value = refusal_value(alloc, fault)?;
    value.to_string(alloc)
}
