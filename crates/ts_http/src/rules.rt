//! `/rules`: adds a rollup rule, or drops one.
ghost use Rattle.std.specs.Prelude.{◌≡◌, ◌⊎◌, ◌≤◌, IfOk, length, string_bytes, false};
ghost use Rattle.ts_core.specs.settings.SettingsFaults.{settings_fault_text};
ghost use Rattle.ts_http.specs.Acts.{bad_reply, added_text, dropped_body};
ghost use Rattle.ts_http.specs.HttpReplies.{error_json};
ghost use Rattle.ts_http.specs.OutcomeReplies.{AddsAs, DropsAs, DropsNamed, reply_of};

use crate::outcome::RequestOutcome;
use crate::parameters::first_named;
use crate::refusal::Refusal;
use crate::reply::{ShortBody, code_body};
use crate::status::Status;
use itoa::Buffer;
use std::alloc::{AllocError, Allocator, Global};
use std::str;
use ts_core::{FaultCode, SettingsError, SettingsFault};
use ts_store::{AddedRule, Store, View};

/// Returns JSON with the low index and the name of a rule that was added.
fn added_body(added: &AddedRule) -> ShortBody
    ensures { result.bytes ≡ added_text added.now.name.bytes added.now.low }
{
    let mut body = ShortBody::new();
    body.push_str("{\"low\":");
    body.push_str(Buffer::new().format(added.low));
    body.push_str(",\"name\":\"");
    body.push_str(added.name.as_str());
    body.push_str("\"}");
    body
}

/// Returns JSON with the name of a rule that was dropped.
fn dropped_body(name: &str) -> ShortBody
    requires { length name.now ≤ 32 }
    ensures { result.bytes ≡ dropped_body name.now }
{
    let mut body = ShortBody::new();
    body.push_str("{\"dropped\":\"");
    body.push_str(name);
    body.push_str("\"}");
    body
}

/// Returns JSON with the fault of a rule.
fn fault_body(json: Global, fault: SettingsFault) -> Result<String, AllocError>
    ensures { IfOk result (λ body. string_bytes body ≡ error_json (settings_fault_text fault)) }
{
    let mut body = String::new(json);
    body.push_str("{\"error\":\"")?;
    fault.text_to(&mut body)?;
    body.push_str("\"}")?;
    Ok(body)
}

/// Returns the outcome for a rule with a fault, or out of memory.
fn refused(json: Global, fault: SettingsFault) -> RequestOutcome
    ensures { (reply_of false result ≡ bad_reply (error_json (settings_fault_text fault)))
        ⊎ (result ≡ RequestOutcome.Refused Refusal.OutOfMemory) }
{
    match fault_body(json, fault) {
        Ok(body) => RequestOutcome::Answered(Status::BadRequest, body),
        Err(_) => RequestOutcome::Refused(Refusal::OutOfMemory),
    }
}

/// Adds the rule of a text.
fn add_text<A: Allocator + Copy>(
    alloc: A,
    json: Global,
    store: &mut Store<A>,
    text: &str,
) -> RequestOutcome
    ensures { AddsAs text.now store.old result store.new }
{
    match store.add_rule_text(alloc, json, text) {
        Ok(added) => RequestOutcome::Brief(Status::Success, added_body(&added)),
        Err(SettingsError::Fault(fault)) => refused(json, fault),
        Err(SettingsError::OutOfMemory) => RequestOutcome::Refused(Refusal::OutOfMemory),
    }
}

/// Adds the rule of a body.
pub(crate) fn add_rule<A: Allocator + Copy>(
    alloc: A,
    json: Global,
    store: &mut Store<A>,
    body: &[u8],
) -> RequestOutcome
    ensures { AddsAs body.now store.old result store.new }
{
    match str::from_utf8(body) {
        Ok(text) => add_text(alloc, json, store, text),
        Err(_) => RequestOutcome::Refused(Refusal::BodyNotText),
    }
}

/// Drops the rule with a name.
fn drop_named<A: Allocator + Copy>(store: &mut Store<A>, name: &str) -> RequestOutcome
    ensures { DropsNamed name.now store.old result store.new }
{
    // for the proof: settings have no fault, so their names have at most 32 bytes
    let _ = store.settings().rules();
    match store.drop_rule(name) {
        Ok(()) => RequestOutcome::Brief(Status::Success, dropped_body(name)),
        Err(_) => RequestOutcome::Brief(Status::BadRequest, code_body(FaultCode::UnknownRule)),
    }
}

/// Drops the rule that the parameter `name` names.
pub(crate) fn drop_rule<A: Allocator + Copy>(
    alloc: A,
    store: &mut Store<A>,
    query: &[u8],
) -> RequestOutcome
    ensures { DropsAs query.now store.old result store.new }
{
    match first_named(alloc, query, "name") {
        Ok(Some(name)) => drop_named(store, name.as_str()),
        Ok(None) => RequestOutcome::Refused(Refusal::MissingName),
        Err(_) => RequestOutcome::Refused(Refusal::OutOfMemory),
    }
}
