//! Creates the first store of a script or of a service.
ghost use Rattle.std.specs.Prelude.{◌≡◌, ◌⊎◌, IfOk, string_bytes};
ghost use Rattle.ts_core.specs.settings.SettingsFaults.{settings_fault_text};
ghost use Rattle.ts_script.specs.Opening.{IsNew, IsOpening};
ghost use Rattle.ts_script.specs.ScriptReplies.{line, text_of};

use crate::reply::Reply;
use std::alloc::{AllocError, Global};
use std::hash::RandomState;
use ts_core::{Settings, SettingsError, SettingsFault};
use ts_store::Store;

/// Creates an empty store with the settings of a text and a seed of the hashes of names, or returns the first error of
/// the settings.
pub fn store_with(
    alloc: Global,
    seed: RandomState,
    text: &str,
) -> Result<Store<Global>, SettingsError>
    ensures opening { IsOpening text.now result }
    ensures new { IfOk result (IsNew text.now) }
{
    let settings = Settings::read(alloc, alloc, text)?;
    match Store::new(alloc, settings, seed) {
        Ok(store) => Ok(store),
        Err(_) => Err(SettingsError::OutOfMemory),
    }
}

/// Returns the message of an error of settings, with an LF.
fn settings_fault_line(alloc: Global, fault: SettingsFault) -> Result<String, AllocError>
    ensures { IfOk result (λ text. string_bytes text ≡ line (settings_fault_text fault)) }
{
    let mut text = String::new(alloc);
    fault.text_to(&mut text)?;
    text.push_str("\n")?;
    Ok(text)
}

/// Returns the reply for an error of settings.
pub(crate) fn bad_settings(alloc: Global, fault: SettingsFault) -> Reply
    ensures { (text_of result ≡ line (settings_fault_text fault)) ⊎ (result ≡ Reply.OutOfMemory) }
{
    match settings_fault_line(alloc, fault) {
        Ok(text) => Reply::Body(text),
        Err(_) => Reply::OutOfMemory,
    }
}
