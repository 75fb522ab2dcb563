//! Writes JSON values and strings.
ghost use Rattle.std.specs.Prelude.{◌≡◌, ◌++◌, false, OnOk, string_bytes};
ghost use Rattle.std.specs.List.{list_all};
ghost use Rattle.json.specs.Print.{quoted};
ghost use Rattle.json.specs.Run.{is_plain};
ghost use Rattle.serde_json.specs.View.{view};
ghost use Rattle.serde_json.specs.Written.{has_float, compact_text};

use serde_json::Value;
use std::alloc::{AllocError, Global};

/// Returns true if a byte needs no escape in a JSON string.
fn is_plain_byte(byte: u8) -> bool
    ensures { result ≡ is_plain byte }
{
    !(byte == b'"' || byte == b'\\' || byte < 32)
}

/// Returns true if no byte needs an escape in a JSON string.
fn is_plain(bytes: &[u8]) -> bool
    ensures { result ≡ list_all is_plain bytes.now }
{
    bytes.iter().all(|byte| is_plain_byte(*byte))
}

/// Appends a JSON value.
pub(crate) fn push_value(alloc: Global, text: &mut String, value: &Value) -> Result<(), AllocError>
    requires { has_float (view value.now) ≡ false }
    ensures { OnOk result (string_bytes text.new ≡ string_bytes text.old ++ compact_text (view value.now)) }
{
    let written = value.to_string(alloc)?;
    text.push_str(written.as_str())
}

/// Appends a JSON string, with escapes.
fn push_escaped(alloc: Global, text: &mut String, word: &str) -> Result<(), AllocError>
    ensures { OnOk result (string_bytes text.new ≡ string_bytes text.old ++ quoted word.now) }
{
    let value = Value::try_from_str(alloc, word)?;
    push_value(alloc, text, &value)
}

/// Appends a JSON string. Skips the escaping if no byte needs it.
pub(crate) fn push_quoted(alloc: Global, text: &mut String, word: &str) -> Result<(), AllocError>
    ensures { OnOk result (string_bytes text.new ≡ string_bytes text.old ++ quoted word.now) }
{
    if !is_plain(word.as_bytes()) {
        return push_escaped(alloc, text, word);
    }
    text.push_str("\"")?;
    text.push_str(word)?;
    text.push_str("\"")
}
