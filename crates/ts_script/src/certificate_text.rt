//! Certificates in a script, with `;` instead of LF.
ghost use Rattle.std.specs.Prelude.{◌≡◌, IfOk, string_bytes};
ghost use Rattle.ts_script.specs.ScriptCertificates.{with_line_feeds};

use std::alloc::{AllocError, Global};

/// Copies a text, replacing each `;` by an LF.
pub(crate) fn with_line_feeds(alloc: Global, text: &str) -> Result<String, AllocError>
    ensures { IfOk result (λ lines. string_bytes lines ≡ with_line_feeds text.now) }
{
    let mut lines = String::with_capacity(alloc, text.len())?;
    let mut rest = text;
    while let Some((line, others)) = rest.split_once(';') {
        lines.push_str(line)?;
        lines.push_str("\n")?;
        rest = others;
    }
    lines.push_str(rest)?;
    Ok(lines)
}
