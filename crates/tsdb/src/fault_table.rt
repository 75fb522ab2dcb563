//! Table of all faults, as `tsdb faults` prints it.
ghost use Rattle.std.specs.Prelude.{◌≡◌, ◌++◌, IfOk, OnOk, string_bytes};
ghost use Rattle.ts_reply.specs.OutcomeViews.{given_text};
ghost use Rattle.tsdb.specs.FaultTables.{is_wanted, is_listed, fault_table};
ghost use Rattle.tsdb.specs.FaultNumbers.{row_where, requested_row};

use itoa::Buffer;
use std::alloc::{AllocError, Global};
use ts_core::{FaultCode, push_all};

/// Returns true if these are the requested digits, or if all faults are requested.
fn is_wanted(requested: Option<&str>, digits: &str) -> bool
    ensures { result ≡ is_wanted (given_text requested.entry) digits.now }
{
    match requested {
        None => true,
        Some(number) => digits == number,
    }
}

/// Appends the row of a fault, if it is requested.
fn row_to(text: &mut String, requested: Option<&str>, code: FaultCode) -> Result<(), AllocError>
    ensures { OnOk result
        (string_bytes text.new ≡ string_bytes text.old ++ row_where (is_listed (given_text requested.entry)) code) }
{
    let mut digits = Buffer::new();
    let digits = digits.format(code.number());
    if !is_wanted(requested, digits) {
        return Ok(());
    }
    push_all(text, &[digits, " ", code.message(), "\n"])
}

/// Appends the row of the fault with this number, if it exists and is requested.
fn numbered_row_to(text: &mut String, requested: Option<&str>, number: u8) -> Result<(), AllocError>
    ensures { OnOk result (string_bytes text.new
        ≡ string_bytes text.old ++ requested_row (is_listed (given_text requested.entry)) number) }
{
    match FaultCode::of_number(number) {
        Some(code) => row_to(text, requested, code),
        None => Ok(()),
    }
}

/// Returns the rows of the requested faults: all, or the one with this number, if it exists.
pub fn fault_table(alloc: Global, requested: Option<&str>) -> Result<String, AllocError>
    ensures { IfOk result (λ text. string_bytes text ≡ fault_table (given_text requested.entry)) }
{
    let mut text = String::new(alloc);
    for number in 0..128 {
        numbered_row_to(&mut text, requested, number)?;
    }
    Ok(text)
}
