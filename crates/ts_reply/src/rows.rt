//! Writes rows as JSON.
ghost use Rattle.std.specs.Prelude.{◌≡◌, ◌++◌, true, map, OnOk, string_bytes};
ghost use Rattle.serde_json.specs.View.{items_of};
ghost use Rattle.serde_json.specs.Written.{items_text};
ghost use Rattle.ts_reply.specs.AppendedData.{AppendsData, AppendsItems, IsArray};
ghost use Rattle.ts_reply.specs.Replies.{value_data, AreEach, IsRowData};

use crate::row_times::Times;
use crate::value::push_cell;
use std::alloc::{AllocError, Allocator, Global};
use ts_exec::{FilledRow, FilledRows, Values};

/// Appends values, each after a comma, and the closing bracket of their row.
fn push_values<A: Allocator>(
    alloc: Global,
    text: &mut String,
    values: Values<'_, A>,
) -> Result<(), AllocError>
    ensures { OnOk result
        (string_bytes text.new ≡ string_bytes text.old ++ items_text true (items_of (map value_data values.entry))) }
{
    for value in values {
        text.push_str(",")?;
        push_cell(alloc, text, &value)?;
    }
    text.push_str("]")
}

/// Appends a row: its time, and one value per column.
fn push_row<A: Allocator>(
    alloc: Global,
    text: &mut String,
    times: &mut Times,
    row: &FilledRow<'_, A>,
) -> Result<(), AllocError>
    ensures value { OnOk result
        (AppendsData (IsRowData times.old row.now) (string_bytes text.old) (string_bytes text.new)) }
    ensures same { times.new ≡ times.old }
{
    text.push_str("[")?;
    times.push(alloc, text, &row.start())?;
    push_values(alloc, text, row.values())
}

/// Appends rows, each after a comma, and the closing bracket.
fn push_more_rows<A: Allocator>(
    alloc: Global,
    text: &mut String,
    times: &mut Times,
    rows: FilledRows<'_, A>,
) -> Result<(), AllocError>
    ensures value { OnOk result
        (AppendsItems (AreEach (IsRowData times.old) rows.entry) true (string_bytes text.old) (string_bytes text.new)) }
    ensures same { times.new ≡ times.old }
{
    for row in rows {
        text.push_str(",")?;
        push_row(alloc, text, times, &row)?;
    }
    text.push_str("]")
}

/// Appends the array of a group's rows.
pub(crate) fn push_group_rows<A: Allocator>(
    alloc: Global,
    text: &mut String,
    times: &mut Times,
    mut rows: FilledRows<'_, A>,
) -> Result<(), AllocError>
    ensures value { OnOk result (AppendsData
        (IsArray (AreEach (IsRowData times.old) rows.entry)) (string_bytes text.old) (string_bytes text.new)) }
    ensures same { times.new ≡ times.old }
{
    match rows.next() {
        None => text.push_str("[]"),
        Some(first) => {
            text.push_str("[")?;
            push_row(alloc, text, times, &first)?;
            push_more_rows(alloc, text, times, rows)
        }
    }
}
