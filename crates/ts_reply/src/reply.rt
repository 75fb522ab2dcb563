//! Writes replies. Statements without rows go through JSON values; series and rows are written as text directly.
ghost use Rattle.std.specs.Prelude.{◌≡◌, ◌+◌, ◌<◌, ◌^◌, ◌∷◌, ◌++◌, true, length, map, nat_lt, IfOk, OnOk, string_bytes};
ghost use Rattle.serde_json.specs.Written.{comma_if};
ghost use Rattle.ts_reply.specs.AppendedData.{AppendsData, AppendsItems, IsArray};
ghost use Rattle.ts_reply.specs.Replies.{AreEach, IsSeriesData, IsResultData, AreResults, TellsOutcomes};
ghost use Rattle.ts_reply.specs.OutcomeViews.{outcome_view};
ghost use Rattle.ts_reply.specs.Outcomes.{rows_outcome};
ghost use Rattle.ts_reply.specs.SeriesTexts.{series_head};

use crate::epoch::Epoch;
use crate::results::{certificate_result, empty_result, fault_result};
use crate::row_times::Times;
use crate::series::{push_group, series_head};
use crate::text::push_value;
use itoa::Buffer;
use std::alloc::{AllocError, Allocator, Global};
use ts_exec::{FilledGroup, FilledGroups, Rows};
use ts_ql::Query;

/// Outcome of a statement.
#[derive(Drop)]
pub enum Outcome<'a, A: Allocator> {
    /// Rows of the answer.
    Rows(Rows<'a, A>),
    /// Certificate of the plan, as text.
    Certificate(String),
    /// Error message.
    Fault(String),
}

/// Appends groups, each after a comma, and the closing bracket.
fn push_more_groups<A: Allocator>(
    alloc: Global,
    text: &mut String,
    times: &mut Times,
    query: &Query<A>,
    head: &str,
    groups: FilledGroups<'_, '_, A>,
) -> Result<(), AllocError>
    requires { head.now ≡ series_head query.now }
    ensures { OnOk result (AppendsItems (AreEach (IsSeriesData times.old query.now) groups.entry) true
        (string_bytes text.old) (string_bytes text.new)) }
{
    for group in groups {
        text.push_str(",")?;
        push_group(alloc, text, times, query, head, group)?;
    }
    text.push_str("]")
}

/// Appends the array of series, one per group.
fn push_series<A: Allocator>(
    alloc: Global,
    text: &mut String,
    epoch: Epoch,
    query: &Query<A>,
    first: FilledGroup<'_, '_, A>,
    others: FilledGroups<'_, '_, A>,
) -> Result<(), AllocError>
    ensures { OnOk result (AppendsData (IsArray (AreEach (IsSeriesData epoch query.now) (first.entry ∷ others.entry)))
        (string_bytes text.old) (string_bytes text.new)) }
{
    let head = series_head(alloc, query)?;
    let mut times = Times::new(alloc, epoch);
    // Each series begins with the head.
    text.reserve(head.len().saturating_mul(others.len()))?;
    text.push_str("[")?;
    push_group(alloc, text, &mut times, query, head.as_str(), first)?;
    push_more_groups(alloc, text, &mut times, query, head.as_str(), others)
}

/// Appends the rows of the statement with this index.
fn push_rows<A: Allocator>(
    alloc: Global,
    text: &mut String,
    epoch: Epoch,
    rows: &Rows<'_, A>,
    number: usize,
) -> Result<(), AllocError>
    ensures { OnOk result (AppendsData
        (IsResultData epoch number (rows_outcome rows.now)) (string_bytes text.old) (string_bytes text.new)) }
{
    let mut groups = rows.groups();
    match groups.next() {
        None => push_value(alloc, text, &empty_result(alloc, number)?),
        Some(first) => {
            text.push_str("{\"series\":")?;
            push_series(alloc, text, epoch, rows.query(), first, groups)?;
            text.push_str(",\"statement_id\":")?;
            text.push_str(Buffer::new().format(number))?;
            text.push_str("}")
        }
    }
}

/// Appends the outcome of the statement with this index.
fn push_result<A: Allocator>(
    alloc: Global,
    text: &mut String,
    epoch: Epoch,
    outcome: &Outcome<'_, A>,
    number: usize,
) -> Result<(), AllocError>
    ensures { OnOk result (AppendsData
        (IsResultData epoch number (outcome_view outcome.now)) (string_bytes text.old) (string_bytes text.new)) }
{
    match outcome {
        Outcome::Rows(rows) => push_rows(alloc, text, epoch, rows, number),
        Outcome::Certificate(certificate) => {
            let value = certificate_result(alloc, certificate.as_str(), number)?;
            push_value(alloc, text, &value)
        }
        Outcome::Fault(fault) => {
            let value = fault_result(alloc, fault.as_str(), number)?;
            push_value(alloc, text, &value)
        }
    }
}

/// Appends a comma, unless `number` is 0.
fn push_comma(text: &mut String, number: usize) -> Result<(), AllocError>
    ensures { OnOk result (string_bytes text.new ≡ string_bytes text.old ++ comma_if (nat_lt 0 number)) }
{
    if 0 < number {
        text.push_str(",")
    } else {
        Ok(())
    }
}

/// Appends the outcomes of statements, whose indices begin at `number`, and the closing bracket.
fn push_results<A: Allocator>(
    alloc: Global,
    text: &mut String,
    epoch: Epoch,
    outcomes: &[Outcome<'_, A>],
    number: usize,
) -> Result<(), AllocError>
    requires { number + length outcomes.now < 2 ^ 64 }
    ensures { OnOk result (AppendsItems (AreResults epoch number (map outcome_view outcomes.now))
        (nat_lt 0 number) (string_bytes text.old) (string_bytes text.new)) }
{
    match outcomes.split_first() {
        None => text.push_str("]"),
        Some((outcome, others)) => {
            push_comma(text, number)?;
            push_result(alloc, text, epoch, outcome, number)?;
            push_results(alloc, text, epoch, others, number + 1)
        }
    }
}

/// Writes the outcomes of a text's statements as JSON. Fails only when out of memory.
pub fn reply_json<A: Allocator>(
    alloc: Global,
    outcomes: &[Outcome<'_, A>],
    epoch: Epoch,
) -> Result<String, AllocError>
    ensures { IfOk result (λ s. TellsOutcomes epoch (map outcome_view outcomes.now) (string_bytes s)) }
{
    let mut text = String::new(alloc);
    text.push_str("{\"results\":[")?;
    push_results(alloc, &mut text, epoch, outcomes, 0)?;
    text.push_str("}")?;
    Ok(text)
}
