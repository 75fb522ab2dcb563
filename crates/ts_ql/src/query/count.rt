//! Creates queries that count in one bucket.
ghost use Rattle.std.specs.Prelude.{◌≡◌, ◌∷◌, [], ◌<ℤ◌, IfOk};
ghost use Rattle.ts_core.specs.declared.queries.value.Function.TheVariants as functions;
ghost use Rattle.ts_ql.specs.Counting.{IsCountQuery};
ghost use Rattle.ts_ql.specs.Selects.{function_name};

use super::{Projection, Query, QueryParts};
use crate::fault::{ParseError, QlFaultKind};
use crate::keywords::function_name;
use std::alloc::{AllocError, Allocator};
use ts_core::{Fill, Function, Time};

/// Returns the single column `count`.
fn count_column<A: Allocator + Copy>(alloc: A) -> Result<Vec<Projection<A>, A>, AllocError>
    ensures { IfOk result
        (λ v. v.items ≡ record { function = functions.Count; name = function_name functions.Count } ∷ []) }
{
    let name = String::from_str(alloc, function_name(Function::Count))?;
    let mut columns = Vec::new(alloc);
    columns.push(Projection::new(Function::Count, name))?;
    Ok(columns)
}

/// Creates the query that counts the values of `field` in one bucket from `from`, inclusive, to `to`, exclusive
/// (nanoseconds of the Unix epoch). Fails with `OutOfRange` at offset 0 if the bucket is longer than 2^63 - 1
/// nanoseconds.
pub fn count_query<A: Allocator + Copy>(
    alloc: A,
    measurement: &str,
    field: &str,
    from: Time,
    to: Time,
) -> Result<Query<A>, ParseError<'static>>
    requires { from <ℤ to }
    ensures { IsCountQuery measurement.now field.now from to result }
{
    let Some(interval) = to.nanos().checked_sub(from.nanos()) else {
        return Err(ParseError::Fault(QlFaultKind::OutOfRange.at(0)));
    };
    Ok(Query::new(QueryParts {
        columns: count_column(alloc)?,
        fill: Fill::Null,
        measurement: String::from_str(alloc, measurement)?,
        field: String::from_str(alloc, field)?,
        conditions: Vec::new(alloc),
        from: from.nanos(),
        to: to.nanos(),
        interval,
        offset: from.nanos(),
        group_tags: Vec::new(alloc),
    }))
}
