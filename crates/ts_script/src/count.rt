//! The command `count`: its reply by the number of points.
ghost use Rattle.std.specs.Prelude.{◌≡◌, ◌<ℤ◌};
ghost use Rattle.ts_core.specs.store.StoreData.{OfEachHistory};
ghost use Rattle.ts_script.specs.Machine.{Counts};
ghost use Rattle.ts_script.specs.ScriptReplies.{count_text, text_of};

use crate::reply::Reply;
use std::alloc::Global;
use ts_core::Time;
use ts_reply::CountError;
use ts_store::Store;

/// Returns the reply to a count with this result.
fn count_reply(counted: Result<u64, CountError>) -> Reply
    ensures { text_of result ≡ count_text counted }
{
    match counted {
        Ok(count) => Reply::Count(count),
        Err(CountError::BadRange) => Reply::BadRange,
        Err(CountError::NoPlan(fault)) => Reply::NoPlan(fault),
        Err(CountError::OutOfMemory) => Reply::OutOfMemory,
    }
}

/// Counts the values of a field from one time, inclusive, to another, exclusive, of all facts that the store ever
/// accepted.
pub(crate) fn count(
    alloc: Global,
    store: &Store<Global>,
    measurement: &str,
    field: &str,
    from: Time,
    to: Time,
) -> Reply
    requires { from <ℤ to }
    ensures { OfEachHistory store.now
        (λ opening h. Counts opening h measurement.now field.now from to (text_of result)) }
{
    let counted = ts_reply::count(alloc, store, measurement, field, from, to);
    count_reply(counted)
}
