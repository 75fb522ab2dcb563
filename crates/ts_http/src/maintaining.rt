//! `/maintain`: steps of a retention run.
ghost use Rattle.std.specs.Prelude.{◌≡◌, Option, true, false};
ghost use Rattle.ts_core.specs.store.History.{Begin};
ghost use Rattle.ts_core.specs.store.StoreData.{GoesOn};
ghost use Rattle.ts_core.specs.moves.StoreMoves.{run_begun};
ghost use Rattle.ts_http.specs.Maintaining.{steps_parameter, steps_of_parameter, progress_text};
ghost use Rattle.ts_http.specs.MaintainSteps.{run_opened, HasStepped};
ghost use Rattle.ts_http.specs.OutcomeReplies.{IsValueOr, MaintainsAs};

use crate::fields::{is_short_number, number_of};
use crate::outcome::RequestOutcome;
use crate::parameters::first_named;
use crate::refusal::Refusal;
use crate::reply::ShortBody;
use crate::status::Status;
use itoa::Buffer;
use std::alloc::Allocator;
use ts_core::Time;
use ts_store::{StepAnswer, Store, View};

/// Number of steps that a request may take at most.
const MAX_STEPS: usize = 10_000;

/// The steps that a request took.
#[derive(Clone, Copy, Debug, Drop)]
struct Progress {
    taken: usize,
    done: bool,
}

/// Parses a number of steps: 1 to 5 digits, at most 10,000.
fn step_count(value: &[u8]) -> Option<usize>
    ensures { result ≡ steps_parameter (Option.Some value.now) }
{
    if !is_short_number(value) || value.len() > 5 {
        return None;
    }
    let count = number_of(value);
    if count > MAX_STEPS { None } else { Some(count) }
}

/// Returns the number of steps of a request.
fn steps<A: Allocator + Copy>(alloc: A, query: &[u8]) -> Result<usize, Refusal>
    ensures { IsValueOr (steps_of_parameter query.now) Refusal.BadSteps result }
{
    match first_named(alloc, query, "steps") {
        Ok(None) => Err(Refusal::BadSteps),
        Ok(Some(value)) => match step_count(value.as_str().as_bytes()) {
            Some(count) => Ok(count),
            None => Err(Refusal::BadSteps),
        },
        Err(_) => Err(Refusal::OutOfMemory),
    }
}

/// Begins a run at a moment if none is open.
fn open_run<A: Allocator + Copy>(store: &mut Store<A>, now: Time)
    ensures opened { store.new ≡ run_opened now store.old }
    ensures begins { store.old.running ≡ false → GoesOn store.old (Begin now) (run_begun now store.old) }
{
    match store.begin(now) {
        Ok(_) => {}
        Err(_) => {}
    }
}

/// Takes steps of the open run until it ends, at most `limit`.
fn run_steps<A: Allocator + Copy>(store: &mut Store<A>, limit: usize) -> Progress
    requires { store.old.running ≡ true }
    ensures { HasStepped limit store.old store.new result.taken result.done }
{
    for taken in 0..limit {
        if store.step() == StepAnswer::Done {
            return Progress {
                taken: taken + 1,
                done: true,
            };
        }
    }
    Progress {
        taken: limit,
        done: false,
    }
}

/// Returns JSON with the number of steps taken, true if the run ended, and the raw mark.
fn progress_body(progress: Progress, raw: Time) -> ShortBody
    ensures { result.bytes ≡ progress_text progress.done raw progress.taken }
{
    let mut body = ShortBody::new();
    body.push_str("{\"done\":");
    body.push_str(if progress.done { "true" } else { "false" });
    body.push_str(",\"raw\":");
    body.push_str(Buffer::new().format(raw.nanos()));
    body.push_str(",\"steps\":");
    body.push_str(Buffer::new().format(progress.taken));
    body.push_str("}");
    body
}

/// Takes the steps of a request. Does not allocate once the number of steps is known.
pub(crate) fn maintain<A: Allocator + Copy>(
    alloc: A,
    store: &mut Store<A>,
    now: Time,
    query: &[u8],
) -> RequestOutcome
    ensures { MaintainsAs now query.now store.old result store.new }
{
    let limit = match steps(alloc, query) {
        Ok(limit) => limit,
        Err(refusal) => return RequestOutcome::Refused(refusal),
    };
    open_run(store, now);
    let progress = run_steps(store, limit);
    RequestOutcome::Brief(
        Status::Success,
        progress_body(progress, store.marks().raw()),
    )
}
