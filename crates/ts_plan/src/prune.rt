//! Prunes the steps that can't reach the end of the range.
ghost use Rattle.std.specs.Prelude.{◌≡◌, ◌≤◌, length, drop};
ghost use Rattle.ts_plan.specs.Steps.{Ascends, starts_first, starts_at, reaches_end, pruned_steps};

use crate::instant::Instant;
use crate::steps::Step;
use std::alloc::Allocator;
use ts_check::QueryContext;

/// Returns true if the first step starts at `instant`.
fn starts_first(steps: &[Step], instant: Instant) -> bool
    ensures { result ≡ starts_first instant steps.now }
{
    match steps.first() {
        None => false,
        Some(step) => step.from == instant,
    }
}

/// Returns true if a step starts at `instant` (binary search).
fn is_found(steps: &[Step], instant: &Instant) -> bool
    requires { Ascends steps.now }
    ensures { result ≡ starts_at instant.now steps.now }
{
    steps
        .binary_search_by(|step| step.from.cmp(instant))
        .is_ok()
}

/// Returns true if a step starts at `instant`. Tries the first step before a binary search.
fn starts_at(steps: &[Step], instant: Instant) -> bool
    requires { Ascends steps.now }
    ensures { result ≡ starts_at instant steps.now }
{
    if starts_first(steps, instant) {
        return true;
    }
    is_found(steps, &instant)
}

/// Returns true if the end can be reached from `instant`. It can from the end itself, from times at or above the raw
/// mark, and from the start of a step.
pub(crate) fn reaches_end<A: Allocator>(
    context: &QueryContext<'_, A>,
    steps: &[Step],
    instant: Instant,
) -> bool
    requires { Ascends steps.now }
    ensures { result ≡ reaches_end context.now steps.now instant }
{
    instant == Instant::new(context.end())
        || instant >= Instant::new(context.mark())
        || starts_at(steps, instant)
}

/// Returns the steps from index `begin` on.
pub(crate) fn steps_from(steps: &[Step], begin: usize) -> &[Step]
    requires { begin ≤ length steps.now }
    ensures { result.now ≡ drop begin steps.now }
{
    &steps[begin..]
}

/// Compacts the steps from which the end is reachable at the back of the slice; returns the index of the first.
pub(crate) fn prune_steps<A: Allocator>(context: &QueryContext<'_, A>, steps: &mut [Step]) -> usize
    requires { Ascends steps.old }
    ensures bound { result ≤ length steps.new }
    ensures kept { drop result steps.new ≡ pruned_steps context.now steps.old }
{
    let mut begin = steps.len();
    let mut index = steps.len();
    while index > 0 {
        index -= 1;
        let step = steps[index];
        if reaches_end(context, steps_from(steps, begin), step.to) {
            begin -= 1;
            steps[begin] = step;
        }
    }
    begin
}
