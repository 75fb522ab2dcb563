//! Parts of an aggregate that are kept of raw points.
ghost use Rattle.std.specs.Prelude.{◌≡◌, true};
ghost use Rattle.std.specs.List.{list_all};
ghost use Rattle.ts_exec.specs.Selections.{suffice};

use std::alloc::Allocator;
use ts_core::Function;
use ts_ql::Projection;

/// Parts of an aggregate that are kept.
#[derive(Clone, Copy, Debug, PartialEq, Eq)]
pub(crate) enum AggregateParts {
    /// Count.
    CountAlone,
    /// Count and sum.
    CountAndSum,
    /// Count, sum, minimum and maximum.
    Bounds,
    /// Count, sum and extremes.
    Whole,
}

impl AggregateParts {
    /// Returns true if the function's value needs only these parts.
    fn suffice(self, function: Function) -> bool
        ensures { result ≡ suffice self function }
    {
        match self {
            AggregateParts::CountAlone => matches!(&function, Function::Count),
            AggregateParts::CountAndSum => {
                matches!(&function, Function::Count | Function::Sum | Function::Mean)
            }
            AggregateParts::Bounds => !matches!(&function, Function::First | Function::Last),
            AggregateParts::Whole => true,
        }
    }
}

/// Returns true if the function of a column needs only these parts.
fn suffice_for_one<A: Allocator>(parts: &AggregateParts, column: &Projection<A>) -> bool
    ensures { result ≡ suffice parts.now column.now.function }
{
    parts.suffice(column.function())
}

/// Returns true if the functions of all columns need only these parts.
fn suffice_for_all<A: Allocator>(parts: &AggregateParts, columns: &[Projection<A>]) -> bool
    ensures { result ≡ list_all (λ p. suffice parts.now p.function) columns.now }
{
    columns.iter().all(|column| suffice_for_one(parts, column))
}

/// Returns the fewest parts that the functions of these columns need.
pub(crate) fn parts_for<A: Allocator>(columns: &[Projection<A>]) -> AggregateParts
    ensures { list_all (λ p. suffice result p.function) columns.now ≡ true }
{
    if suffice_for_all(&AggregateParts::CountAlone, columns) {
        AggregateParts::CountAlone
    } else if suffice_for_all(&AggregateParts::CountAndSum, columns) {
        AggregateParts::CountAndSum
    } else if suffice_for_all(&AggregateParts::Bounds, columns) {
        AggregateParts::Bounds
    } else {
        AggregateParts::Whole
    }
}
