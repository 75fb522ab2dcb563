//! Removal of a part from an aggregate.
ghost use Rattle.std.specs.Prelude.{◌↔◌, IsSome, IfSome};
ghost use Rattle.ts_core.specs.aggregates.Remainders.{IsOnlyRest, PossibleLaws};

use crate::aggregates::Partial;

/// A partial aggregate from which a part can be removed without folding the other points again.
pub trait Remainder: Partial {
    ghost possible: { Self → Type 0 };

    ghost determined: { Self → Self → Type 0 };

    /// Returns `self` without `part`, or `None` if `self` and `part` don't determine the rest.
    fn without(self, part: Self) -> Option<Self>
        ensures determined { IsSome result ↔ determined self part }
        ensures rest { IfSome result (λ rest. IsOnlyRest possible Self.join self part rest) };

    ghost possible_laws: { PossibleLaws possible Self.nil Self.one Self.join };
}
