//! Tag conditions of a statement.
ghost use Rattle.std.specs.Prelude.{◌≡◌, [], ◌∷◌, ◌++◌, IfOk};
ghost use Rattle.ts_ql.specs.Lists.{condition};

use crate::lists::shadow::Shadow;
use crate::literal::text_spelled;
use crate::query::Condition;
use std::alloc::{AllocError, Allocator};
use std::marker::Model;

/// Condition as written: a tag is equal to a value, or different from it.
#[derive(Clone, Copy)]
pub(crate) struct TagTest<'a> {
    pub tag: &'a str,
    pub value: &'a str,
    pub negated: bool,
}

/// Tag conditions of a statement, in its order.
#[derive(Drop)]
pub(crate) struct Conditions<A: Allocator> {
    /// `None` after memory was refused.
    conditions: Option<Vec<Condition<A>, A>>,
    shadow: Shadow,
}

impl<A: Allocator> Model for Conditions<A> {
    ghost use Rattle.std.specs.Prelude.{◌≡◌, List, IfSome};
    ghost use Rattle.ts_core.specs.queries.Queries.{Condition as ConditionValue};

    ghost Value = { List ConditionValue };

    ghost view = { λ c. c.shadow.lists.conditions };

    ghost invariant = { λ c. IfSome c.conditions (λ v. v.items ≡ c.shadow.lists.conditions) };
}

/// Appends a condition.
fn push<A: Allocator + Copy>(
    alloc: A,
    conditions: &mut Vec<Condition<A>, A>,
    test: &TagTest<'_>,
) -> Result<(), AllocError>
    ensures { IfOk result (λ _. conditions.new.items ≡ conditions.old.items ++ condition test.now ∷ []) }
{
    let tag = text_spelled(alloc, test.tag)?;
    let value = text_spelled(alloc, test.value)?;
    conditions.push(Condition::new(tag, value, test.negated))?;
    Ok(())
}

impl<A: Allocator + Copy> Conditions<A> {
    /// Creates an empty list.
    pub fn new(alloc: A) -> Conditions<A>
        ensures { result ≡ [] }
    {
        Conditions {
            conditions: Some(Vec::new(alloc)),
            shadow: Shadow::new(),
        }
    }

    /// Appends a condition.
    pub fn push(&mut self, alloc: A, test: &TagTest<'_>)
        ensures { self.new ≡ self.old ++ condition test.now ∷ [] }
    {
        self.shadow = Shadow::with_condition(&self.shadow, test);
        if let Some(conditions) = &mut self.conditions {
            if push(alloc, conditions, test).is_err() {
                self.conditions = None;
            }
        }
    }

    /// Returns the list. Fails if memory was refused.
    pub fn into_vec(self) -> Result<Vec<Condition<A>, A>, AllocError>
        ensures { IfOk result (λ conditions. conditions.items ≡ self) }
    {
        self.conditions.ok_or(AllocError)
    }

    /// Returns the ghost of the list.
    pub fn shadow(&self) -> &Shadow
        ensures { result.now.lists.conditions ≡ self.now }
    {
        &self.shadow
    }
}
