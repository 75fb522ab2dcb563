//! Deep copies of queries.
ghost use Rattle.std.specs.Prelude.{◌≡◌, IfOk};

use super::{Condition, Projection, Query, QueryParts};
use std::alloc::{AllocError, Allocator};
use ts_core::try_clone_strings;

impl<A: Allocator + Copy> Projection<A> {
    /// Returns a copy allocated in `alloc`.
    fn try_clone(&self, alloc: A) -> Result<Projection<A>, AllocError>
        ensures { IfOk result (λ c. c ≡ self.now) }
    {
        Ok(Projection::new(self.function, String::from_str(alloc, self.name.as_str())?))
    }
}

impl<A: Allocator + Copy> Condition<A> {
    /// Returns a copy allocated in `alloc`.
    fn try_clone(&self, alloc: A) -> Result<Condition<A>, AllocError>
        ensures { IfOk result (λ c. c ≡ self.now) }
    {
        Ok(Condition::new(
            String::from_str(alloc, self.tag.as_str())?,
            String::from_str(alloc, self.value.as_str())?,
            self.negated,
        ))
    }
}

/// Copies projections.
fn try_clone_projections<A: Allocator + Copy>(
    alloc: A,
    columns: &[Projection<A>],
) -> Result<Vec<Projection<A>, A>, AllocError>
    ensures { IfOk result (λ v. v.items ≡ columns.now) }
{
    let mut all = Vec::new(alloc);
    for column in columns {
        all.push(column.try_clone(alloc)?)?;
    }
    Ok(all)
}

/// Copies conditions.
fn try_clone_conditions<A: Allocator + Copy>(
    alloc: A,
    conditions: &[Condition<A>],
) -> Result<Vec<Condition<A>, A>, AllocError>
    ensures { IfOk result (λ v. v.items ≡ conditions.now) }
{
    let mut all = Vec::new(alloc);
    for condition in conditions {
        all.push(condition.try_clone(alloc)?)?;
    }
    Ok(all)
}

impl<A: Allocator + Copy> QueryParts<A> {
    /// Returns a copy allocated in `alloc`.
    fn try_clone(&self, alloc: A) -> Result<QueryParts<A>, AllocError>
        ensures { IfOk result (λ q. q ≡ self.now) }
    {
        Ok(QueryParts {
            columns: try_clone_projections(alloc, self.columns.as_slice())?,
            fill: self.fill,
            measurement: String::from_str(alloc, self.measurement.as_str())?,
            field: String::from_str(alloc, self.field.as_str())?,
            conditions: try_clone_conditions(alloc, self.conditions.as_slice())?,
            from: self.from,
            to: self.to,
            interval: self.interval,
            offset: self.offset,
            group_tags: try_clone_strings(alloc, self.group_tags.as_slice())?,
        })
    }
}

impl<A: Allocator + Copy> Query<A> {
    /// Returns a copy allocated in `alloc`.
    pub fn try_clone(&self, alloc: A) -> Result<Query<A>, AllocError>
        ensures { IfOk result (λ q. q ≡ self.now) }
    {
        let parts = self.parts.try_clone(alloc)?;
        Ok(Query { parts })
    }
}
