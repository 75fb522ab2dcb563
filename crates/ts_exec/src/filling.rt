//! `fill`: applies the fill option to the rows of an answer.
ghost use Rattle.std.specs.Prelude.{◌≡◌, ◌≤ℤ◌, pos, length};
ghost use Rattle.std.specs.Iterator.{YieldsFirst, item_count};
ghost use Rattle.ts_core.specs.aggregates.Buckets.{bucket_of, bucket_start};
ghost use Rattle.ts_exec.specs.Fillings.{AreNear, filled_answer};

use crate::filled::{BucketRows, FilledRows};
use crate::group_values::GroupValues;
use crate::groups::GroupRows;
use crate::table::Table;
use std::alloc::Allocator;
use std::marker::Model;
use ts_core::{Buckets, Fill};
use ts_ql::{Projection, Query};

/// Answer with buckets filled, and its query.
#[derive(Drop)]
pub struct Rows<'a, A: Allocator> {
    table: Table<'a, A>,
    fill: Fill,
}

impl<'a, A: Allocator> Model for Rows<'a, A> {
    ghost use Rattle.ts_exec.specs.Fillings.{FilledAnswer, filled_answer};

    ghost Value = { FilledAnswer };

    ghost view = { λ r. filled_answer r.fill r.table };
}

/// Fills the buckets without data. Does not allocate: rows are filled as they are iterated.
pub fn fill<'a, A: Allocator>(table: Table<'a, A>, fill: Fill) -> Rows<'a, A>
    ensures { result ≡ filled_answer fill table.entry }
{
    Rows { table, fill }
}

/// Returns the start of the bucket that contains a time.
fn bucket_begin(time: i64, interval: i64, offset: i64) -> i128
    requires { pos 1 ≤ℤ interval }
    ensures value { result ≡ bucket_start (bucket_of time interval offset) interval offset }
    ensures near { AreNear result interval }
{
    let buckets = Buckets { interval, offset };
    buckets.bucket(i128::from(time)).start
}

impl<'a, A: Allocator> Rows<'a, A> {
    /// Returns the query.
    pub fn query(&self) -> &Query<A>
        ensures { result.now ≡ self.now.select }
    {
        self.table.query()
    }

    /// Returns an iterator over the groups, in byte order of their tag values.
    pub fn groups(&self) -> FilledGroups<'_, 'a, A>
        ensures { result ≡ self.now.groups }
    {
        let query = self.table.query();
        FilledGroups {
            start: bucket_begin(query.from(), query.interval(), query.offset()),
            interval: query.interval(),
            fill: self.fill,
            columns: query.columns(),
            groups: self.table.groups(),
            given: 0,
        }
    }
}

/// Group of a filled answer.
#[derive(Drop)]
pub struct FilledGroup<'r, 'a, A: Allocator> {
    /// Values of the tags that the query groups by, in the order of the tags.
    pub values: GroupValues<'r, 'a>,
    /// Rows, ordered by time.
    pub rows: FilledRows<'r, A>,
}

impl<'r, 'a, A: Allocator> Model for FilledGroup<'r, 'a, A> {
    ghost use Rattle.ts_core.specs.queries.Fills.{FilledGroup as GroupValue};

    ghost Value = { GroupValue };

    ghost view = { λ g. record { values = g.values; rows = g.rows } };
}

/// Iterator over the filled groups. Its model is the list of those that remain.
#[derive(Drop)]
pub struct FilledGroups<'r, 'a, A: Allocator> {
    start: i128,
    interval: i64,
    fill: Fill,
    columns: &'r [Projection<A>],
    groups: &'r [GroupRows<'a, A>],
    given: usize,
}

impl<'r, 'a, A: Allocator> Model for FilledGroups<'r, 'a, A> {
    ghost use Rattle.std.specs.Prelude.{List, map, drop};
    ghost use Rattle.ts_core.specs.queries.Fills.{FilledGroup as GroupValue};
    ghost use Rattle.ts_exec.specs.Fillings.{functions_of, group_at, AreNear};

    ghost Value = { List GroupValue };

    ghost view = { λ g. map (group_at g.fill (functions_of g.columns.now) g.interval g.start) (drop g.given g.groups.now) };

    ghost invariant = { λ g. AreNear g.start g.interval };
}

impl<'r, 'a, A: Allocator> FilledGroups<'r, 'a, A> {
    /// Returns the number of groups left, in constant time.
    pub fn len(&self) -> usize
        ensures { result ≡ length self.now }
    {
        self.groups.len().saturating_sub(self.given)
    }
}

impl<'r, 'a, A: Allocator> Iterator for FilledGroups<'r, 'a, A> {
    type Item = FilledGroup<'r, 'a, A>;

    ghost next_gives = { YieldsFirst (λ g. g) };

    ghost remaining = { item_count (λ g. g) };

    fn next(&mut self) -> Option<FilledGroup<'r, 'a, A>> {
        if self.given >= self.groups.len() {
            return None;
        }
        let group = &self.groups[self.given];
        self.given += 1;
        let rows = BucketRows::new(self.start, self.interval, group.rows());
        Some(FilledGroup {
            values: group.values(),
            rows: FilledRows::new(rows, self.fill, self.columns),
        })
    }
}
