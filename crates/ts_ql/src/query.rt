//! A parsed query: its columns, conditions, time range, buckets, tags and fill option.
ghost use Rattle.std.specs.Prelude.{◌≡◌, string_bytes};

use std::alloc::Allocator;
use std::marker::Model;
use ts_core::{Buckets, Fill, Function};

mod copies;
mod count;

pub use count::count_query;

/// Column of the result: a function and a name.
#[derive(Drop)]
pub struct Projection<A: Allocator> {
    function: Function,
    name: String<A>,
}

impl<A: Allocator> Model for Projection<A> {
    ghost use Rattle.std.specs.Prelude.{string_bytes};
    ghost use Rattle.ts_ql.specs.Selects.{Projection as ProjectionValue};

    ghost Value = { ProjectionValue };

    ghost view = { λ c. record { function = c.function; name = string_bytes c.name } };
}

impl<A: Allocator> Projection<A> {
    /// Creates a column.
    pub fn new(function: Function, name: String<A>) -> Projection<A>
        ensures { result ≡ record { function = function; name = string_bytes name } }
    {
        Projection { function, name }
    }

    /// Returns the function.
    pub fn function(&self) -> Function
        ensures { result ≡ self.now.function }
    {
        self.function
    }

    /// Returns the name: the alias, or else the function's name.
    pub fn name(&self) -> &str
        ensures { result.now ≡ self.now.name }
    {
        self.name.as_str()
    }
}

/// Condition on a tag: equal to a value, or different from it.
#[derive(Drop)]
pub struct Condition<A: Allocator> {
    tag: String<A>,
    value: String<A>,
    negated: bool,
}

impl<A: Allocator> Model for Condition<A> {
    ghost use Rattle.std.specs.Prelude.{string_bytes};
    ghost use Rattle.ts_core.specs.queries.Queries.{Condition as ConditionValue};

    ghost Value = { ConditionValue };

    ghost view = { λ c. record { tag = string_bytes c.tag; value = string_bytes c.value; negated = c.negated } };
}

impl<A: Allocator> Condition<A> {
    /// Creates a condition.
    pub fn new(tag: String<A>, value: String<A>, negated: bool) -> Condition<A>
        ensures { result ≡ record { tag = string_bytes tag; value = string_bytes value; negated = negated } }
    {
        Condition {
            tag,
            value,
            negated,
        }
    }

    /// Returns the tag.
    pub fn tag(&self) -> &str
        ensures { result.now ≡ self.now.tag }
    {
        self.tag.as_str()
    }

    /// Returns the value.
    pub fn value(&self) -> &str
        ensures { result.now ≡ self.now.value }
    {
        self.value.as_str()
    }

    /// Returns true if the tag must differ from the value.
    pub fn negated(&self) -> bool
        ensures { result ≡ self.now.negated }
    {
        self.negated
    }
}

/// Parts of a query, for `Query::new`. Times are in nanoseconds of the Unix epoch.
#[derive(Drop)]
pub struct QueryParts<A: Allocator> {
    /// Columns of the result, in statement order.
    pub columns: Vec<Projection<A>, A>,
    /// Fill option, for buckets without data.
    pub fill: Fill,
    pub measurement: String<A>,
    /// Field that all functions are applied to.
    pub field: String<A>,
    /// Tag conditions; all must hold.
    pub conditions: Vec<Condition<A>, A>,
    /// Start of the time range, inclusive.
    pub from: i64,
    /// End of the time range, exclusive.
    pub to: i64,
    /// Length of a bucket.
    pub interval: i64,
    /// Offset of the bucket grid from the Unix epoch.
    pub offset: i64,
    /// Tags to group by.
    pub group_tags: Vec<String<A>, A>,
}

impl<A: Allocator> Model for QueryParts<A> {
    ghost use Rattle.std.specs.Prelude.{string_bytes};
    ghost use Rattle.ts_ql.specs.Selects.{Select, texts};

    ghost Value = { Select };

    ghost view = { λ q. record {
      columns = q.columns.items;
      fill = q.fill;
      query = record {
        measurement = string_bytes q.measurement;
        field = string_bytes q.field;
        conditions = q.conditions.items;
        from = q.from;
        to = q.to;
        interval = q.interval;
        offset = q.offset;
        group_tags = texts q.group_tags.items;
      };
    } };
}

/// A parsed query. Times are in nanoseconds of the Unix epoch.
#[derive(Drop)]
pub struct Query<A: Allocator> {
    parts: QueryParts<A>,
}

impl<A: Allocator> Model for Query<A> {
    ghost use Rattle.ts_ql.specs.QueryRules.{IsSelect};
    ghost use Rattle.ts_ql.specs.Selects.{Select};

    ghost Value = { Select };

    ghost view = { λ q. q.parts };

    ghost invariant = { λ q. IsSelect q.parts };
}

/// Half-open time range, in nanoseconds: `from` is inclusive, `to` exclusive.
#[derive(Clone, Copy, Debug)]
pub(crate) struct Span {
    pub from: i64,
    pub to: i64,
}

impl<A: Allocator> Query<A> {
    ghost use Rattle.std.specs.Prelude.{◌≡◌, ◌≤ℤ◌, pos};
    ghost use Rattle.std.specs.List.Sorted.{IsStrictlySortedBy};
    ghost use Rattle.ts_core.specs.facts.Facts.{text_cmp};
    ghost use Rattle.ts_ql.specs.BucketLimits.{IsLimited};
    ghost use Rattle.ts_ql.specs.QueryRules.{IsSelect};
    ghost use Rattle.ts_ql.specs.Selects.{texts};

    /// Creates a query from its parts, which must satisfy the rules of all queries. A bucket has at least 1 nanosecond,
    /// and the range doesn't end before it starts. The first bucket doesn't start before the least time, and there are
    /// at most 10,000 buckets. Column names are distinct and not `time`; group tags are distinct and in byte order.
    pub fn new(parts: QueryParts<A>) -> Query<A>
        requires { IsSelect parts }
        ensures { result ≡ parts }
    {
        Query { parts }
    }

    /// Returns the columns, in statement order.
    pub fn columns(&self) -> &[Projection<A>]
        ensures { result.now ≡ self.now.columns }
    {
        self.parts.columns.as_slice()
    }

    /// Returns the fill option, for buckets without data.
    pub fn fill(&self) -> Fill
        ensures { result ≡ self.now.fill }
    {
        self.parts.fill
    }

    /// Returns the measurement.
    pub fn measurement(&self) -> &str
        ensures { result.now ≡ self.now.query.measurement }
    {
        self.parts.measurement.as_str()
    }

    /// Returns the field that all functions are applied to.
    pub fn field(&self) -> &str
        ensures { result.now ≡ self.now.query.field }
    {
        self.parts.field.as_str()
    }

    /// Returns the tag conditions; all must hold.
    pub fn conditions(&self) -> &[Condition<A>]
        ensures { result.now ≡ self.now.query.conditions }
    {
        self.parts.conditions.as_slice()
    }

    /// Returns the start of the time range, inclusive. It may be 1 nanosecond after the greatest time.
    pub fn from(&self) -> i64
        ensures value { result ≡ self.now.query.from }
        ensures range { self.now.query.from ≤ℤ self.now.query.to }
        ensures limits { IsLimited self.now.query }
    {
        self.parts.from
    }

    /// Returns the end of the time range, exclusive. It may be 1 nanosecond after the greatest time.
    pub fn to(&self) -> i64
        ensures value { result ≡ self.now.query.to }
        ensures range { self.now.query.from ≤ℤ self.now.query.to }
    {
        self.parts.to
    }

    /// Returns the length of a bucket, at least 1 nanosecond.
    pub fn interval(&self) -> i64
        ensures value { result ≡ self.now.query.interval }
        ensures some { pos 1 ≤ℤ self.now.query.interval }
    {
        self.parts.interval
    }

    /// Returns the offset of the bucket grid from the Unix epoch.
    pub fn offset(&self) -> i64
        ensures { result ≡ self.now.query.offset }
    {
        self.parts.offset
    }

    /// Returns the time buckets.
    pub fn buckets(&self) -> Buckets
        ensures interval { result.interval ≡ self.now.query.interval }
        ensures offset { result.offset ≡ self.now.query.offset }
        ensures some { pos 1 ≤ℤ self.now.query.interval }
    {
        Buckets {
            interval: self.parts.interval,
            offset: self.parts.offset,
        }
    }

    /// Returns the tags to group by, in byte order and without duplicates.
    pub fn group_tags(&self) -> &[String<A>]
        ensures value { texts result.now ≡ self.now.query.group_tags }
        ensures order { IsStrictlySortedBy text_cmp (texts result.now) }
    {
        self.parts.group_tags.as_slice()
    }
}
