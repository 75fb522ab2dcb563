//! Iterators over the rows of a filled answer. They do not allocate.
ghost use Rattle.std.specs.Prelude.{◌≡◌, filter};
ghost use Rattle.std.specs.Iterator.{YieldsFirst, item_count};
ghost use Rattle.ts_core.specs.queries.Fills.{has_data, last_data, filled_rows};
ghost use Rattle.ts_exec.specs.Fillings.{EndsFit, functions_of, rows_at, row_content, content_rows, content_value};

use std::alloc::Allocator;
use std::marker::Model;
use ts_core::{Agg, Fill, Function, Partial, Value};
use ts_ql::Projection;

/// Content of a row.
#[derive(Clone, Copy, Debug)]
pub(crate) enum RowContent {
    /// Data of the row's bucket, or of an earlier one.
    Data(Agg),
    /// Fill number, instead of data.
    Number(i64),
    /// Nulls, as there is no earlier data.
    Nothing,
}

impl RowContent {
    /// Returns the content of a row with data `own`. `latest` is the last data up to this row.
    fn by(fill: Fill, latest: Option<Agg>, own: Agg) -> RowContent
        ensures { result ≡ row_content fill latest own }
    {
        match fill {
            Fill::Null | Fill::None => RowContent::Data(own),
            Fill::Previous => match latest {
                None => RowContent::Nothing,
                Some(data) => RowContent::Data(data),
            },
            Fill::Number(number) => {
                if own.count() == 0 {
                    RowContent::Number(number)
                } else {
                    RowContent::Data(own)
                }
            }
        }
    }

    /// Returns the value of a column with this function.
    fn value(&self, function: Function) -> Value
        ensures { result ≡ content_value self.now function }
    {
        match self {
            RowContent::Data(data) => function.value_of(data),
            RowContent::Number(number) => function.number_value(*number),
            RowContent::Nothing => Value::Null,
        }
    }
}

/// Iterator over the values of a row, one per column. Its model is the list of those that remain.
#[derive(Drop)]
pub struct Values<'a, A: Allocator> {
    shown: RowContent,
    left: &'a [Projection<A>],
}

impl<'a, A: Allocator> Model for Values<'a, A> {
    ghost use Rattle.std.specs.Prelude.{List, map};
    ghost use Rattle.ts_core.specs.declared.queries.value.Value.{Value as ColumnValue};
    ghost use Rattle.ts_exec.specs.Fillings.{functions_of, content_value};

    ghost Value = { List ColumnValue };

    ghost view = { λ v. map (content_value v.shown) (functions_of v.left.now) };
}

impl<'a, A: Allocator> Iterator for Values<'a, A> {
    type Item = Value;

    ghost next_gives = { YieldsFirst (λ v. v) };

    ghost remaining = { item_count (λ v. v) };

    fn next(&mut self) -> Option<Value> {
        let (first, others) = self.left.split_first()?;
        self.left = others;
        Some(self.shown.value(first.function()))
    }
}

/// Row of a filled answer.
#[derive(Drop)]
pub struct FilledRow<'a, A: Allocator> {
    start: i128,
    shown: RowContent,
    columns: &'a [Projection<A>],
}

impl<'a, A: Allocator> Model for FilledRow<'a, A> {
    ghost use Rattle.ts_core.specs.queries.Fills.{FilledRow as RowValue};
    ghost use Rattle.ts_exec.specs.Fillings.{functions_of, content_row};

    ghost Value = { RowValue };

    ghost view = { λ r. content_row r.shown (functions_of r.columns.now) r.start };
}

impl<'a, A: Allocator> FilledRow<'a, A> {
    /// Returns the start of the row's bucket, in nanoseconds of the Unix epoch.
    pub fn start(&self) -> i128
        ensures { result ≡ self.now.start }
    {
        self.start
    }

    /// Returns the values, one per column of the query.
    pub fn values(&self) -> Values<'a, A>
        ensures { result ≡ self.now.values }
    {
        Values {
            shown: self.shown,
            left: self.columns,
        }
    }
}

/// A bucket with its data.
#[derive(Drop)]
pub(crate) struct BucketRow {
    start: i128,
    aggregate: Agg,
}

impl Model for BucketRow {
    ghost use Rattle.ts_core.specs.queries.Answers.{Row};

    ghost Value = { Row };

    ghost view = { λ r. record { start = r.start; aggregate = r.aggregate } };
}

impl BucketRow {
    fn has_data(&self) -> bool
        ensures { result ≡ has_data self.now }
    {
        self.aggregate.count() != 0
    }
}

/// Iterator over consecutive buckets. Its model is the list of those that remain.
#[derive(Drop)]
pub(crate) struct BucketRows<'a> {
    start: i128,
    interval: i64,
    left: &'a [Agg],
}

impl<'a> Model for BucketRows<'a> {
    ghost use Rattle.std.specs.Prelude.{List};
    ghost use Rattle.ts_core.specs.queries.Answers.{Row};
    ghost use Rattle.ts_exec.specs.Fillings.{EndsFit, rows_at};

    ghost Value = { List Row };

    ghost view = { λ r. rows_at r.interval r.start r.left.now };

    ghost invariant = { λ r. EndsFit r.interval (rows_at r.interval r.start r.left.now) };
}

impl<'a> BucketRows<'a> {
    /// Creates the rows of these aggregates; the bucket of the first begins at `start`.
    pub(crate) fn new(start: i128, interval: i64, aggregates: &'a [Agg]) -> BucketRows<'a>
        requires { EndsFit interval (rows_at interval start aggregates.now) }
        ensures { result ≡ rows_at interval start aggregates.now }
    {
        BucketRows {
            start,
            interval,
            left: aggregates,
        }
    }
}

impl Iterator for BucketRows<'_> {
    type Item = BucketRow;

    ghost next_gives = { YieldsFirst (λ r. r) };

    ghost remaining = { item_count (λ r. r) };

    fn next(&mut self) -> Option<BucketRow> {
        let (first, others) = self.left.split_first()?;
        let start = self.start;
        self.left = others;
        self.start = start + i128::from(self.interval);
        Some(BucketRow {
            start,
            aggregate: *first,
        })
    }
}

/// Returns the next row with data, skipping those without.
fn next_with_data(rows: &mut BucketRows<'_>) -> Option<BucketRow>
    ensures { YieldsFirst (filter has_data) rows.old result rows.new }
{
    while let Some(row) = rows.next() {
        if row.has_data() {
            return Some(row);
        }
    }
    None
}

/// Returns the next row that the fill option shows.
fn next_shown(rows: &mut BucketRows<'_>, fill: Fill) -> Option<BucketRow>
    ensures { YieldsFirst (content_rows fill) rows.old result rows.new }
{
    match fill {
        Fill::None => next_with_data(rows),
        _ => rows.next(),
    }
}

/// Returns the data of the row, or else the earlier data.
fn last_data(earlier: Option<Agg>, row: &BucketRow) -> Option<Agg>
    ensures { result ≡ last_data earlier row.now }
{
    if row.has_data() {
        Some(row.aggregate)
    } else {
        earlier
    }
}

/// Iterator over the filled rows of a group. Its model is the list of those that remain.
#[derive(Drop)]
pub struct FilledRows<'a, A: Allocator> {
    rows: BucketRows<'a>,
    fill: Fill,
    latest: Option<Agg>,
    columns: &'a [Projection<A>],
}

impl<'a, A: Allocator> Model for FilledRows<'a, A> {
    ghost use Rattle.std.specs.Prelude.{List};
    ghost use Rattle.ts_core.specs.queries.Fills.{FilledRow as RowValue};
    ghost use Rattle.ts_exec.specs.Fillings.{functions_of, rows_following, content_rows};

    ghost Value = { List RowValue };

    ghost view = { λ r. rows_following r.fill (functions_of r.columns.now) r.latest (content_rows r.fill r.rows) };
}

impl<'a, A: Allocator> FilledRows<'a, A> {
    /// Fills these rows.
    pub(crate) fn new(
        rows: BucketRows<'a>,
        fill: Fill,
        columns: &'a [Projection<A>],
    ) -> FilledRows<'a, A>
        ensures { result ≡ filled_rows fill (functions_of columns.now) rows.entry }
    {
        FilledRows {
            rows,
            fill,
            latest: None,
            columns,
        }
    }
}

impl<'a, A: Allocator> Iterator for FilledRows<'a, A> {
    type Item = FilledRow<'a, A>;

    ghost next_gives = { YieldsFirst (λ r. r) };

    ghost remaining = { item_count (λ r. r) };

    fn next(&mut self) -> Option<FilledRow<'a, A>> {
        let row = next_shown(&mut self.rows, self.fill)?;
        self.latest = last_data(self.latest, &row);
        Some(FilledRow {
            start: row.start,
            shown: RowContent::by(self.fill, self.latest, row.aggregate),
            columns: self.columns,
        })
    }
}
