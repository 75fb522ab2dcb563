//! Queries over 100,000 series: an index narrows their columns by a tag, or each column is visited. The answers are the
//! same.
ghost use Rattle.std.specs.Prelude.{[], map, length, replicate, pos};
ghost use Rattle.ts_core.specs.aggregates.Aggregates.{empty_aggregate};
ghost use Rattle.ts_core.specs.store.TwoParts.{both_parts};
ghost use Rattle.ts_store.specs.store.ColumnStates.{with_points};

use crate::stores::{at_second, planned, store_of, write_all};
use arrayvec::ArrayVec;
use std::alloc::{AllocError, Allocator, Global};
use ts_check::Checked;
use ts_core::{Fill, KeyRef, Marks, Settings, Time, TimeUnit};
use ts_exec::{Table, count_points, execute_selected, fill};
use ts_line::{Line, read_line};
use ts_ql::{Query, parse};
use ts_raw::{Column, ColumnId, Index, PlainColumn, Points};
use ts_reply::{Epoch, Outcome, reply_json};
use ts_store::{CellWalk, Columns, Store, View};
use ts_testkit::fixed_seed;

/// Number of series.
const SERIES: usize = 100_000;

/// Settings without rules.
const SETTINGS: &str = r#"{"raw":"INF","rules":[]}"#;

/// Conditions of a query, the tags that it groups by, and the number of points that it matches.
type Asked = (&'static str, &'static str, u64);

/// Queries of the first series.
const QUERIES: [Asked; 12] = [
    ("AND host = 'h7' AND g = 'g7'", "", 1),
    ("AND host = 'h7' AND g = 'g8'", "", 0),
    ("AND g = 'g7' AND host != 'h7'", "", 999),
    ("AND g = 'g8' AND rack != ''", "", 1_000),
    ("AND rack = ''", "", 50_000),
    ("AND rack = '' AND g = 'g7'", ", host", 1_000),
    ("AND odd = 'x'", "", 1),
    ("AND odd = 'x' AND odd != 'x'", "", 0),
    ("AND odd = '' AND g = 'g7'", "", 999),
    ("AND host = 'none'", "", 0),
    ("AND dc = 'none'", "", 0),
    ("", ", rack, g", 100_000),
];

/// Line of a series that is registered between queries.
const LATER_LINE: &str = "cpu,host=none,g=g8,odd=x v=1i 10";

/// Queries after it.
const LATER: [Asked; 3] = [
    ("AND odd = 'x'", ", host", 2),
    ("AND host = 'none'", "", 1),
    ("AND rack = '' AND g != 'g7'", "", 49_001),
];

/// Columns of an index, which all have these points. Visits each column of a measurement and a field.
#[derive(Drop)]
struct Visited<'a, A: Allocator> {
    settings: &'a Settings<A>,
    marks: &'a Marks<A>,
    index: &'a Index<A>,
    points: PlainColumn<A>,
}

impl<'a, A: Allocator + Copy> View<A> for Visited<'a, A> {
    ghost seen = { λ v. record {
      settings = v.settings.now;
      marks = v.marks.now;
      columns = with_points v.index.now.columns (replicate (length v.index.now.columns) v.points.points);
      rules = map (λ r. record { rule = r; low = pos 0; cells = []; parts = λ k. both_parts empty_aggregate }) v.settings.now.rules;
    } };

    fn settings(&self) -> &Settings<A> {
        self.settings
    }

    fn marks(&self) -> &Marks<A> {
        self.marks
    }

    fn columns_of(&self, measurement: &str, field: &str) -> Columns<'_, A> {
        Columns::new(self.index.columns_of(measurement, field), self.index)
    }

    fn raw_range(&self, _column: ColumnId, from: i64, to: i64) -> Points<'_> {
        self.points.range(from, to)
    }

    fn cell_walk(&self, _rule: usize, _from: &i128, _to: &i128) -> CellWalk<'_, A> {
        CellWalk::from_slice(&[])
    }
}

/// Returns the line of the series with this number. Half of them have a tag `rack`, and one alone has a tag `odd`.
fn line_of(alloc: Global, number: usize) -> Result<String, AllocError> {
    let group = number % 100;
    if number == 77_707 {
        return format!(in alloc; "cpu,host=h{number},g=g{group},odd=x v=1i 10");
    }
    if number % 2 == 0 {
        return format!(in alloc; "cpu,host=h{number},g=g{group},rack=r{group} v=1i 10");
    }
    format!(in alloc; "cpu,host=h{number},g=g{group} v=1i 10")
}

/// Registers the series of a line, with a column of its field `v`; returns true if it was accepted.
fn register_line(index: &mut Index<Global>, line: &Line<'_, Global>) -> bool {
    if line.tags().len() > 8 {
        return false;
    }
    let mut tags = ArrayVec::<_, 8>::new();
    line.tags_by_key(&mut tags);
    match index.register(&KeyRef::new(line.measurement().text(), &tags)) {
        Ok(series) => index.add_column(series, "v").is_ok(),
        Err(_) => false,
    }
}

/// Registers the series of a line's text; returns true if it was accepted.
fn register(alloc: Global, index: &mut Index<Global>, text: &str) -> bool {
    match read_line(alloc, text, TimeUnit::Seconds, Time::least()) {
        Ok(Some(line)) => register_line(index, &line),
        _ => false,
    }
}

/// Writes a line to a store, and registers its series in an index; returns true if both accepted it.
fn add(alloc: Global, store: &mut Store<Global>, index: &mut Index<Global>, text: &str) -> bool {
    write_all(alloc, store, &[text]) && register(alloc, index, text)
}

/// Adds the series with a number.
fn add_number(
    alloc: Global,
    store: &mut Store<Global>,
    index: &mut Index<Global>,
    number: usize,
) -> bool {
    match line_of(alloc, number) {
        Ok(text) => add(alloc, store, index, text.as_str()),
        Err(_) => false,
    }
}

/// Adds all series.
fn add_all(alloc: Global, store: &mut Store<Global>, index: &mut Index<Global>) -> bool {
    for number in 0..SERIES {
        if !add_number(alloc, store, index, number) {
            return false;
        }
    }
    true
}

/// Returns a column with the point of each line.
fn one_point(alloc: Global) -> Option<PlainColumn<Global>> {
    let time = at_second(10)?;
    let mut column = PlainColumn::new(alloc);
    if column.prepare(time, 1).is_err() {
        return None;
    }
    column.commit();
    Some(column)
}

/// Returns the text of the query with these conditions and group tags.
fn query_text(alloc: Global, conditions: &str, tags: &str) -> Result<String, AllocError> {
    format!(in alloc;
        "SELECT COUNT(v),SUM(v) FROM cpu WHERE time >= 0 AND time < 1m {conditions} GROUP BY time(1m){tags}"
    )
}

/// Returns the query of a text.
fn parsed(alloc: Global, text: &str) -> Option<Query<Global>> {
    match parse(alloc, text, Time::least()) {
        Ok(queries) => queries.into_iter().next(),
        Err(_) => None,
    }
}

/// Returns the query with these conditions and group tags.
fn query_of(alloc: Global, conditions: &str, tags: &str) -> Option<Query<Global>> {
    match query_text(alloc, conditions, tags) {
        Ok(text) => parsed(alloc, text.as_str()),
        Err(_) => None,
    }
}

/// Returns the plan of such a query.
fn plan_of(alloc: Global, store: &Store<Global>, asked: &Asked) -> Option<Checked<Global>> {
    match query_of(alloc, asked.0, asked.1) {
        Some(query) => planned(alloc, store, &query),
        None => None,
    }
}

/// Returns a table as JSON.
fn body_of(alloc: Global, table: Table<'_, Global>, filling: Fill) -> Option<String> {
    let outcomes = [Outcome::Rows(fill(table, filling))];
    reply_json(alloc, &outcomes, Epoch::Units(TimeUnit::Seconds)).ok()
}

/// Returns the answer to a plan as JSON.
fn answer_of<V: View<Global>>(alloc: Global, view: &V, plan: &Checked<Global>) -> Option<String> {
    match execute_selected(alloc, view, plan) {
        Ok(table) => body_of(alloc, table, plan.query().fill()),
        Err(_) => None,
    }
}

/// Returns true if a view answers a plan by this text.
fn has_answer<V: View<Global>>(
    alloc: Global,
    view: &V,
    plan: &Checked<Global>,
    body: &str,
) -> bool {
    match answer_of(alloc, view, plan) {
        Some(found) => found.as_str() == body,
        None => false,
    }
}

/// Returns true if a store and another view answer a plan alike.
fn are_alike<V: View<Global>>(
    alloc: Global,
    store: &Store<Global>,
    view: &V,
    plan: &Checked<Global>,
) -> bool {
    match answer_of(alloc, store, plan) {
        Some(body) => has_answer(alloc, view, plan, body.as_str()),
        None => false,
    }
}

/// Returns true if a store has this number of points for a plan.
fn has_count(store: &Store<Global>, plan: &Checked<Global>, points: u64) -> bool {
    match count_points(store, plan) {
        Ok(count) => count == points,
        Err(_) => false,
    }
}

/// Returns true if a store and another view answer a query alike, and by its number of points.
fn is_right<V: View<Global>>(
    alloc: Global,
    store: &Store<Global>,
    view: &V,
    asked: &Asked,
) -> bool {
    match plan_of(alloc, store, asked) {
        Some(plan) => are_alike(alloc, store, view, &plan) && has_count(store, &plan, asked.2),
        None => false,
    }
}

/// Returns the number of the first queries, up to the first one that a store and another view don't answer alike, or
/// not by its number of points.
fn count_right<V: View<Global>>(
    alloc: Global,
    store: &Store<Global>,
    view: &V,
    queries: &[Asked],
) -> usize {
    for (at, asked) in queries.iter().enumerate() {
        if !is_right(alloc, store, view, asked) {
            return at;
        }
    }
    queries.len()
}

/// Returns the same of a store and a view that visits each column of an index.
fn right_of(
    alloc: Global,
    store: &Store<Global>,
    index: &Index<Global>,
    queries: &[Asked],
) -> Option<usize> {
    let points = one_point(alloc)?;
    let visited = Visited {
        settings: store.settings(),
        marks: store.marks(),
        index,
        points,
    };
    Some(count_right(alloc, store, &visited, queries))
}

/// Adds all series; returns the number of the first queries that are right.
fn right_of_all(
    alloc: Global,
    store: &mut Store<Global>,
    index: &mut Index<Global>,
) -> Option<usize> {
    if add_all(alloc, store, index) {
        right_of(alloc, store, index, &QUERIES)
    } else {
        None
    }
}

/// Adds the later series; returns the number of the first of the later queries that are right.
fn right_later(
    alloc: Global,
    store: &mut Store<Global>,
    index: &mut Index<Global>,
) -> Option<usize> {
    if add(alloc, store, index, LATER_LINE) {
        right_of(alloc, store, index, &LATER)
    } else {
        None
    }
}

/// Returns both numbers for a store and an index.
fn right_in(
    alloc: Global,
    store: &mut Store<Global>,
    index: &mut Index<Global>,
) -> (Option<usize>, Option<usize>) {
    let first = right_of_all(alloc, store, index);
    (first, right_later(alloc, store, index))
}

/// Returns both numbers for an empty store and an empty index.
fn right_of_both(alloc: Global) -> Option<(Option<usize>, Option<usize>)> {
    let mut store = store_of(alloc, alloc, SETTINGS)?;
    let mut index = Index::new(alloc, fixed_seed()?);
    Some(right_in(alloc, &mut store, &mut index))
}

#[test]
fn an_index_changes_no_answer(rt: HostRuntime) {
    assert_eq!(rt;
        right_of_both(rt.alloc()),
        Some((Some(QUERIES.len()), Some(LATER.len())))
    );
}
