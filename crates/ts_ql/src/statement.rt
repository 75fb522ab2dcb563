//! Turns a complete statement into a query.
ghost use Rattle.std.specs.Prelude.{◌≡◌, ◌≤ℤ◌, IfOk, IfSome, false, int_le, int_lt, pos, [], option_map, string_bytes};
ghost use Rattle.std.specs.Option.{unwrap_or};
ghost use Rattle.std.specs.Str.{IsCharBoundary};
ghost use Rattle.ts_core.specs.facts.Times.{least_time};
ghost use Rattle.ts_ql.specs.BucketLimits.{IsLimited};
ghost use Rattle.ts_ql.specs.ColumnReading.{HasColumns};
ghost use Rattle.ts_ql.specs.QueryFaults.{FindsAs, FindsWith, option_as_fault};
ghost use Rattle.ts_ql.specs.Lists.{spelled_by};
ghost use Rattle.ts_ql.specs.MomentSteps.{CanAddMore};
ghost use Rattle.ts_ql.specs.Reading.{finish_time_step, builder_step};
ghost use Rattle.ts_ql.specs.Tokens.{lexeme};
ghost use Rattle.ts_ql.specs.Statements.{repeats, first_start, buckets_between, span_from, span_fault, query_of, statement_query};
ghost use Rattle.ts_ql.specs.Builders.{builder_state, empty_builder, meaning};

use crate::fault::{QlFault, QlFaultKind};
use crate::filling::FillClause;
use crate::filter::{WhereClause, after_term};
use crate::groups::GroupByClause;
use crate::literal::text_spelled;
use crate::moment::{Moment, Range};
use crate::query::{Query, QueryParts, Span};
use crate::selection::Selection;
use crate::state::{Clause, State};
use crate::token::{Kind, Token};
use std::alloc::{AllocError, Allocator};
use ts_core::{Buckets, LEAST_TIME, Time};

/// Builder of a statement.
#[derive(Drop)]
pub(crate) struct StatementBuilder<'a, A: Allocator> {
    pub selection: Selection<'a, A>,
    pub filter: WhereClause<'a, A>,
    pub moment: Moment,
    pub range: Range,
    pub groups: GroupByClause<A>,
    pub filling: FillClause,
}

/// Returns the time range, which starts at the lower bound; `None` without one. The default upper bound is `now`,
/// inclusive.
fn span_of(range: &Range, now: Time) -> Option<Span>
    ensures value { result ≡ span_from now range.now range.now.lower }
    ensures order { IfSome result (λ span. span.from ≤ℤ span.to) }
{
    let Some(from) = range.lower else {
        return None;
    };
    let upper = match range.upper {
        Some(upper) => upper,
        None => now.nanos() + 1,
    };
    Some(Span {
        from,
        to: upper.max(from),
    })
}

/// Returns true if the first bucket of a range starts before the least time.
fn starts_early(span: &Span, buckets: Buckets) -> bool
    requires { pos 1 ≤ℤ buckets.interval }
    ensures { result ≡ int_lt (first_start span.now.from buckets) least_time }
{
    buckets.bucket(i128::from(span.from)).start < i128::from(LEAST_TIME)
}

/// Returns true if a non-empty range has more than 10,000 buckets.
fn has_too_many(span: &Span, buckets: Buckets) -> bool
    requires { pos 1 ≤ℤ buckets.interval }
    ensures { result ≡ int_le (pos 10000) (buckets_between span.now.from span.now.to buckets) }
{
    let first = buckets.index(i128::from(span.from));
    let last = buckets.index(i128::from(span.to) - 1);
    last - first >= 10_000
}

/// Checks the buckets of a range. Returns `BucketBeforeLeastTime` or `TooManyBuckets`, or `None` if they are valid.
#[tactic(auto, unfolding(crate::specs::Statements::span_fault))]
fn span_fault<'a>(start: usize, buckets: Buckets, span: &Span) -> Option<QlFault<'a>>
    requires { pos 1 ≤ℤ buckets.interval }
    ensures { option_as_fault result ≡ span_fault start buckets span.now }
{
    if span.to <= span.from {
        None
    } else if starts_early(span, buckets) {
        Some(QlFaultKind::BucketBeforeLeastTime.at(start))
    } else if has_too_many(span, buckets) {
        Some(QlFaultKind::TooManyBuckets.at(start))
    } else {
        None
    }
}

/// Returns the text of a field, or the empty one without any.
#[tactic(auto, using(crate::proofs::LiteralLemmas::spelled_nothing))]
fn field_text<A: Allocator + Copy>(alloc: A, field: Option<&str>) -> Result<String<A>, AllocError>
    ensures { IfOk result (λ text. string_bytes text ≡ unwrap_or (option_map spelled_by field.entry) []) }
{
    text_spelled(alloc, field.unwrap_or(""))
}

impl<'a, A: Allocator + Copy> StatementBuilder<'a, A> {
    /// Creates the builder in its initial state.
    pub(crate) fn new(alloc: A) -> StatementBuilder<'a, A>
        ensures { builder_state result ≡ empty_builder }
    {
        StatementBuilder {
            selection: Selection::new(alloc),
            filter: WhereClause::new(alloc),
            moment: Moment::new(),
            range: Range::new(),
            groups: GroupByClause::new(alloc),
            filling: FillClause::new(),
        }
    }

    /// Checks the statement of a text that begins at offset `start`; returns its buckets and its range. Fails at
    /// `start` with `RepeatedColumn`, `OutOfProfile` without GROUP BY time, `NoLowerBound`, or an error of the buckets.
    #[tactic(auto, unfolding(crate::specs::Statements::statement_query))]
    pub(crate) fn check(
        &self,
        alloc: A,
        text: &str,
        start: usize,
        now: Time,
    ) -> Result<(Buckets, Span), QlFault<'a>>
        requires boundary { IsCharBoundary text.now start }
        requires columns { HasColumns text.now start (builder_state self.now).selection.columns }
        ensures value { FindsAs (λ p. query_of (meaning (builder_state self.now)) p.0 p.1) result
            (statement_query start now (meaning (builder_state self.now))) }
        ensures columns { IfOk result (λ _. repeats (builder_state self.now).selection.columns ≡ false) }
        ensures limits { IfOk result (λ p. IsLimited (query_of (meaning (builder_state self.now)) p.0 p.1).query) }
    {
        if self.selection.columns.repeat(alloc, text, start) {
            return Err(QlFaultKind::RepeatedColumn.at(start));
        }
        let Some(buckets) = self.groups.buckets() else {
            return Err(QlFaultKind::OutOfProfile("GROUP BY time").at(start));
        };
        let Some(span) = span_of(&self.range, now) else {
            return Err(QlFaultKind::NoLowerBound.at(start));
        };
        match span_fault(start, buckets, &span) {
            Some(fault) => Err(fault),
            None => Ok((buckets, span)),
        }
    }

    /// Creates the query over a time range.
    pub(crate) fn over(self, alloc: A, buckets: Buckets, span: Span) -> Result<Query<A>, AllocError>
        requires columns { repeats (builder_state self).selection.columns ≡ false }
        requires limits { IsLimited (query_of (meaning (builder_state self)) buckets span).query }
        ensures { IfOk result (λ query. query ≡ query_of (meaning (builder_state self.entry)) buckets span) }
    {
        let fill = self.filling.fill;
        let selection = self.selection;
        let filter = self.filter;
        let measurement = text_spelled(alloc, selection.call.measurement)?;
        let field = field_text(alloc, selection.call.field)?;
        let columns = selection.columns.into_vec()?;
        let conditions = filter.conditions.into_vec()?;
        let tags = self.groups.into_tags().into_vec(alloc)?;
        Ok(Query::new(QueryParts {
            columns,
            fill,
            measurement,
            field,
            conditions,
            from: span.from,
            to: span.to,
            interval: buckets.interval,
            offset: buckets.offset,
            group_tags: tags,
        }))
    }

    /// Finishes a time comparison if the token doesn't continue it; returns the next state. Fails with `OutOfRange` if
    /// the time expression isn't a valid time.
    #[tactic(auto, unfolding(crate::specs::Reading::finish_time_step))]
    pub(crate) fn finish_time(&mut self, state: State, kind: Kind) -> Result<State, QlFault<'a>>
        ensures value { FindsWith result
            (builder_state self.new) (finish_time_step state kind (builder_state self.old)) }
        ensures moment { self.new.moment ≡ self.old.moment }
        ensures selection { self.new.selection ≡ self.old.selection }
    {
        match (state, kind) {
            (State::AfterMoment, Kind::Plus | Kind::Minus) => Ok(state),
            (State::AfterMoment, _) => {
                self.range = self.range.narrowed(&self.moment)?;
                Ok(after_term(self.filter.depth))
            }
            _ => Ok(state),
        }
    }

    /// Passes the next token to the builder of its clause; returns the next state.
    #[tactic(auto, unfolding(crate::specs::Reading::builder_step))]
    pub(crate) fn parse_token(
        &mut self,
        alloc: A,
        now: Time,
        state: State,
        token: &Token<'a>,
    ) -> Result<State, QlFault<'a>>
        requires { CanAddMore now self.old.moment }
        ensures { FindsWith result
            (builder_state self.new) (builder_step now state (lexeme token.now) (builder_state self.old)) }
    {
        match state.clause() {
            Clause::Select => self.selection.parse_token(alloc, state, token),
            Clause::Where => self.filter.parse_token(alloc, state, token),
            Clause::Moment => self.moment.parse_token(now, state, token),
            Clause::Group => self.groups.parse_token(alloc, state, token),
            Clause::Fill => self.filling.parse_token(state, token),
            Clause::None => Err(token.unexpected()),
        }
    }
}
