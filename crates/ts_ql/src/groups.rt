//! Parser of the GROUP BY clause: the interval with its offset, and the tags.
ghost use Rattle.std.specs.Prelude.{◌≡◌, false};
ghost use Rattle.ts_ql.specs.QueryFaults.{FindsWith};
ghost use Rattle.ts_ql.specs.GroupSteps.{HasInterval, empty_groups, item_at, with_interval, with_offset, group_step};
ghost use Rattle.ts_ql.specs.Literals.{literal};
ghost use Rattle.ts_ql.specs.Tokens.{lexeme};

use crate::fault::{QlFault, QlFaultKind};
use crate::lists::Tags;
use crate::literal::{is_word, literal};
use crate::state::State;
use crate::token::{Kind, Token};
use std::alloc::Allocator;
use std::marker::Model;
use ts_core::Buckets;

/// Builder of the GROUP BY clause.
#[derive(Drop)]
pub(crate) struct GroupByClause<A: Allocator> {
    buckets: Option<Buckets>,
    /// Offset in the text of the first token of the bucket offset.
    first: usize,
    tags: Tags<A>,
}

impl<A: Allocator> Model for GroupByClause<A> {
    ghost use Rattle.ts_ql.specs.GroupSteps.{Grouped, HasInterval};

    ghost Value = { Grouped };

    ghost view = { λ g. record { buckets = g.buckets; first = g.first; tags = g.tags } };

    ghost invariant = { λ g. HasInterval g.buckets };
}

impl<A: Allocator + Copy> GroupByClause<A> {
    /// Creates the builder without buckets or tags.
    pub(crate) fn new(alloc: A) -> GroupByClause<A>
        ensures { result ≡ empty_groups }
    {
        GroupByClause {
            buckets: None,
            first: 0,
            tags: Tags::new(alloc),
        }
    }

    /// Consumes the column that an item begins with; returns the next state. Fails at a second `time`.
    fn parse_column<'a>(&mut self, alloc: A, token: &Token<'a>) -> Result<State, QlFault<'a>>
        ensures { FindsWith result self.new (item_at (lexeme token.now) self.old) }
    {
        if token.is_time_column() {
            return match self.buckets {
                None => Ok(State::TimeOpen),
                Some(_) => Err(token.unexpected()),
            };
        }
        self.tags.insert(alloc, token.text);
        Ok(State::AfterTag)
    }

    /// Consumes the interval; returns the next state. Fails with `OutOfRange`.
    fn parse_interval<'a>(&mut self, token: &Token<'a>) -> Result<State, QlFault<'a>>
        ensures { FindsWith result self.new
            (with_interval (lexeme token.now) self.old (literal false token.now.text.now)) }
    {
        match literal(false, token.text) {
            Some(interval) if interval >= 1 => {
                self.buckets = Some(Buckets {
                    interval,
                    offset: 0,
                });
                Ok(State::IntervalEnd)
            }
            _ => Err(QlFaultKind::OutOfRange.at(token.start)),
        }
    }

    /// Consumes the bucket offset, whose first token is at `first`; returns the next state. Fails with `OutOfRange` at
    /// `first`.
    fn parse_offset<'a>(
        &mut self,
        first: usize,
        negative: bool,
        token: &Token<'a>,
    ) -> Result<State, QlFault<'a>>
        ensures { FindsWith result self.new (with_offset first self.old (literal negative token.now.text.now)) }
    {
        match literal(negative, token.text) {
            Some(offset) => {
                self.buckets = match self.buckets {
                    Some(buckets) => Some(Buckets { offset, ..buckets }),
                    None => None,
                };
                Ok(State::OffsetEnd)
            }
            None => Err(QlFaultKind::OutOfRange.at(first)),
        }
    }

    /// Consumes the next token in state `state`; returns the next state.
    #[tactic(auto, unfolding(crate::specs::GroupSteps::group_step))]
    pub(crate) fn parse_token<'a>(
        &mut self,
        alloc: A,
        state: State,
        token: &Token<'a>,
    ) -> Result<State, QlFault<'a>>
        ensures { FindsWith result self.new (group_step state (lexeme token.now) self.old) }
    {
        match (state, token.kind) {
            (State::GroupBy, Kind::Keyword) if is_word(token.text, "by") => Ok(State::Item),
            (State::Item, Kind::Word | Kind::QuotedName) => self.parse_column(alloc, token),
            (State::TimeOpen, Kind::LeftParen) => Ok(State::Interval),
            (State::Interval, Kind::Duration) => self.parse_interval(token),
            (State::IntervalEnd, Kind::Comma) => Ok(State::Offset),
            (State::Offset, Kind::Minus) => {
                self.first = token.start;
                Ok(State::OffsetMinus)
            }
            (State::Offset, Kind::Duration) => self.parse_offset(token.start, false, token),
            (State::OffsetMinus, Kind::Duration) => self.parse_offset(self.first, true, token),
            (State::IntervalEnd | State::OffsetEnd, Kind::RightParen) => Ok(State::AfterItem),
            (State::AfterTag, Kind::DoubleColon) => Ok(State::GroupTagType),
            (State::GroupTagType, Kind::Word) if is_word(token.text, "tag") => Ok(State::AfterItem),
            (State::AfterTag | State::AfterItem, Kind::Comma) => Ok(State::Item),
            _ => Err(token.unexpected()),
        }
    }

    /// Returns the buckets, or `None` without `time(..)`.
    pub(crate) fn buckets(&self) -> Option<Buckets>
        ensures value { result ≡ self.now.buckets }
        ensures interval { HasInterval result }
    {
        self.buckets
    }

    /// Returns the tags.
    pub(crate) fn tags(&self) -> &Tags<A>
        ensures { result.now ≡ self.now.tags }
    {
        &self.tags
    }

    /// Returns the tags.
    pub(crate) fn into_tags(self) -> Tags<A>
        ensures { result ≡ self.tags }
    {
        self.tags
    }
}
