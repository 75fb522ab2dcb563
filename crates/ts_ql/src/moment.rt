//! Parser of time expressions in WHERE, and the time range that their comparisons leave.
ghost use Rattle.std.specs.Prelude.{◌≡◌, ◌+◌, ◌≤◌, ◌^◌, false, unsigned_abs};
ghost use Rattle.ts_ql.specs.QueryFaults.{Finds, FindsWith};
ghost use Rattle.ts_ql.specs.Literals.{literal};
ghost use Rattle.ts_ql.specs.MomentSteps.{CanAddMore, based, later_by, earlier_by, compared, moment_step, moment_time, no_moment, narrowed};
ghost use Rattle.ts_ql.specs.Ranges.{unbounded, from_on, before, bounded};
ghost use Rattle.ts_ql.specs.Tokens.{lexeme};

use crate::date::timestamp_of;
use crate::fault::{QlFault, QlFaultKind};
use crate::literal::{is_word, literal};
use crate::state::State;
use crate::token::{Kind, Token};
use ts_core::Time;

/// Operator between `time` and a time expression.
#[derive(Clone, Copy, Debug, PartialEq, Eq)]
pub(crate) enum Comparison {
    Equal,
    Less,
    LessOrEqual,
    Greater,
    GreaterOrEqual,
}

/// Builder of the time expression that `time` is compared with.
#[derive(Clone, Copy, Debug)]
pub(crate) struct Moment {
    pub comparison: Comparison,
    /// Offset of the expression's first token.
    pub first: usize,
    /// Value so far, in nanoseconds.
    pub total: i128,
}

/// Time range in nanoseconds: `lower` is inclusive, `upper` exclusive.
#[derive(Clone, Copy, Debug)]
pub(crate) struct Range {
    pub lower: Option<i64>,
    pub upper: Option<i64>,
}

impl Moment {
    /// Creates the builder without an expression.
    pub(crate) fn new() -> Moment
        ensures { result ≡ no_moment }
    {
        Moment {
            comparison: Comparison::Equal,
            first: 0,
            total: 0,
        }
    }

    /// Starts the expression at offset `first` with its first value; returns the next state. Fails with `OutOfRange` at
    /// `first` if there is no value.
    fn begin<'a>(&mut self, first: usize, value: Option<i128>) -> Result<State, QlFault<'a>>
        ensures { FindsWith result self.new (based first self.old value) }
    {
        match value {
            Some(value) => {
                self.first = first;
                self.total = value;
                Ok(State::AfterMoment)
            }
            None => Err(QlFaultKind::OutOfRange.at(first)),
        }
    }

    /// Adds a duration; returns the next state. Fails with `OutOfRange` at the token.
    fn add<'a>(&mut self, token: &Token<'a>) -> Result<State, QlFault<'a>>
        requires { unsigned_abs self.old.total ≤ 2 ^ 126 + 2 ^ 64 }
        ensures { FindsWith result self.new (later_by (lexeme token.now) self.old (literal false token.now.text.now)) }
    {
        let Some(value) = literal(false, token.text) else {
            return Err(QlFaultKind::OutOfRange.at(token.start));
        };
        self.total += i128::from(value);
        Ok(State::AfterMoment)
    }

    /// Subtracts a duration; returns the next state. Fails with `OutOfRange` at the token.
    fn subtract<'a>(&mut self, token: &Token<'a>) -> Result<State, QlFault<'a>>
        requires { unsigned_abs self.old.total ≤ 2 ^ 126 + 2 ^ 64 }
        ensures { FindsWith result self.new
            (earlier_by (lexeme token.now) self.old (literal false token.now.text.now)) }
    {
        let Some(value) = literal(false, token.text) else {
            return Err(QlFaultKind::OutOfRange.at(token.start));
        };
        self.total -= i128::from(value);
        Ok(State::AfterMoment)
    }

    /// Sets the comparison operator; returns the next state.
    fn compare<'a>(&mut self, comparison: Comparison) -> Result<State, QlFault<'a>>
        ensures { FindsWith result self.new (compared comparison self.old) }
    {
        self.comparison = comparison;
        Ok(State::Moment)
    }

    /// Consumes the next token in state `state`; returns the next state.
    #[tactic(auto, unfolding(crate::specs::MomentSteps::moment_step))]
    pub(crate) fn parse_token<'a>(
        &mut self,
        now: Time,
        state: State,
        token: &Token<'a>,
    ) -> Result<State, QlFault<'a>>
        requires { CanAddMore now self.old }
        ensures { FindsWith result self.new (moment_step now state (lexeme token.now) self.old) }
    {
        let now = i128::from(now.nanos());
        match (state, token.kind) {
            (State::TimeSign, Kind::Equals) => self.compare(Comparison::Equal),
            (State::TimeSign, Kind::Less) => self.compare(Comparison::Less),
            (State::TimeSign, Kind::LessOrEqual) => self.compare(Comparison::LessOrEqual),
            (State::TimeSign, Kind::Greater) => self.compare(Comparison::Greater),
            (State::TimeSign, Kind::GreaterOrEqual) => self.compare(Comparison::GreaterOrEqual),
            (State::Moment, Kind::Minus) => {
                self.first = token.start;
                Ok(State::MomentMinus)
            }
            (State::Moment, Kind::Integer | Kind::Duration) => {
                self.begin(token.start, wide(literal(false, token.text)))
            }
            (State::Moment, Kind::StringLiteral) => self.begin(
                token.start,
                timestamp_of(token.text),
            ),
            (State::Moment, Kind::Word) if is_word(token.text, "now") => {
                self.first = token.start;
                Ok(State::NowOpen)
            }
            (State::MomentMinus, Kind::Integer | Kind::Duration) => {
                self.begin(self.first, wide(literal(true, token.text)))
            }
            (State::NowOpen, Kind::LeftParen) => Ok(State::NowClose),
            (State::NowClose, Kind::RightParen) => {
                self.total = now;
                Ok(State::AfterMoment)
            }
            (State::AfterMoment, Kind::Plus) => Ok(State::MomentPlus),
            (State::AfterMoment, Kind::Minus) => Ok(State::MomentLess),
            (State::MomentPlus, Kind::Duration) => self.add(token),
            (State::MomentLess, Kind::Duration) => self.subtract(token),
            _ => Err(token.unexpected()),
        }
    }

    /// Returns the value as a time. Fails with `OutOfRange` at the expression if it isn't a valid time.
    fn time<'a>(&self) -> Result<Time, QlFault<'a>>
        ensures { Finds result (moment_time self.now) }
    {
        match i64::try_from(self.total) {
            Ok(nanos) => match Time::new(nanos) {
                Some(time) => Ok(time),
                None => Err(QlFaultKind::OutOfRange.at(self.first)),
            },
            Err(_) => Err(QlFaultKind::OutOfRange.at(self.first)),
        }
    }
}

/// Widens a value to 128 bits.
fn wide(value: Option<i64>) -> Option<i128>
    ensures { result ≡ value }
{
    match value {
        Some(value) => Some(i128::from(value)),
        None => None,
    }
}

impl Range {
    /// Creates the range without bounds.
    pub(crate) fn new() -> Range
        ensures { result ≡ unbounded }
    {
        Range {
            lower: None,
            upper: None,
        }
    }

    fn from_on(self, bound: i64) -> Range
        ensures { result ≡ from_on bound self }
    {
        let lower = match self.lower {
            Some(lower) => lower.max(bound),
            None => bound,
        };
        Range {
            lower: Some(lower),
            upper: self.upper,
        }
    }

    fn before(self, bound: i64) -> Range
        ensures { result ≡ before bound self }
    {
        let upper = match self.upper {
            Some(upper) => upper.min(bound),
            None => bound,
        };
        Range {
            lower: self.lower,
            upper: Some(upper),
        }
    }

    /// Narrows the range by a comparison of `time` with this time.
    #[tactic(auto, unfolding(crate::specs::Ranges::bounded))]
    fn bounded(self, comparison: Comparison, time: Time) -> Range
        ensures { result ≡ bounded comparison time self }
    {
        let at = time.nanos();
        match comparison {
            Comparison::Equal => self.from_on(at).before(at + 1),
            Comparison::Less => self.before(at),
            Comparison::LessOrEqual => self.before(at + 1),
            Comparison::Greater => self.from_on(at + 1),
            Comparison::GreaterOrEqual => self.from_on(at),
        }
    }

    /// Narrows the range by a complete time expression. Fails with `OutOfRange` if that isn't a valid time.
    #[tactic(auto, unfolding(crate::specs::MomentSteps::narrowed))]
    pub(crate) fn narrowed<'a>(self, moment: &Moment) -> Result<Range, QlFault<'a>>
        ensures { Finds result (narrowed moment.now self) }
    {
        let time = moment.time()?;
        Ok(self.bounded(moment.comparison, time))
    }
}
