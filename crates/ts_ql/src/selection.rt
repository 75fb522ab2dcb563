//! Parser of SELECT and FROM.
ghost use Rattle.std.specs.Prelude.{◌≡◌, List, []};
ghost use Rattle.ts_ql.specs.QueryFaults.{FindsWith};
ghost use Rattle.ts_ql.specs.SelectSteps.{selected, selected_with, select_step, with_call_field, empty_selection, FindsColumn};
ghost use Rattle.ts_ql.specs.Selects.{Projection};
ghost use Rattle.ts_ql.specs.Tokens.{lexeme};

use crate::fault::QlFault;
use crate::keywords::function_called;
use crate::lists::{Column, Columns};
use crate::literal::{is_spelled_alike, is_word};
use crate::state::State;
use crate::token::{Kind, Token};
use std::alloc::Allocator;
use ts_core::Function;

/// Parser of SELECT and FROM, without the list of columns. Its contracts hold for each list of columns so far.
#[derive(Clone, Copy)]
pub(crate) struct SelectCall<'a> {
    /// Function of the current column.
    pub function: Function,
    /// Field that all functions are applied to, as written.
    pub field: Option<&'a str>,
    /// Measurement, as written.
    pub measurement: &'a str,
}

/// Builder of SELECT and FROM.
#[derive(Drop)]
pub(crate) struct Selection<'a, A: Allocator> {
    pub columns: Columns<A>,
    pub call: SelectCall<'a>,
}

impl<'a> SelectCall<'a> {
    /// Creates the parser in its initial state.
    #[tactic(auto, using(crate::proofs::LiteralLemmas::spelled_nothing))]
    pub(crate) fn new() -> SelectCall<'a>
        ensures { selected_with [] result ≡ empty_selection }
    {
        SelectCall {
            function: Function::Count,
            field: None,
            measurement: "",
        }
    }

    /// Returns the current column, with this name or else its function's.
    fn column(&self, alias: Option<&'a str>) -> Column<'a>
        ensures { result ≡ record { function = self.now.function; alias = alias.entry } }
    {
        Column {
            function: self.function,
            alias,
        }
    }

    /// Consumes the field of a function; returns the next state. Fails with `OutOfProfile` if another function has
    /// another field.
    fn parse_field(&mut self, token: &Token<'a>) -> Result<State, QlFault<'a>>
        ensures { (columns : List Projection) → FindsWith result (selected_with columns self.new) (with_call_field
            (lexeme token.now) (selected_with columns self.old) (selected_with columns self.old).field) }
    {
        match self.field {
            None => {
                self.field = Some(token.text);
                Ok(State::FieldEnd)
            }
            Some(field) if is_spelled_alike(field, token.text) => Ok(State::FieldEnd),
            Some(_) => Err(token.unsupported()),
        }
    }

    /// Consumes the name of a function; returns the next state. Fails with `OutOfProfile` if it is no supported
    /// function.
    #[tactic(auto, unfolding(crate::specs::SelectSteps::select_step))]
    fn parse_function(&mut self, token: &Token<'a>) -> Result<State, QlFault<'a>>
        ensures { (columns : List Projection) → FindsWith result (selected_with columns self.new)
            (select_step State.Function (lexeme token.now) (selected_with columns self.old)) }
    {
        match token.kind {
            Kind::Word => match function_called(token.text) {
                Some(function) => {
                    self.function = function;
                    Ok(State::FunctionOpen)
                }
                None => Err(token.unsupported()),
            },
            Kind::QuotedName => Err(token.unsupported()),
            _ => Err(token.unexpected()),
        }
    }

    /// Consumes the token after a function call: a comma, FROM or AS. Returns the next state, and the column unless AS
    /// comes.
    #[tactic(auto, unfolding(crate::specs::SelectSteps::select_step))]
    fn parse_after_column(
        &self,
        token: &Token<'a>,
    ) -> Result<(State, Option<Column<'a>>), QlFault<'a>>
        ensures { (columns : List Projection) → FindsColumn columns result self.now
            (select_step State.AfterColumn (lexeme token.now) (selected_with columns self.now)) }
    {
        match token.kind {
            Kind::Comma => Ok((State::Function, Some(self.column(None)))),
            Kind::Keyword if is_word(token.text, "from") => Ok((
                State::Measurement,
                Some(self.column(None)),
            )),
            Kind::Keyword if is_word(token.text, "as") => Ok((State::Alias, None)),
            _ => Err(token.unexpected()),
        }
    }

    /// Consumes the measurement; returns the next state.
    #[tactic(auto, unfolding(crate::specs::SelectSteps::select_step))]
    fn parse_measurement(&mut self, token: &Token<'a>) -> Result<State, QlFault<'a>>
        ensures { (columns : List Projection) → FindsWith result (selected_with columns self.new)
            (select_step State.Measurement (lexeme token.now) (selected_with columns self.old)) }
    {
        match token.kind {
            Kind::Word | Kind::QuotedName => {
                self.measurement = token.text;
                Ok(State::AfterMeasurement)
            }
            Kind::LeftParen => Err(token.unsupported()),
            _ => Err(token.unexpected()),
        }
    }

    /// Consumes the next token in state `state`; returns the next state, and the column that the token ends, if any.
    #[tactic(auto, unfolding(crate::specs::SelectSteps::select_step))]
    pub(crate) fn parse_token(
        &mut self,
        state: State,
        token: &Token<'a>,
    ) -> Result<(State, Option<Column<'a>>), QlFault<'a>>
        ensures { (columns : List Projection) → FindsColumn columns result self.new
            (select_step state (lexeme token.now) (selected_with columns self.old)) }
    {
        let next = match (state, token.kind) {
            (State::Function, _) => self.parse_function(token)?,
            (State::FunctionOpen, Kind::LeftParen) => State::Field,
            (State::Field, Kind::Word | Kind::QuotedName) => self.parse_field(token)?,
            (State::FieldEnd | State::FieldClose, Kind::RightParen) => State::AfterColumn,
            (State::FieldEnd, Kind::DoubleColon) => State::FieldType,
            (State::FieldType, Kind::Word)
                if is_word(token.text, "field") || is_word(token.text, "integer") => {
                State::FieldClose
            }
            (State::AfterColumn, _) => return self.parse_after_column(token),
            (State::Alias, Kind::Word | Kind::QuotedName) => {
                return Ok((State::AfterAlias, Some(self.column(Some(token.text)))));
            }
            (State::AfterAlias, Kind::Comma) => State::Function,
            (State::AfterAlias, Kind::Keyword) if is_word(token.text, "from") => State::Measurement,
            (State::Measurement, _) => self.parse_measurement(token)?,
            _ => return Err(token.unexpected()),
        };
        Ok((next, None))
    }
}

impl<'a, A: Allocator + Copy> Selection<'a, A> {
    /// Creates the builder without columns.
    pub(crate) fn new(alloc: A) -> Selection<'a, A>
        ensures { selected result ≡ empty_selection }
    {
        Selection {
            columns: Columns::new(alloc),
            call: SelectCall::new(),
        }
    }

    /// Consumes the next token in state `state`; returns the next state.
    pub(crate) fn parse_token(
        &mut self,
        alloc: A,
        state: State,
        token: &Token<'a>,
    ) -> Result<State, QlFault<'a>>
        ensures { FindsWith result (selected self.new) (select_step state (lexeme token.now) (selected self.old)) }
    {
        let (next, column) = self.call.parse_token(state, token)?;
        if let Some(column) = column {
            self.columns.push(alloc, &column);
        }
        Ok(next)
    }
}
