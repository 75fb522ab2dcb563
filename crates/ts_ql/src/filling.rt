//! Parser of the FILL clause.
ghost use Rattle.std.specs.Prelude.{◌≡◌};
ghost use Rattle.ts_ql.specs.QueryFaults.{FindsWith};
ghost use Rattle.ts_ql.specs.GroupSteps.{chosen, with_number, fill_step, no_fill};
ghost use Rattle.ts_ql.specs.Literals.{literal};
ghost use Rattle.ts_ql.specs.Tokens.{lexeme};

use crate::fault::{QlFault, QlFaultKind};
use crate::literal::{is_word, literal};
use crate::state::State;
use crate::token::{Kind, Token};
use ts_core::Fill;

/// Builder of the FILL clause.
#[derive(Clone, Copy, Debug)]
pub(crate) struct FillClause {
    pub fill: Fill,
    /// Offset of the number's first token.
    pub first: usize,
}

impl FillClause {
    /// Creates the builder with the default, `null`.
    pub(crate) fn new() -> FillClause
        ensures { result ≡ no_fill }
    {
        FillClause {
            fill: Fill::Null,
            first: 0,
        }
    }

    /// Sets the fill option; returns the next state.
    fn choose<'a>(&mut self, fill: Fill) -> Result<State, QlFault<'a>>
        ensures { FindsWith result self.new (chosen fill self.old) }
    {
        self.fill = fill;
        Ok(State::FillClose)
    }

    /// Sets a number whose first token is at offset `first`; returns the next state. Fails with `OutOfRange` at
    /// `first`.
    fn parse_number<'a>(
        &mut self,
        first: usize,
        negative: bool,
        token: &Token<'a>,
    ) -> Result<State, QlFault<'a>>
        ensures { FindsWith result self.new (with_number first self.old (literal negative token.now.text.now)) }
    {
        match literal(negative, token.text) {
            Some(number) => {
                self.fill = Fill::Number(number);
                Ok(State::FillClose)
            }
            None => Err(QlFaultKind::OutOfRange.at(first)),
        }
    }

    /// Consumes the next token in state `state`; returns the next state.
    #[tactic(auto, unfolding(crate::specs::GroupSteps::fill_step))]
    pub(crate) fn parse_token<'a>(
        &mut self,
        state: State,
        token: &Token<'a>,
    ) -> Result<State, QlFault<'a>>
        ensures { FindsWith result self.new (fill_step state (lexeme token.now) self.old) }
    {
        match (state, token.kind) {
            (State::FillOpen, Kind::LeftParen) => Ok(State::FillOption),
            (State::FillOption, Kind::Word) if is_word(token.text, "null") => self.choose(
                Fill::Null,
            ),
            (State::FillOption, Kind::Word) if is_word(token.text, "none") => self.choose(
                Fill::None,
            ),
            (State::FillOption, Kind::Word) if is_word(token.text, "previous") => {
                self.choose(Fill::Previous)
            }
            (State::FillOption, Kind::Minus) => {
                self.first = token.start;
                Ok(State::FillMinus)
            }
            (State::FillOption, Kind::Integer) => self.parse_number(token.start, false, token),
            (State::FillMinus, Kind::Integer) => self.parse_number(self.first, true, token),
            (State::FillClose, Kind::RightParen) => Ok(State::AfterFill),
            _ => Err(token.unexpected()),
        }
    }
}
