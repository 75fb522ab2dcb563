//! Parser of the tag conditions in WHERE.
ghost use Rattle.std.specs.Prelude.{◌≡◌};
ghost use Rattle.ts_ql.specs.QueryFaults.{FindsWith};
ghost use Rattle.ts_ql.specs.Literals.{text_spelled};
ghost use Rattle.ts_ql.specs.Tokens.{lexeme};
ghost use Rattle.ts_ql.specs.WhereSteps.{filtered, empty_filter, after_term, with_condition, term_at, where_step};

use crate::fault::QlFault;
use crate::lists::{Conditions, TagTest};
use crate::literal::is_word;
use crate::state::State;
use crate::token::{Kind, Token};
use std::alloc::Allocator;

/// Builder of the tag conditions.
#[derive(Drop)]
pub(crate) struct WhereClause<'a, A: Allocator> {
    pub conditions: Conditions<A>,
    /// Tag of the current condition, as written.
    pub tag: &'a str,
    /// True if the current condition is `!=` or `<>`.
    pub negated: bool,
    /// Number of open parentheses.
    pub depth: u8,
}

/// Returns the state after a term inside `depth` parentheses.
pub(crate) fn after_term(depth: u8) -> State
    ensures { result ≡ after_term depth }
{
    if depth == 0 {
        State::AfterTerm
    } else {
        State::NestedTerm
    }
}

impl<'a, A: Allocator + Copy> WhereClause<'a, A> {
    /// Creates the builder without conditions.
    #[tactic(auto, using(crate::proofs::LiteralLemmas::spelled_nothing))]
    pub(crate) fn new(alloc: A) -> WhereClause<'a, A>
        ensures { filtered result ≡ empty_filter }
    {
        WhereClause {
            conditions: Conditions::new(alloc),
            tag: "",
            negated: false,
            depth: 0,
        }
    }

    /// Appends the current condition with this value.
    #[tactic(auto, using(crate::proofs::LiteralLemmas::spelled_nothing))]
    fn push(&mut self, alloc: A, value: &str)
        ensures { filtered self.new ≡ with_condition (text_spelled value.now) (filtered self.old) }
    {
        let test = TagTest {
            tag: self.tag,
            value,
            negated: self.negated,
        };
        self.conditions.push(alloc, &test);
        self.tag = "";
    }

    /// Consumes the column that a term begins with; returns the next state.
    fn parse_column(&mut self, token: &Token<'a>) -> Result<State, QlFault<'a>>
        ensures { FindsWith result (filtered self.new) (term_at (lexeme token.now) (filtered self.old)) }
    {
        if token.is_time_column() {
            return Ok(State::TimeSign);
        }
        self.tag = token.text;
        Ok(State::TagEnd)
    }

    /// Consumes the next token in state `state`; returns the next state.
    #[tactic(auto, unfolding(crate::specs::WhereSteps::where_step))]
    pub(crate) fn parse_token(
        &mut self,
        alloc: A,
        state: State,
        token: &Token<'a>,
    ) -> Result<State, QlFault<'a>>
        ensures { FindsWith result (filtered self.new) (where_step state (lexeme token.now) (filtered self.old)) }
    {
        match (state, token.kind) {
            (State::Term, Kind::LeftParen) => {
                if self.depth >= 32 {
                    return Err(token.unsupported());
                }
                self.depth += 1;
                Ok(State::Term)
            }
            (State::Term, Kind::Word | Kind::QuotedName) => self.parse_column(token),
            (State::TagEnd, Kind::DoubleColon) => Ok(State::TagType),
            (State::TagType, Kind::Word) if is_word(token.text, "tag") => Ok(State::TagSign),
            (State::TagEnd | State::TagSign, Kind::Equals) => {
                self.negated = false;
                Ok(State::TagValue)
            }
            (State::TagEnd | State::TagSign, Kind::NotEqual) => {
                self.negated = true;
                Ok(State::TagValue)
            }
            (State::TagValue, Kind::StringLiteral) => {
                self.push(alloc, token.text);
                Ok(after_term(self.depth))
            }
            (State::AfterTerm | State::NestedTerm, Kind::Keyword) if is_word(token.text, "and") => {
                Ok(State::Term)
            }
            (State::NestedTerm, Kind::RightParen) if self.depth > 0 => {
                self.depth -= 1;
                Ok(after_term(self.depth))
            }
            _ => Err(token.unexpected()),
        }
    }
}
