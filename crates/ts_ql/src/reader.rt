//! `parse`: a state machine that parses a text token by token, statement by statement.
ghost use Rattle.std.specs.Prelude.{◌≡◌, ◌⊎◌, ◌≤◌, ◌&&◌, IsOk, length};
ghost use Rattle.std.specs.Str.{IsCharBoundary};
ghost use Rattle.ts_ql.specs.ColumnReading.{HasColumns};
ghost use Rattle.ts_ql.specs.QueryFaults.{Gives};
ghost use Rattle.ts_ql.specs.Laws.{ReadsText, IsDecided, LiteralsCount, DurationsEndLast};
ghost use Rattle.ts_ql.specs.MomentSteps.{CanAddMore};
ghost use Rattle.ts_ql.specs.Reading.{next_clause, may_end, is_end, after_end, progress, start_progress, FindsState, HasColumnsOf, begun, ended, step, queries_of};
ghost use Rattle.ts_ql.specs.Tokens.{lexeme};

use crate::fault::{ParseError, QlFault, QlFaultKind};
use crate::lists::Queries;
use crate::literal::is_word;
use crate::query::Query;
use crate::state::State;
use crate::statement::StatementBuilder;
use crate::token::{Kind, Token};
use std::alloc::Allocator;
use std::mem;
use ts_core::Time;

/// Parser of a text.
#[derive(Drop)]
pub(crate) struct Reader<'a, A: Allocator> {
    pub state: State,
    /// Number of statements begun.
    pub count: u8,
    /// Offset of the current statement.
    pub start: usize,
    pub builder: StatementBuilder<'a, A>,
    /// Queries of the statements before it.
    pub queries: Queries<A>,
}

/// Returns the first state of the clause that the token opens, if it opens one.
#[tactic(auto, unfolding(crate::specs::Reading::next_clause))]
fn next_clause(state: State, token: &Token<'_>) -> Option<State>
    ensures { result ≡ next_clause state (lexeme token.now) }
{
    match (state, token.kind) {
        (State::AfterMeasurement, Kind::Keyword) if is_word(token.text, "where") => Some(
            State::Term,
        ),
        (State::AfterMeasurement | State::AfterTerm, Kind::Keyword)
            if is_word(token.text, "group") => { Some(State::GroupBy) }
        (
            State::AfterMeasurement | State::AfterTerm | State::AfterTag | State::AfterItem,
            Kind::Word,
        ) if is_word(token.text, "fill") => Some(State::FillOpen),
        _ => None,
    }
}

/// Returns true if the token ends a statement in this state.
fn ends(state: State, kind: Kind) -> bool
    ensures { result ≡ (may_end state && is_end kind) }
{
    match (state, kind) {
        (
            State::AfterMeasurement
            | State::AfterTerm
            | State::AfterTag
            | State::AfterItem
            | State::AfterFill,
            Kind::Semicolon | Kind::End,
        ) => true,
        _ => false,
    }
}

/// Returns the state after a statement that this token ends.
fn after_end(kind: Kind) -> State
    ensures { result ≡ after_end kind }
{
    match kind {
        Kind::Semicolon => State::Statement,
        _ => State::Done,
    }
}

impl<'a, A: Allocator + Copy> Reader<'a, A> {
    /// Creates the parser in its initial state.
    fn new(alloc: A) -> Reader<'a, A>
        ensures { progress result ≡ start_progress }
    {
        Reader {
            state: State::Statement,
            count: 0,
            start: 0,
            builder: StatementBuilder::new(alloc),
            queries: Queries::new(alloc),
        }
    }

    /// Begins a statement at SELECT, or finishes at the end of the text. Fails with `TooManyStatements` at the 17th.
    #[tactic(auto, unfolding(crate::specs::Reading::begun))]
    fn begin(&mut self, token: &Token<'a>) -> Result<(), QlFault<'a>>
        ensures value { FindsState result (progress self.new) (begun (lexeme token.now) (progress self.old)) }
        ensures start { (self.new.start ≡ self.old.start) ⊎ (self.new.start ≡ token.now.start) }
    {
        match token.kind {
            Kind::Keyword => {
                if !is_word(token.text, "select") {
                    return Err(token.unexpected());
                }
                if self.count >= 16 {
                    return Err(QlFaultKind::TooManyStatements.at(token.start));
                }
                self.state = State::Function;
                self.count += 1;
                self.start = token.start;
                Ok(())
            }
            Kind::End => {
                if self.count == 0 {
                    return Err(token.unexpected());
                }
                self.state = State::Done;
                Ok(())
            }
            _ => Err(token.unexpected()),
        }
    }

    /// Finishes the current statement of the text and appends its query.
    fn end(&mut self, alloc: A, text: &str, now: Time, kind: Kind) -> Result<(), QlFault<'a>>
        requires boundary { IsCharBoundary text.now self.old.start }
        requires columns { HasColumns text.now self.old.start (progress self.old).builder.selection.columns }
        ensures value { FindsState result (progress self.new) (ended now kind (progress self.old)) }
        ensures start { self.new.start ≡ self.old.start }
    {
        let (buckets, span) = self.builder.check(alloc, text, self.start, now)?;
        let builder = mem::replace(&mut self.builder, StatementBuilder::new(alloc));
        self.queries.push(alloc, builder, buckets, span);
        let state = after_end(kind);
        self.state = state;
        Ok(())
    }

    /// Consumes the next token of the text.
    #[tactic(auto, unfolding(crate::specs::Reading::step))]
    fn parse_token(
        &mut self,
        alloc: A,
        text: &str,
        now: Time,
        token: &Token<'a>,
    ) -> Result<(), QlFault<'a>>
        requires moment { CanAddMore now self.old.builder.moment }
        requires boundary { IsCharBoundary text.now self.old.start }
        requires columns { HasColumnsOf text.now (progress self.old) }
        ensures value { FindsState result (progress self.new) (step now (lexeme token.now) (progress self.old)) }
        ensures start { (self.new.start ≡ self.old.start) ⊎ (self.new.start ≡ token.now.start) }
    {
        self.state = self.builder.finish_time(self.state, token.kind)?;
        if let State::Statement = self.state {
            return self.begin(token);
        }
        if ends(self.state, token.kind) {
            return self.end(alloc, text, now, token.kind);
        }
        self.state = match next_clause(self.state, token) {
            Some(next) => next,
            None => self.builder.parse_token(alloc, now, self.state, token)?,
        };
        Ok(())
    }
}

/// Parses a text of at most 65,536 bytes token by token. Runs out of memory only on a text without an error.
fn read<A: Allocator + Copy>(
    alloc: A,
    text: &str,
    now: Time,
) -> Result<Vec<Query<A>, A>, ParseError<'_>>
    requires { length text.now ≤ 65536 }
    ensures reading { Gives (λ v. v.items) result (queries_of now text.now) }
    ensures memory { result ≡ Err ParseError.OutOfMemory → IsOk (queries_of now text.now) }
{
    let mut reader = Reader::new(alloc);
    let mut at = 0;
    for _round in 0..text.len() + 1 {
        let token = Token::at(text, at);
        if let Err(fault) = reader.parse_token(alloc, text, now, &token) {
            return Err(ParseError::Fault(fault));
        }
        if let State::Done = reader.state {
            return Ok(reader.queries.into_vec()?);
        }
        at = token.end;
    }
    Err(ParseError::Fault(QlFaultKind::Syntax.at(text.len())))
}

/// Parses an InfluxQL text. Returns one query per statement, or the first error with its byte offset. Times are in
/// nanoseconds of the Unix epoch; `now` is the value of `now()`. Runs out of memory only on a text without an error. A
/// text that is too long is refused before anything is allocated.
pub fn parse<A: Allocator + Copy>(
    alloc: A,
    text: &str,
    now: Time,
) -> Result<Vec<Query<A>, A>, ParseError<'_>>
    ensures reading { ReadsText (λ v. v.items) now text.now result }
    ensures decided { IsDecided now text.now }
    ensures literals { LiteralsCount }
    ensures ends { DurationsEndLast }
{
    if text.len() > 65_536 {
        return Err(ParseError::Fault(QlFaultKind::Syntax.at(65_536)));
    }
    read(alloc, text, now)
}
