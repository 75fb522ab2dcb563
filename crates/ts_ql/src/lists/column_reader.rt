//! Reads the columns of a statement once more, from its text. Needs no memory.
ghost use Rattle.std.specs.Prelude.{◌≡◌, ◌∷◌, ◌<◌, List, [], IfSome};
ghost use Rattle.std.specs.Option.{MatchOption};
ghost use Rattle.std.specs.Str.{IsCharBoundary};
ghost use Rattle.ts_ql.specs.ColumnReading.{has_from, IsOnBoundary, AreLeft, HasColumns};
ghost use Rattle.ts_ql.specs.Lists.{projection};
ghost use Rattle.ts_ql.specs.Selects.{Projection};
ghost use Rattle.ts_ql.specs.Statements.{has_column, repeats};

use crate::lists::columns::Column;
use crate::selection::SelectCall;
use crate::state::State;
use crate::token::Token;

/// Reader of the columns of a statement, one by one, from its text.
#[derive(Clone, Copy)]
pub(crate) struct ColumnReader<'a> {
    text: &'a str,
    /// Offset after the last token.
    at: usize,
    state: State,
    call: SelectCall<'a>,
}

/// Returns true if FROM has been read.
fn has_from(state: State) -> bool
    ensures { result ≡ has_from state }
{
    match state {
        State::Measurement => true,
        _ => false,
    }
}

impl<'a> ColumnReader<'a> {
    /// Creates the reader of the statement whose SELECT is at offset `start`.
    pub fn new(text: &'a str, start: usize) -> ColumnReader<'a>
        requires { IsCharBoundary text.now start }
        ensures boundary { IsOnBoundary result }
        ensures left { (columns : List Projection) → HasColumns text.now start columns → AreLeft result columns }
    {
        ColumnReader {
            text,
            at: Token::at(text, start).end,
            state: State::Function,
            call: SelectCall::new(),
        }
    }

    /// Reads the next column; returns `None` after the last one.
    fn next(&mut self) -> Option<Column<'a>>
        requires { IsOnBoundary self.old }
        ensures boundary { IsOnBoundary self.new }
        ensures text { self.new.text ≡ self.old.text }
        ensures later { IfSome result (λ _. self.old.at < self.new.at) }
        ensures value { (left : List Projection) → AreLeft self.old left → MatchOption result
            (left ≡ []) (λ c. (rest : List Projection) × (left ≡ projection c ∷ rest) × AreLeft self.new rest) }
    {
        while !has_from(self.state) {
            let token = Token::at(self.text, self.at);
            let Ok((state, column)) = self.call.parse_token(self.state, &token) else {
                return None;
            };
            self.state = state;
            self.at = token.end;
            if let Some(column) = column {
                return Some(column);
            }
        }
        None
    }

    /// Returns true if a column that is left has the name of this one.
    fn has_column(self, column: &Column<'_>) -> bool
        requires { IsOnBoundary self }
        ensures { (left : List Projection)
            → AreLeft self.entry left → result ≡ has_column (projection column.now).name left }
    {
        let mut others = self;
        while let Some(other) = others.next() {
            if other.is_named_as(column) {
                return true;
            }
        }
        false
    }

    /// Returns true if two columns that are left have the same name, or one is named `time`.
    pub fn repeats(self) -> bool
        requires { IsOnBoundary self }
        ensures { (left : List Projection) → AreLeft self.entry left → result ≡ repeats left }
    {
        let mut columns = self;
        while let Some(column) = columns.next() {
            if column.is_time() || columns.has_column(&column) {
                return true;
            }
        }
        false
    }
}
