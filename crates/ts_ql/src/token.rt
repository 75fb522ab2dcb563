//! A token of a text: its kind, its bytes and its offset.
ghost use Rattle.std.specs.Prelude.{◌≡◌, ◌≢◌, ◌<◌};
ghost use Rattle.std.specs.Str.{IsCharBoundary};
ghost use Rattle.ts_ql.specs.Lexing.{token_at};
ghost use Rattle.ts_ql.specs.Tokens.{lexeme};
ghost use Rattle.ts_ql.specs.Keywords.{is_time_column, is_unsupported};
ghost use Rattle.ts_ql.specs.QueryFaults.{as_fault, unsupported, unexpected};

use crate::bytes::{Class, end_of_run};
use crate::fault::{QlFault, QlFaultKind};
use crate::keywords::{is_keyword, is_unsupported_keyword, is_unsupported_word};
use crate::literal::is_word;
use crate::shape::shape_at;

/// Kind of a token.
#[derive(Clone, Copy, Debug, PartialEq, Eq)]
pub(crate) enum Kind {
    /// Letters, digits and `_`, not beginning with a digit.
    Word,
    /// Keyword: a word that can be a name only in double quotes.
    Keyword,
    /// Name in double quotes.
    QuotedName,
    /// String in single quotes.
    StringLiteral,
    Integer,
    Duration,
    Comma,
    LeftParen,
    RightParen,
    Semicolon,
    /// `::`
    DoubleColon,
    Equals,
    /// `!=` or `<>`
    NotEqual,
    Less,
    LessOrEqual,
    Greater,
    GreaterOrEqual,
    Plus,
    Minus,
    /// Operator of unsupported InfluxQL.
    Unsupported,
    /// Bytes that aren't a token.
    Bad,
    /// End of the text.
    End,
}

/// Token with its byte offsets.
#[derive(Clone, Copy, Debug)]
pub(crate) struct Token<'a> {
    pub kind: Kind,
    pub start: usize,
    pub end: usize,
    /// Bytes of the token in the text.
    pub raw: &'a str,
    /// Bytes without the quotes.
    pub text: &'a str,
}

impl<'a> Token<'a> {
    /// Returns the first token from offset `from` on.
    #[tactic(auto, unfolding(crate::specs::Lexing::token_at))]
    pub(crate) fn at(text: &'a str, from: usize) -> Token<'a>
        requires { IsCharBoundary text.now from }
        ensures value { lexeme result ≡ token_at text.now from }
        ensures from { result.kind ≢ Kind.End → from < result.end }
        ensures start { IsCharBoundary text.now result.start }
        ensures boundary { IsCharBoundary text.now result.end }
    {
        let start = end_of_run(text, from, Class::Space);
        let (kind, end) = shape_at(text, start);
        let raw = &text[start..end];
        let text = match kind {
            Kind::QuotedName | Kind::StringLiteral => &text[start + 1..end - 1],
            _ => raw,
        };
        let kind = match kind {
            Kind::Word if is_keyword(raw) => Kind::Keyword,
            _ => kind,
        };
        Token {
            kind,
            start,
            end,
            raw,
            text,
        }
    }

    /// Returns true if the token names the time column.
    #[tactic(auto, unfolding(crate::specs::Keywords::is_time_column))]
    pub(crate) fn is_time_column(&self) -> bool
        ensures { result ≡ is_time_column self.now.kind self.now.text.now }
    {
        match self.kind {
            Kind::Word => is_word(self.text, "time"),
            Kind::QuotedName => self.text == "time",
            _ => false,
        }
    }

    /// Returns true if the token belongs to unsupported InfluxQL. If unexpected, it is `OutOfProfile`.
    #[tactic(auto, unfolding(crate::specs::Keywords::is_unsupported))]
    fn is_unsupported(&self) -> bool
        ensures { result ≡ is_unsupported self.now.kind self.now.text.now }
    {
        match self.kind {
            Kind::Word => is_unsupported_word(self.text),
            Kind::Keyword => is_unsupported_keyword(self.text),
            Kind::Unsupported
            | Kind::Less
            | Kind::LessOrEqual
            | Kind::Greater
            | Kind::GreaterOrEqual
            | Kind::Plus
            | Kind::Minus => true,
            _ => false,
        }
    }

    /// Returns `OutOfProfile` at this token.
    pub(crate) fn unsupported(&self) -> QlFault<'a>
        ensures { as_fault result ≡ unsupported (lexeme self.now) }
    {
        QlFaultKind::OutOfProfile(self.raw).at(self.start)
    }

    /// Returns the error of a token that can't come here: `OutOfProfile` if it is unsupported, else `Syntax`.
    pub(crate) fn unexpected(&self) -> QlFault<'a>
        ensures { as_fault result ≡ unexpected (lexeme self.now) }
    {
        if self.is_unsupported() {
            self.unsupported()
        } else {
            QlFaultKind::Syntax.at(self.start)
        }
    }
}
