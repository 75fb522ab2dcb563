//! Keywords, function names and unsupported words, in any case.
ghost use Rattle.std.specs.Prelude.{◌≡◌};
ghost use Rattle.ts_ql.specs.Selects.{function_name};
ghost use Rattle.ts_ql.specs.Keywords.{is_clause_word, is_unsupported_keyword, is_keyword, is_unsupported_word, function_called};

use crate::literal::is_word;
use ts_core::Function;

#[tactic(auto, unfolding(crate::specs::Keywords::is_clause_word))]
fn is_clause_word(text: &str) -> bool
    ensures { result ≡ is_clause_word text.now }
{
    is_word(text, "select")
        || is_word(text, "from")
        || is_word(text, "where")
        || is_word(text, "group")
        || is_word(text, "by")
        || is_word(text, "and")
        || is_word(text, "as")
}

/// Returns true if the text is a keyword of unsupported InfluxQL.
#[tactic(auto, unfolding(crate::specs::Keywords::is_unsupported_keyword))]
pub(crate) fn is_unsupported_keyword(text: &str) -> bool
    ensures { result ≡ is_unsupported_keyword text.now }
{
    is_word(text, "or")
        || is_word(text, "into")
        || is_word(text, "order")
        || is_word(text, "limit")
        || is_word(text, "offset")
        || is_word(text, "slimit")
        || is_word(text, "soffset")
}

/// Returns true if the text is a keyword, which can't be an unquoted name.
pub(crate) fn is_keyword(text: &str) -> bool
    ensures { result ≡ is_keyword text.now }
{
    is_clause_word(text) || is_unsupported_keyword(text)
}

/// Returns true if the text, which is no keyword, is another word of unsupported InfluxQL.
#[tactic(auto, unfolding(crate::specs::Keywords::is_unsupported_word))]
pub(crate) fn is_unsupported_word(text: &str) -> bool
    ensures { result ≡ is_unsupported_word text.now }
{
    is_word(text, "show")
        || is_word(text, "create")
        || is_word(text, "alter")
        || is_word(text, "drop")
        || is_word(text, "delete")
        || is_word(text, "explain")
        || is_word(text, "grant")
        || is_word(text, "revoke")
        || is_word(text, "kill")
        || is_word(text, "set")
        || is_word(text, "tz")
        || is_word(text, "linear")
}

/// Returns the function of this name.
#[tactic(auto, unfolding(crate::specs::Keywords::function_called))]
pub(crate) fn function_called(text: &str) -> Option<Function>
    ensures { result ≡ function_called text.now }
{
    if is_word(text, "count") {
        Some(Function::Count)
    } else if is_word(text, "sum") {
        Some(Function::Sum)
    } else if is_word(text, "min") {
        Some(Function::Min)
    } else if is_word(text, "max") {
        Some(Function::Max)
    } else if is_word(text, "first") {
        Some(Function::First)
    } else if is_word(text, "last") {
        Some(Function::Last)
    } else if is_word(text, "mean") {
        Some(Function::Mean)
    } else {
        None
    }
}

/// Returns the function's name in lower case.
pub(crate) fn function_name(function: Function) -> &'static str
    ensures { result.now ≡ function_name function }
{
    match function {
        Function::Count => "count",
        Function::Sum => "sum",
        Function::Min => "min",
        Function::Max => "max",
        Function::First => "first",
        Function::Last => "last",
        Function::Mean => "mean",
    }
}
