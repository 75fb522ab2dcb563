//! The line of a refused body, by the reply that its client got.
use std::alloc::{AllocError, Global};
use ts_core::{FaultCode, push_all};
use ts_http::{Route, Served, Status};

/// Capacity of a line, in bytes. One that is longer grows.
const CAPACITY: usize = 512;

/// Returns true if a body of lines was refused, in whole or in part.
pub fn is_refused_body(served: Served) -> bool {
    match served {
        Served::Reply { status, route } => {
            matches!(route, Route::Write)
                && !matches!(status, Status::NoContent | Status::MethodNotAllowed)
        }
        Served::Nothing => false,
    }
}

/// Returns the error of a reply, whose body is `{"error":"TEXT"}`.
fn error_of(reply: &[u8]) -> Option<&str> {
    let text = str::from_utf8(reply).ok()?;
    let (_, error) = text.split_once("{\"error\":\"")?;
    let (error, _) = error.rsplit_once("\"}")?;
    Some(error)
}

/// Returns the words of the fault whose number a text has, as `tsdb faults` prints them.
fn words_in(text: &str) -> Option<&'static str> {
    let (_, rest) = text.split_once("fault ")?;
    let number = match rest.split_once(" ") {
        Some((number, _)) => number,
        None => rest,
    };
    let number = number.trim_end_matches(";").parse::<u8>().ok()?;
    Some(FaultCode::of_number(number)?.message())
}

/// Returns the line of a refused body, by the first bytes of its reply.
pub fn refused_text(alloc: Global, reply: &[u8]) -> Result<String, AllocError> {
    let mut text = String::with_capacity(alloc, CAPACITY)?;
    let error = error_of(reply).unwrap_or("no reason is known");
    push_all(&mut text, &["tsdb: refused a body of /write: ", error])?;
    if let Some(words) = words_in(error) {
        push_all(&mut text, &[" (", words, ")"])?;
    }
    Ok(text)
}
