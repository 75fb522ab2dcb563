//! Lines that help after a wrong command line.
use clap::error::ErrorKind;
use std::convert::AsStr;

/// Returns the line that helps after clap's error of these words, if there is one; the first is the program's name.
pub fn hint_of<S: AsStr>(words: &[S], kind: ErrorKind) -> Option<&'static str> {
    let command = words.get(1)?.as_str();
    match kind {
        ErrorKind::MissingRequiredArgument if command == "serve" => {
            Some("Example: tsdb serve settings.json image 8086 0")
        }
        ErrorKind::MissingRequiredArgument if command == "inspect" => {
            Some("Example: tsdb inspect image")
        }
        ErrorKind::ValueValidation if command == "serve" => {
            Some("PORT is a number from 1 to 65535, REQUESTS one from 0 on.")
        }
        ErrorKind::UnknownArgument if command == "replay" => {
            Some("A script is read from standard input: tsdb replay < FILE")
        }
        _ => None,
    }
}
