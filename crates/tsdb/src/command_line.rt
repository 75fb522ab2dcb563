//! The command line: parses the action that it requests, or returns clap's answer to it.
ghost use Rattle.std.specs.Prelude.{◌≡◌, map, MatchOption};
ghost use Rattle.clap.specs.Words.{kind_of, found_of, rows_of, subcommand_rows_of};
ghost use Rattle.tsdb.specs.CommandLines.{IsActionOf, IsInspectionOf, IsServiceOf, ParsesAs, outcome_of_kind};

use crate::program::program;
use clap::error::ErrorKind;
use clap::{ArgMatches, Error};
use std::alloc::Global;
use std::convert::AsStr;

/// Arguments of `tsdb serve`.
#[derive(Clone, Copy, Drop)]
pub struct Service<'a> {
    /// File of the settings.
    pub settings: &'a str,
    /// File of the store's image.
    pub image: &'a str,
    /// Port to listen on.
    pub port: u16,
    /// Number of connections to serve, 0 for no end.
    pub requests: u64,
}

impl<'a> Service<'a> {
    /// Returns the values of the arguments, or `None` if one is missing.
    fn from_matches(matches: &ArgMatches<'a>) -> Option<Service<'a>>
        ensures { MatchOption result ((service : Service) → IsServiceOf (rows_of (found_of matches.now)) service → ⊥)
            (IsServiceOf (rows_of (found_of matches.now))) }
    {
        Some(Service {
            settings: matches.get_str("SETTINGS")?,
            image: matches.get_str("IMAGE")?,
            port: matches.get_one("PORT")?,
            requests: matches.get_one("REQUESTS")?,
        })
    }
}

/// Arguments of `tsdb inspect`.
#[derive(Clone, Copy, Drop)]
pub struct Inspection<'a> {
    /// File of the store's image.
    pub image: &'a str,
    /// True for its raw points as line protocol, false for a summary.
    pub lines: bool,
}

impl<'a> Inspection<'a> {
    /// Returns the values of the arguments, or `None` if the image is missing.
    fn from_matches(matches: &ArgMatches<'a>) -> Option<Inspection<'a>>
        ensures { MatchOption result ((inspection : Inspection)
            → IsInspectionOf (rows_of (found_of matches.now)) inspection → ⊥)
            (IsInspectionOf (rows_of (found_of matches.now))) }
    {
        Some(Inspection {
            image: matches.get_str("IMAGE")?,
            lines: matches.get_flag("lines"),
        })
    }
}

/// Action that a command line requests.
#[derive(Clone, Copy, Drop)]
pub enum Action<'a> {
    /// Runs the script of standard input.
    Replay,
    /// Prints the table of faults, or the row of one number.
    Faults(Option<&'a str>),
    /// Prints what an image holds.
    Inspect(Inspection<'a>),
    /// Serves HTTP requests.
    Serve(Service<'a>),
}

impl<'a> Action<'a> {
    /// Returns the action of the subcommand with its arguments, or `None` if there is none.
    fn from_matches(matches: &ArgMatches<'a>) -> Option<Action<'a>>
        ensures { MatchOption result ((action : Action) → IsActionOf (subcommand_rows_of matches.now) action → ⊥)
            (IsActionOf (subcommand_rows_of matches.now)) }
    {
        match matches.subcommand() {
            Some(("replay", _)) => Some(Action::Replay),
            Some(("faults", values)) => Some(Action::Faults(values.get_str("N"))),
            Some(("inspect", values)) => Some(Action::Inspect(Inspection::from_matches(values)?)),
            Some(("serve", values)) => Some(Action::Serve(Service::from_matches(values)?)),
            _ => None,
        }
    }
}

/// Parses the words of a command line; the first is the program's name. Returns clap's error for wrong words. Help and
/// the version are errors too, with their text.
pub fn parse<'a, S: AsStr>(alloc: Global, words: &'a [S]) -> Result<Action<'a>, Error>
    ensures { ParsesAs (map S.text words.entry.now) result }
{
    let mut program = program(alloc)?;
    let matches = program.try_get_matches_from_mut(words)?;
    match Action::from_matches(&matches) {
        Some(action) => Ok(action),
        None => Err(program.error(ErrorKind::MissingSubcommand, "no command is given")?),
    }
}

/// Outcome of clap's answer to a command line; the exit status shows it.
#[derive(Clone, Copy, Drop)]
pub enum CliOutcome {
    /// Help or the version was printed.
    Done,
    /// Standard output or standard error failed.
    Device,
    /// The command line is wrong or empty, which was printed on standard error.
    Wrong,
    /// Out of memory.
    OutOfMemory,
}

/// Returns the outcome of clap's answer if the text of this error is printed.
pub fn cli_outcome_of(error: &Error) -> CliOutcome
    ensures { result ≡ outcome_of_kind (kind_of error.now) }
{
    match error.kind() {
        ErrorKind::OutOfMemory => CliOutcome::OutOfMemory,
        ErrorKind::DisplayHelp | ErrorKind::DisplayVersion => CliOutcome::Done,
        _ => CliOutcome::Wrong,
    }
}
