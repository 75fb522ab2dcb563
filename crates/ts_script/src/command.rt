//! The commands of a script, and their parser.
ghost use Rattle.std.specs.Prelude.{◌≡◌};
ghost use Rattle.ts_script.specs.Commands.{is_blank, is_skipped, word, after_word, count_from, at_of, precision_from, epoch_from, command_with, command_alone, command_of, count_between};
ghost use Rattle.ts_core.specs.facts.TimeUnits.{precision_of};
ghost use Rattle.ts_reply.specs.Epochs.{epoch_of};
ghost use Rattle.ts_script.specs.Moments.{moment_of};
ghost use Rattle.ts_script.specs.CommandParts.{command_view};

use crate::moment::{moment_in, moment_of};
use ts_core::{Time, TimeUnit, is_number};
use ts_reply::Epoch;

/// Command of a script.
#[derive(Clone, Copy, Drop)]
pub enum Command<'a> {
    /// Opens the script with the settings of this text.
    SetSettings(&'a str),
    /// Sets the script's time.
    At(Time),
    /// Sets the precision of timestamps.
    SetPrecision(TimeUnit),
    /// Sets the format of times in replies.
    SetEpoch(Epoch),
    /// Writes this line.
    Write(&'a str),
    /// Prints the number of raw facts.
    Live,
    /// Runs retention at the script's time.
    Retain,
    /// Begins a run of retention at the script's time.
    BeginRun,
    /// Takes a step of the open run.
    StepRun,
    /// Saves the store to memory and loads it back.
    Reload,
    /// Adds the rule of this text.
    AddRule(&'a str),
    /// Drops the rule with this name.
    DropRule(&'a str),
    /// Sets the certificate of the next query. The text has `;` instead of LF.
    SetCertificate(&'a str),
    /// Prints the reply to these queries.
    Query(&'a str),
    /// Prints the plans of these queries.
    Explain(&'a str),
    /// Prints the number of values of a measurement and a field from one time, inclusive, to another, exclusive.
    Count {
        measurement: &'a str,
        field: &'a str,
        from: Time,
        to: Time,
    },
    /// A count with an invalid time.
    CountFault,
    /// Not a command.
    Unknown,
}

/// Returns true if the line has only spaces.
fn is_blank(line: &[u8]) -> bool
    ensures { result ≡ is_blank line.now }
{
    line.iter().all(|b| *b == b' ')
}

/// Returns true if the line is blank or a comment.
pub fn is_skipped(line: &[u8]) -> bool
    ensures { result ≡ is_skipped line.now }
{
    is_blank(line) || line.starts_with(b"#")
}

/// Splits a text at the first space. Without a space, returns the whole text and an empty one.
fn first_word(text: &str) -> (&str, &str)
    ensures word { result.0.now ≡ word text.now }
    ensures rest { result.1.now ≡ after_word text.now }
{
    match text.split_once(' ') {
        Some((first, rest)) => (first, rest),
        None => (text, ""),
    }
}

#[tactic(auto, unfolding(crate::specs::Commands::at_of))]
fn at(text: &str) -> Command<'_>
    ensures { command_view result ≡ at_of (moment_of text.now) }
{
    match moment_of(text) {
        Some(moment) => Command::At(moment),
        None => Command::Unknown,
    }
}

#[tactic(auto, unfolding(crate::specs::Commands::precision_from))]
fn precision(text: &str) -> Command<'_>
    ensures { command_view result ≡ precision_from (precision_of text.now) }
{
    match TimeUnit::of_precision(text) {
        Some(precision) => Command::SetPrecision(precision),
        None => Command::Unknown,
    }
}

#[tactic(auto, unfolding(crate::specs::Commands::epoch_from))]
fn epoch(text: &str) -> Command<'_>
    ensures { command_view result ≡ epoch_from (epoch_of text.now) }
{
    match Epoch::named(text) {
        Some(epoch) => Command::SetEpoch(epoch),
        None => Command::Unknown,
    }
}

/// Returns the count over a range, or `CountFault` if a time isn't valid.
#[tactic(auto, unfolding(crate::specs::Commands::count_between))]
fn count_between<'a>(
    measurement: &'a str,
    field: &'a str,
    from: Option<Time>,
    to: Option<Time>,
) -> Command<'a>
    ensures { command_view result ≡ count_between measurement.entry.now field.entry.now from to }
{
    let (Some(from), Some(to)) = (from, to) else {
        return Command::CountFault;
    };
    Command::Count {
        measurement,
        field,
        from,
        to,
    }
}

#[tactic(auto, unfolding(crate::specs::Commands::count_from, crate::specs::Commands::count_from_parts))]
fn count(text: &str) -> Command<'_>
    ensures { command_view result ≡ count_from text.now }
{
    let (measurement, rest) = first_word(text);
    let (field, rest) = first_word(rest);
    let (from, to) = first_word(rest);
    if measurement.is_empty()
        || field.is_empty()
        || !is_number(from.as_bytes())
        || !is_number(to.as_bytes())
    {
        return Command::Unknown;
    }
    count_between(
        measurement,
        field,
        moment_in(TimeUnit::Nanoseconds, from),
        moment_in(TimeUnit::Nanoseconds, to),
    )
}

/// Returns the command of this name with this argument.
#[tactic(auto, unfolding(crate::specs::Commands::command_with))]
fn command_with<'a>(name: &str, rest: &'a str) -> Command<'a>
    ensures { command_view result ≡ command_with name.now rest.entry.now }
{
    match name {
        "write" => Command::Write(rest),
        "settings" => Command::SetSettings(rest),
        "at" => at(rest),
        "precision" => precision(rest),
        "epoch" => epoch(rest),
        "rule" => Command::AddRule(rest),
        "drop" => Command::DropRule(rest),
        "cert" => Command::SetCertificate(rest),
        "query" => Command::Query(rest),
        "explain" => Command::Explain(rest),
        "count" => count(rest),
        _ => Command::Unknown,
    }
}

/// Returns the command of this name without an argument.
#[tactic(auto, unfolding(crate::specs::Commands::command_alone))]
fn command_alone<'a>(name: &str) -> Command<'a>
    ensures { command_view result ≡ command_alone name.now }
{
    match name {
        "retain" => Command::Retain,
        "begin" => Command::BeginRun,
        "step" => Command::StepRun,
        "reload" => Command::Reload,
        "live" => Command::Live,
        _ => Command::Unknown,
    }
}

impl<'a> Command<'a> {
    /// Parses a line that isn't skipped.
    pub fn parse(line: &'a str) -> Command<'a>
        ensures { command_view result ≡ command_of line.entry.now }
    {
        match line.split_once(' ') {
            Some((name, rest)) => command_with(name, rest),
            None => command_alone(line),
        }
    }
}
