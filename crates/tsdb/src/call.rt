//! A call of the program, by the words of its command line.
ghost use Rattle.std.specs.Prelude.{◌≡◌, ◌⊎◌, IfErr, map};
ghost use Rattle.clap.specs.Words.{kind_of};
ghost use Rattle.ts_reply.specs.OutcomeViews.{given_text};
ghost use Rattle.tsdb.specs.CommandLines.{IsPrintedAs, outcome_of_kind};
ghost use Rattle.tsdb.specs.FaultTables.{fault_table};
ghost use Rattle.tsdb.specs.Calls.{IsReplayed, PrintsFaults, IsCall};
ghost use Rattle.tsdb.specs.declared.command_line.CliOutcome.TheVariants.{OutOfMemory};
ghost use Rattle.tsdb.specs.declared.outcome.CallOutcome.TheVariants.{NoScript, NoText};

use crate::command_line::{Action, CliOutcome, Inspection, Service, cli_outcome_of, parse};
use crate::fault_table::fault_table;
use crate::hints::hint_of;
use crate::outcome::CallOutcome;
use clap::Error;
use std::alloc::Global;
use std::convert::AsStr;
use std::hash::RandomState;
use std::io::{Read, Write};
use std::rt::Env;
use std::{env, io};
use ts_core::{Sink, Source};
use ts_script::run;

/// Returns the words of the command line; the first is the program's name.
pub fn read_arguments(rt: &(impl Env + AllocGlobal)) -> Result<Vec<String>, CallOutcome>
    ensures { IfErr result (λ outcome. (outcome ≡ NoText) ⊎ (outcome ≡ NoScript OutOfMemory)) }
{
    let args = match env::args(rt) {
        Ok(args) => args,
        Err(error) if error.kind() == io::ErrorKind::OutOfMemory => {
            return Err(CallOutcome::NoScript(CliOutcome::OutOfMemory));
        }
        Err(_) => return Err(CallOutcome::NoText),
    };
    match args.collect(rt.alloc()) {
        Ok(words) => Ok(words),
        Err(_) => Err(CallOutcome::NoScript(CliOutcome::OutOfMemory)),
    }
}

/// Answer to a command line.
#[derive(Clone, Copy, Drop)]
pub enum Answer<'a> {
    /// Its action was carried out, or there was none.
    Outcome(CallOutcome),
    /// It requests `inspect`, which is left to the caller.
    Inspection(Inspection<'a>),
    /// It requests `serve`, which is left to the caller.
    Service(Service<'a>),
}

/// Carries out the action that the words of a command line request; the first is the program's name. Reads a script
/// from the source and prints answers to the sink. `rt` prints clap's texts. `seed`: of the hashes of names; no answer
/// depends on it.
pub fn answer_arguments<'a, S: AsStr, R: Read, W: Write>(
    rt: &(impl AllocGlobal + Print + Eprint),
    seed: RandomState,
    words: &'a [S],
    source: &mut Source<R>,
    sink: &mut Sink<W>,
) -> Answer<'a>
    ensures { IsCall (map S.text words.entry.now) source.old sink.old result source.new sink.new }
{
    match parse(rt.alloc(), words) {
        Ok(Action::Replay) => Answer::Outcome(replay(rt.alloc(), seed, source, sink)),
        Ok(Action::Faults(number)) => Answer::Outcome(print_faults(rt.alloc(), number, sink)),
        Ok(Action::Inspect(inspection)) => Answer::Inspection(inspection),
        Ok(Action::Serve(service)) => Answer::Service(service),
        Err(error) => Answer::Outcome(CallOutcome::NoScript(print_error(rt, words, &error))),
    }
}

/// Prints the table of faults, or the row of one number.
fn print_faults<W: Write>(alloc: Global, number: Option<&str>, sink: &mut Sink<W>) -> CallOutcome
    ensures { PrintsFaults (fault_table (given_text number.entry)) sink.old result sink.new }
{
    let table = match fault_table(alloc, number) {
        Ok(table) => table,
        Err(_) => return CallOutcome::NoScript(CliOutcome::OutOfMemory),
    };
    if table.is_empty() {
        return CallOutcome::NoFault;
    }
    match sink.write_all(table.as_bytes()) {
        Ok(()) => CallOutcome::NoScript(CliOutcome::Done),
        Err(_) => CallOutcome::NoScript(CliOutcome::Device),
    }
}

/// Runs a script.
fn replay<R: Read, W: Write>(
    alloc: Global,
    seed: RandomState,
    source: &mut Source<R>,
    sink: &mut Sink<W>,
) -> CallOutcome
    ensures { IsReplayed source.old sink.old result source.new sink.new }
{
    match run(alloc, seed, source, sink) {
        Ok(()) => CallOutcome::Answered,
        Err(fault) => CallOutcome::Stopped(fault),
    }
}

/// Prints a line that helps after an error, if there is one.
fn print_hint<S: AsStr>(rt: &impl Eprint, words: &[S], error: &Error) {
    if let Some(hint) = hint_of(words, error.kind()) {
        let _ = eprintln!(rt; "{hint}");
    }
}

/// Prints the text of clap's error.
fn print_error<S: AsStr>(rt: &(impl Print + Eprint), words: &[S], error: &Error) -> CliOutcome
    ensures { IsPrintedAs (outcome_of_kind (kind_of error.now)) result }
{
    match cli_outcome_of(error) {
        CliOutcome::OutOfMemory => CliOutcome::OutOfMemory,
        cli_outcome => match error.print(rt) {
            Ok(()) => {
                print_hint(rt, words, error);
                cli_outcome
            }
            Err(_) => CliOutcome::Device,
        },
    }
}
