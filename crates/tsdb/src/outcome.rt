//! Exit status of the program, and its line on standard error.
ghost use Rattle.std.specs.Prelude.{◌≡◌, None, Some, MatchOption};
ghost use Rattle.std.specs.Process.{exit_status};
ghost use Rattle.tsdb.specs.RunOutcomes.{status_of, stop_fault, error_line};

use crate::command_line::CliOutcome;
use std::process::ExitCode;
use ts_core::FaultCode;
use ts_script::RunFault;

/// Outcome of a call of the program.
#[derive(Clone, Copy, Drop)]
pub enum CallOutcome {
    /// A script was answered to its end.
    Answered,
    /// A script wasn't answered to its end.
    Stopped(RunFault),
    /// Command line that requests no script.
    NoScript(CliOutcome),
    /// Command line that requests a number that no fault has.
    NoFault,
    /// Command line that isn't valid text.
    NoText,
    /// The system gave no random bytes for the seed of the hashes.
    NoSeed,
}

impl CallOutcome {
    /// Returns the exit status: 0 for success, 1 for a device error, endless input or no random bytes, 2 for a wrong
    /// command line, 3 when out of memory.
    pub fn exit_code(self) -> ExitCode
        ensures { exit_status result ≡ status_of self }
    {
        ExitCode::from(self.status())
    }

    pub(crate) fn status(self) -> u8
        ensures { result ≡ status_of self }
    {
        match self {
            CallOutcome::Answered | CallOutcome::NoScript(CliOutcome::Done) => 0,
            CallOutcome::Stopped(RunFault::Reader | RunFault::Writer | RunFault::TooManyReads)
            | CallOutcome::NoScript(CliOutcome::Device)
            | CallOutcome::NoSeed => 1,
            CallOutcome::NoScript(CliOutcome::Wrong) | CallOutcome::NoFault | CallOutcome::NoText =>
                2,
            CallOutcome::Stopped(RunFault::OutOfMemory)
            | CallOutcome::NoScript(CliOutcome::OutOfMemory) => 3,
        }
    }

    /// Returns the fault that stopped the script, if the common table of faults has it.
    pub fn fault(self) -> Option<FaultCode>
        ensures { result ≡ stop_fault self }
    {
        match self {
            CallOutcome::Stopped(fault) => fault.code(),
            _ => None,
        }
    }

    /// Returns the line for standard error, if there is one and it is none of a fault. For a wrong command line, clap
    /// has already printed the error.
    pub fn error_line(self) -> Option<&'static str>
        ensures { MatchOption result (error_line self ≡ None) (λ line. error_line self ≡ Some line.now) }
    {
        match self {
            CallOutcome::Answered | CallOutcome::NoScript(CliOutcome::Done | CliOutcome::Wrong) =>
                None,
            CallOutcome::NoScript(CliOutcome::Device) => {
                Some("tsdb: standard output or standard error could not be written")
            }
            CallOutcome::NoScript(CliOutcome::OutOfMemory)
            | CallOutcome::Stopped(RunFault::OutOfMemory) => Some("tsdb: out of memory"),
            CallOutcome::NoFault => {
                Some("tsdb: no fault has this number; `tsdb faults` prints them all")
            }
            CallOutcome::NoText => Some("tsdb: the command line can't be read as text"),
            CallOutcome::NoSeed => Some("tsdb: the system gave no random bytes"),
            CallOutcome::Stopped(RunFault::Reader | RunFault::Writer | RunFault::TooManyReads) =>
                None,
        }
    }
}

/// Prints the line for standard error, if there is one, and returns the exit status. A fault has its number and its
/// message.
pub fn end(rt: &impl Eprint, outcome: CallOutcome) -> ExitCode
    ensures { exit_status result ≡ status_of outcome }
{
    if let Some(code) = outcome.fault() {
        let _ = eprintln!(rt; "fault {}: {}", code.number(), code.message());
    }
    if let Some(line) = outcome.error_line() {
        let _ = eprintln!(rt; "{line}");
    }
    outcome.exit_code()
}
