//! The program `tsdb`. It runs scripts from standard input (`tsdb replay`), serves HTTP requests (`tsdb serve`), prints
//! what an image holds (`tsdb inspect`) and the meaning of faults (`tsdb faults`). Depends on ts_script, ts_http,
//! ts_image and ts_store.
//!
//! Proved: a call has the effect that specs/Calls defines for its words and standard input
//! (`call::answer_arguments`), and requests change a store as ts_http defines them (`requests::serve_on`). Sockets,
//! the clock and files have no contract.
//!
//! ```text
//! printf 'write cpu v=5i 1\ncount cpu v 0 10\n' | tsdb replay     prints ok and 1
//! ```
#![tactic(auto)]

mod call;
mod command_line;
mod duration_text;
mod export;
mod fault_table;
mod hints;
mod image_file;
mod inspect;
mod inspect_fault;
mod line_text;
mod measured;
mod opening;
mod outcome;
mod program;
mod refusals;
mod reports;
mod requests;
mod service;
mod service_fault;
mod settings_cause;
mod start;
mod summary;
mod timed;
mod unread;

use call::{Answer, answer_arguments, read_arguments};
use inspect::inspect;
use outcome::{CallOutcome, end};
use service::serve;
use std::hash::RandomState;
use std::io;
use std::process::ExitCode;
use ts_core::{Sink, Source};

fn main(rt: HostRuntime) -> ExitCode {
    let words = match read_arguments(&rt) {
        Ok(words) => words,
        Err(outcome) => return end(&rt, outcome),
    };
    let Ok(seed) = RandomState::new(&rt) else {
        return end(&rt, CallOutcome::NoSeed);
    };
    let mut source = Source::new(rt.reader());
    let mut sink = Sink::new(io::writer(&rt));
    match answer_arguments(&rt, seed, words.as_slice(), &mut source, &mut sink) {
        Answer::Outcome(outcome) => end(&rt, outcome),
        Answer::Inspection(inspection) => inspect(&rt, seed, &inspection, &mut sink),
        Answer::Service(service) => serve(&rt, seed, &service),
    }
}
