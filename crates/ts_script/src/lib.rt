//! Answers scripts: a line is a command, and its reply goes to the output. Depends on ts_core, and on ts_line, ts_store
//! and ts_reply, which parse lines, store points, and answer queries and counts. Depends on ts_image, which saves and
//! loads a store, and on ts_plan for its faults. Proved: the output is the answers that specs/Script defines; after a
//! device error, a prefix of them.
//!
//! ```text
//! let mut source = Source::new(rt.reader());
//! let mut sink = Sink::new(io::writer(&rt));
//! run(rt.alloc(), seed, &mut source, &mut sink)     // printf 'write cpu v=5i 1\ncount cpu v 0 10\n' prints ok and 1
//! ```
//!
//! line_reader.rt cuts bytes into lines, command.rt parses a line, machine.rt takes one step, and reply.rt sends its
//! reply. To add a command: `Command` with specs/Commands.antt and CommandParts.antt, its step in machine.rt with
//! specs/Machine.antt, and the help of the program `tsdb`.
#![tactic(auto)]

mod certificate_text;
mod chunk;
mod command;
mod count;
mod engine;
mod line_reader;
mod machine;
mod marks_text;
mod moment;
mod opening;
mod reloading;
mod reply;
mod run_fault;

pub use command::Command;
pub use engine::{run, run_within};
pub use marks_text::marks_to;
pub use opening::store_with;
pub use run_fault::RunFault;
