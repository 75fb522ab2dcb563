//! The engine of `tsdb replay`: reads a script line by line, and answers each line.
ghost use Rattle.std.specs.Prelude.{◌≡◌, ◌≤◌, [], false, length, string_capacity};
ghost use Rattle.ts_core.specs.facts.Facts.{Text};
ghost use Rattle.ts_core.specs.io.OutputBuffering.{IsBuffered};
ghost use Rattle.ts_core.specs.io.ReadingAhead.{nothing_ahead};
ghost use Rattle.ts_script.specs.ScriptLines.{script_line_limit, read_limit};
ghost use Rattle.ts_script.specs.LineReading.{IsTextOf, has_lf};
ghost use Rattle.ts_script.specs.ScriptReplies.{text_of};
ghost use Rattle.ts_script.specs.Machine.{State, start};
ghost use Rattle.ts_script.specs.MachineState.{IsMachineIn, StepTo};
ghost use Rattle.ts_script.specs.Script.{IsReplay};
ghost use Rattle.ts_script.specs.declared.reply.TheConstants.{TEXT_CAPACITY};

use crate::line_reader::{LineReader, Next};
use crate::machine::Machine;
use crate::reply::{Reply, TEXT_CAPACITY};
use crate::run_fault::RunFault;
use std::alloc::Global;
use std::hash::RandomState;
use std::io::{Read, Write};
use ts_core::{OutputBuffer, Refused, Sink, Source};

/// Size of the buffer of answers, in bytes.
const BUFFER_SIZE: usize = 8_192;

/// Limit of the number of reads.
const READ_LIMIT: u64 = 4_294_967_296;

/// Answers the line that was read last.
fn answer(machine: &mut Machine, next: Next, line: &[u8]) -> Reply
    requires { length line.now ≤ script_line_limit }
    ensures { (text : Text) (s : State)
        → IsTextOf text next line.now → IsMachineIn s machine.old → StepTo text s (text_of result) machine.new }
{
    match next {
        Next::End => Reply::Nothing,
        Next::TooLong => machine.refuse(),
        Next::Line => machine.serve(line),
    }
}

/// Flushes the buffered answers unless the next line is already in the read buffer, so that nobody waits for a buffered
/// answer.
fn send_before_wait<W: Write>(
    lines: &LineReader,
    answers: &mut OutputBuffer<Global>,
    sink: &mut Sink<W>,
) -> Result<(), Refused>
    ensures sent { IsBuffered sink.old answers.old result [] sink.new answers.new }
    ensures flushed { has_lf lines.now.ahead.buffered ≡ false → answers.new ≡ [] }
{
    if lines.holds_line() {
        return Ok(());
    }
    answers.flush(sink)
}

/// Answers all remaining lines. Answers are buffered, but are flushed before the reader waits for input.
fn answer_all<R: Read, W: Write>(
    machine: &mut Machine,
    lines: &mut LineReader,
    text: &mut String,
    answers: &mut OutputBuffer<Global>,
    source: &mut Source<R>,
    sink: &mut Sink<W>,
) -> Result<(), RunFault>
    requires machine { IsMachineIn start machine.old }
    requires lines { lines.old.ahead ≡ nothing_ahead lines.old.ahead.limit }
    requires text { TEXT_CAPACITY ≤ string_capacity text.old }
    requires answers { answers.old ≡ [] }
    ensures { IsReplay lines.old.ahead.limit source.old sink.old result source.new sink.new }
{
    loop {
        send_before_wait(lines, answers, sink)?;
        let next = lines.next(source)?;
        if let Next::End = next {
            answers.flush(sink)?;
            return Ok(());
        }
        let reply = answer(machine, next, lines.line());
        reply.send(text, answers, sink)?;
    }
}

/// Answers each line of a script on the sink, beginning with an empty store and the time 0. Reads at most `reads`
/// times. Allocates all buffers before the first line. `seed`: of the hashes of names; no answer depends on it.
pub fn run_within<R: Read, W: Write>(
    alloc: Global,
    seed: RandomState,
    source: &mut Source<R>,
    sink: &mut Sink<W>,
    reads: u64,
) -> Result<(), RunFault>
    ensures { IsReplay reads source.old sink.old result source.new sink.new }
{
    let mut lines = LineReader::new(alloc, reads)?;
    let mut text = String::with_capacity(alloc, TEXT_CAPACITY)?;
    let mut answers = OutputBuffer::new(alloc, BUFFER_SIZE)?;
    let mut machine = Machine::new(alloc, seed)?;
    answer_all(
        &mut machine,
        &mut lines,
        &mut text,
        &mut answers,
        source,
        sink,
    )
}

/// Answers each line of a script on the sink like `run_within`, with at most 2^32 reads.
pub fn run<R: Read, W: Write>(
    alloc: Global,
    seed: RandomState,
    source: &mut Source<R>,
    sink: &mut Sink<W>,
) -> Result<(), RunFault>
    ensures { IsReplay read_limit source.old sink.old result source.new sink.new }
{
    run_within(alloc, seed, source, sink, READ_LIMIT)
}
