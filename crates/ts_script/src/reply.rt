//! Replies to the lines of a script.
ghost use Rattle.std.specs.Prelude.{◌≡◌, ◌≤◌, ◌<◌, ◌+◌, IsOk, string_bytes, string_len, string_capacity};
ghost use Rattle.std.specs.Fmt.{decimal};
ghost use Rattle.ts_core.specs.io.OutputBuffering.{IsBuffered};
ghost use Rattle.ts_core.specs.text.FaultCodes.{code_number};
ghost use Rattle.ts_core.specs.text.FaultTexts.{fault_text};
ghost use Rattle.ts_core.specs.declared.text.fault_text.FaultDetail.TheVariants.{Alone};
ghost use Rattle.ts_plan.specs.PlanTexts.{plan_fault_text};
ghost use Rattle.ts_script.specs.ScriptReplies.{line, outcome_text, step_text, text_of, bad_range_text};

use itoa::write_digits;
use std::alloc::{AllocError, Global};
use std::io::Write;
use ts_core::{FaultCode, FaultDetail, OutputBuffer, Refused, Sink};
use ts_plan::PlanFault;
use ts_store::{LineOutcome, StepAnswer};

/// Reply to a line.
#[derive(Drop)]
pub enum Reply {
    /// Prints nothing.
    Nothing,
    /// Outcome of a line that was written.
    Written(LineOutcome),
    /// Answer of a step of a retention run.
    Stepped(StepAnswer),
    /// The store was saved and loaded back.
    Reloaded,
    /// The image of the store was not accepted. The image of a store with a history is always accepted.
    NotAccepted,
    /// A rule was dropped.
    Dropped,
    /// No rule has the name.
    UnknownRule,
    /// A number of values.
    Count(u64),
    /// Any other text, with its LF: the reply to queries, marks, an added rule, or an error of settings.
    Body(String),
    /// Count without a plan.
    NoPlan(PlanFault),
    /// Not a command.
    Unknown,
    /// Invalid time, or a range that is too long.
    BadRange,
    /// Retention run in progress.
    RunInProgress,
    /// Out of memory. No fact was accepted, but a line's series may have been registered.
    OutOfMemory,
}

/// Capacity that a reply needs for the message of a fault, in bytes.
pub const TEXT_CAPACITY: usize = 35;

impl Reply {
    /// Appends the reply with its LF to the buffered answers. The message of a refusal is built in `text`, which has
    /// the capacity, so nothing is allocated.
    pub fn send<W: Write>(
        self,
        text: &mut String,
        answers: &mut OutputBuffer<Global>,
        sink: &mut Sink<W>,
    ) -> Result<(), Refused>
        requires { TEXT_CAPACITY ≤ string_capacity text.old }
        ensures spare { TEXT_CAPACITY ≤ string_capacity text.new }
        ensures sent { IsBuffered sink.old answers.old result (text_of self) sink.new answers.new }
    {
        match self {
            Reply::Nothing => answers.write_all(b"", sink),
            Reply::Written(outcome) => send_outcome(outcome, text, answers, sink),
            Reply::Stepped(answer) => answers.write_all(step_line(answer), sink),
            Reply::Reloaded | Reply::Dropped => answers.write_all(b"ok\n", sink),
            Reply::NotAccepted => send_fault(FaultCode::ContradictoryImage, text, answers, sink),
            Reply::UnknownRule => send_fault(FaultCode::UnknownRule, text, answers, sink),
            Reply::Count(count) => send_count(answers, sink, count),
            Reply::Body(body) => answers.write_all(body.as_bytes(), sink),
            Reply::NoPlan(fault) => send_plan_fault(fault, text, answers, sink),
            Reply::Unknown => send_fault(FaultCode::UnknownCommand, text, answers, sink),
            Reply::BadRange => send_bad_range(text, answers, sink),
            Reply::RunInProgress => send_fault(FaultCode::RunInProgress, text, answers, sink),
            Reply::OutOfMemory => answers.write_all(b"fault memory\n", sink),
        }
    }
}

/// Appends the outcome of a line with its LF to the buffered answers. The message of a refusal is built in `text`,
/// which has the capacity, so nothing is allocated.
fn send_outcome<W: Write>(
    outcome: LineOutcome,
    text: &mut String,
    answers: &mut OutputBuffer<Global>,
    sink: &mut Sink<W>,
) -> Result<(), Refused>
    requires { TEXT_CAPACITY ≤ string_capacity text.old }
    ensures spare { TEXT_CAPACITY ≤ string_capacity text.new }
    ensures sent { IsBuffered sink.old answers.old result (outcome_text outcome) sink.new answers.new }
{
    text.clear();
    match outcome {
        LineOutcome::Accepted => answers.write_all(b"ok\n", sink),
        LineOutcome::NoLine => answers.write_all(b"none\n", sink),
        LineOutcome::Refused(refusal) => send_made(refusal.text_to(text), text, answers, sink),
    }
}

/// Appends a message that was built in `text`, with an LF, to the buffered answers.
fn send_made<W: Write>(
    made: Result<(), AllocError>,
    text: &mut String,
    answers: &mut OutputBuffer<Global>,
    sink: &mut Sink<W>,
) -> Result<(), Refused>
    requires made { IsOk made }
    requires spare { string_len text.old + 1 ≤ string_capacity text.old }
    ensures spare { string_capacity text.old ≤ string_capacity text.new }
    ensures sent { IsBuffered sink.old answers.old result (line (string_bytes text.old)) sink.new answers.new }
{
    match (made, text.push_str("\n")) {
        (Ok(()), Ok(())) => answers.write_all(text.as_bytes(), sink),
        _ => unreachable!(),
    }
}

/// Appends a fault without a detail, with its LF, to the buffered answers. The message is built in `text`, which has
/// the capacity, so nothing is allocated.
#[tactic(auto, using(crate::proofs::ReplyLemmas::fault_short))]
fn send_fault<W: Write>(
    code: FaultCode,
    text: &mut String,
    answers: &mut OutputBuffer<Global>,
    sink: &mut Sink<W>,
) -> Result<(), Refused>
    requires number { code_number code < 100 }
    requires capacity { TEXT_CAPACITY ≤ string_capacity text.old }
    ensures spare { TEXT_CAPACITY ≤ string_capacity text.new }
    ensures sent { IsBuffered sink.old answers.old result (line (fault_text code Alone)) sink.new answers.new }
{
    text.clear();
    send_made(code.text_to(FaultDetail::Alone, text), text, answers, sink)
}

/// Appends the fault of planning, with its LF, to the buffered answers, as `send_fault` does.
#[tactic(auto, using(crate::proofs::ReplyLemmas::plan_code_small), unfolding(ts_plan::specs::PlanTexts::plan_fault_text))]
fn send_plan_fault<W: Write>(
    fault: PlanFault,
    text: &mut String,
    answers: &mut OutputBuffer<Global>,
    sink: &mut Sink<W>,
) -> Result<(), Refused>
    requires { TEXT_CAPACITY ≤ string_capacity text.old }
    ensures spare { TEXT_CAPACITY ≤ string_capacity text.new }
    ensures sent { IsBuffered sink.old answers.old result (line (plan_fault_text fault)) sink.new answers.new }
{
    send_fault(fault.code(), text, answers, sink)
}

/// Appends the fault of a range that no query can have, with its LF, to the buffered answers, as `send_fault` does.
#[tactic(auto, using(crate::proofs::ReplyLemmas::bad_range_short))]
fn send_bad_range<W: Write>(
    text: &mut String,
    answers: &mut OutputBuffer<Global>,
    sink: &mut Sink<W>,
) -> Result<(), Refused>
    requires capacity { TEXT_CAPACITY ≤ string_capacity text.old }
    ensures spare { TEXT_CAPACITY ≤ string_capacity text.new }
    ensures sent { IsBuffered sink.old answers.old result (line bad_range_text) sink.new answers.new }
{
    text.clear();
    send_made(
        FaultCode::OutOfRange.text_to(FaultDetail::At(0), text),
        text,
        answers,
        sink,
    )
}

/// Returns the answer of a step, with an LF.
fn step_line(answer: StepAnswer) -> &'static [u8]
    ensures { result.now ≡ step_text answer }
{
    match answer {
        StepAnswer::Moved => b"moved\n",
        StepAnswer::Done => b"done\n",
    }
}

/// Appends a number with an LF to the buffered answers.
fn send_count<W: Write>(
    answers: &mut OutputBuffer<Global>,
    sink: &mut Sink<W>,
    count: u64,
) -> Result<(), Refused>
    ensures sent { IsBuffered sink.old answers.old result (line (decimal count)) sink.new answers.new }
{
    let mut text = [b'\n'; 21];
    let start = write_digits(count, &mut text, 20);
    answers.write_all(&text[start..], sink)
}
