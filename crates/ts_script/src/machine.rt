//! The state machine of a script: each command takes one step and has one reply.
ghost use Rattle.std.specs.Prelude.{◌≡◌, ◌≤◌, length, IfOk, string_bytes, string_len, string_capacity};
ghost use Rattle.ts_core.specs.store.StoreData.{store_settings, store_marks};
ghost use Rattle.ts_reply.specs.OutcomeViews.{given_text};
ghost use Rattle.ts_script.specs.CommandParts.{command_view};
ghost use Rattle.ts_script.specs.ScriptLines.{script_line_limit};
ghost use Rattle.ts_script.specs.Machine.{State, start};
ghost use Rattle.ts_script.specs.MarksTexts.{marks_text};
ghost use Rattle.ts_script.specs.Commands.{SetSettings as SettingsCommand, Write as WriteCommand, Retain as RetainCommand, BeginRun as BeginCommand, StepRun as StepCommand, Reload as ReloadCommand, AddRule as AddRuleCommand, DropRule as DropRuleCommand, SetCertificate as CertificateCommand, Query as QueryCommand, Explain as ExplainCommand, Count as CountCommand};
ghost use Rattle.ts_script.specs.ScriptReplies.{line, text_of, written_text};
ghost use Rattle.ts_script.specs.MachineState.{IsMachineIn, HasReply, HasExplanation, TransitionTo, Refused, StepTo};

use crate::certificate_text::with_line_feeds;
use crate::command::{Command, is_skipped};
use crate::count::count;
use crate::marks_text::{MARKS_CAPACITY, RULE_CAPACITY, marks_line, rule_line};
use crate::opening::{bad_settings, store_with};
use crate::reloading::{ReloadFault, reloaded};
use crate::reply::Reply;
use bumpalo::Bump;
use std::alloc::{AllocError, Global};
use std::hash::RandomState;
use std::marker::Model;
use std::str;
use ts_core::{Settings, SettingsError, Time, TimeUnit};
use ts_reply::{Epoch, answer, explain};
use ts_store::{LineOutcome, Store, View};

/// State of a script: the settings of its commands, and its store. A command `settings` may still come until the first
/// line that isn't skipped. `arena` holds the tags and fields of a line. `seed` is that of the hashes of names in each
/// store of the script.
#[derive(Drop)]
pub struct Machine {
    alloc: Global,
    seed: RandomState,
    moment: Time,
    precision: TimeUnit,
    epoch: Epoch,
    fresh: bool,
    certificate: Option<String>,
    store: Store<Global>,
    arena: Bump<Global>,
}

impl Model for Machine {
    ghost use Rattle.std.specs.Prelude.{option_map, string_bytes};
    ghost use Rattle.ts_script.specs.MachineState.{MachineState, coded_machine_state};

    ghost Value = { MachineState };

    ghost coded = { coded_machine_state };

    ghost view = { λ m. record {
      moment = m.moment;
      precision = m.precision;
      epoch = m.epoch;
      fresh = m.fresh;
      certificate = option_map string_bytes m.certificate;
      kept = m.store;
    } };
}

impl Machine {
    /// Creates a machine with an empty store, at time 0, with timestamps in nanoseconds, and times of replies as text.
    /// `seed`: of the hashes of names; no answer depends on it.
    pub fn new(alloc: Global, seed: RandomState) -> Result<Machine, AllocError>
        ensures { IfOk result (λ m. IsMachineIn start m) }
    {
        Ok(Machine {
            alloc,
            seed,
            moment: Time::new(0).unwrap(),
            precision: TimeUnit::Nanoseconds,
            epoch: Epoch::Text,
            fresh: true,
            certificate: None,
            store: Store::new(alloc, Settings::open(alloc), seed)?,
            arena: Bump::new(alloc),
        })
    }

    /// Answers a line of a script. When out of memory, no fact is accepted, but the line's series may be registered.
    pub fn serve(&mut self, line: &[u8]) -> Reply
        requires { length line.now ≤ script_line_limit }
        ensures { (s : State) → IsMachineIn s self.old → StepTo line.now s (text_of result) self.new }
    {
        match str::from_utf8(line) {
            Ok(text) => {
                if is_skipped(line) {
                    return Reply::Nothing;
                }
                let reply = self.apply(Command::parse(text));
                self.fresh = false;
                reply
            }
            Err(_) => self.refuse(),
        }
    }

    /// Answers a line that isn't text or is too long: it isn't a command, and settings may no longer follow.
    pub fn refuse(&mut self) -> Reply
        ensures { (s : State) → IsMachineIn s self.old → Refused s (text_of result) self.new }
    {
        self.fresh = false;
        Reply::Unknown
    }

    /// Executes a command.
    fn apply(&mut self, command: Command<'_>) -> Reply
        ensures { (s : State)
            → IsMachineIn s self.old → TransitionTo (command_view command.entry) s (text_of result) self.new }
    {
        match command {
            Command::SetSettings(text) => self.set_settings(text),
            Command::At(moment) => {
                self.moment = moment;
                Reply::Nothing
            }
            Command::SetPrecision(precision) => {
                self.precision = precision;
                Reply::Nothing
            }
            Command::SetEpoch(epoch) => {
                self.epoch = epoch;
                Reply::Nothing
            }
            Command::Write(line) => self.write(line),
            Command::Retain => self.retain(),
            Command::BeginRun => self.begin(),
            Command::StepRun => self.step(),
            Command::Reload => self.reload(),
            Command::AddRule(text) => self.add_rule(text),
            Command::DropRule(name) => self.drop_rule(name),
            Command::SetCertificate(text) => self.set_certificate(text),
            Command::Query(text) => self.query(text),
            Command::Explain(text) => self.explain(text),
            Command::Live => Reply::Count(self.store.raw_points()),
            Command::Count {
                measurement,
                field,
                from,
                to,
            } => self.count(measurement, field, from, to),
            Command::CountFault => Reply::BadRange,
            Command::Unknown => Reply::Unknown,
        }
    }

    /// Replaces the store by an empty one with the settings of a text, or replies with their first error. Not a command
    /// once a line that isn't skipped has come.
    fn set_settings(&mut self, text: &str) -> Reply
        ensures { (s : State)
            → IsMachineIn s self.old → TransitionTo (SettingsCommand text.now) s (text_of result) self.new }
    {
        if !self.fresh {
            return Reply::Unknown;
        }
        match store_with(self.alloc, self.seed, text) {
            Ok(store) => {
                self.store = store;
                Reply::Nothing
            }
            Err(SettingsError::Fault(fault)) => bad_settings(self.alloc, fault),
            Err(SettingsError::OutOfMemory) => Reply::OutOfMemory,
        }
    }

    /// Runs retention at the script's time, and replies with the marks. Allocates the text of these before the run.
    fn retain(&mut self) -> Reply
        ensures { (s : State) → IsMachineIn s self.old → TransitionTo RetainCommand s (text_of result) self.new }
    {
        match String::with_capacity(self.alloc, MARKS_CAPACITY) {
            Ok(text) => self.retain_and_tell(text),
            Err(_) => Reply::OutOfMemory,
        }
    }

    /// Runs retention at the script's time, and replies with the marks in an empty text that has the capacity.
    fn retain_and_tell(&mut self, text: String) -> Reply
        requires empty { string_len text ≡ 0 }
        requires spare { MARKS_CAPACITY ≤ string_capacity text }
        ensures { (s : State) → IsMachineIn s self.old → TransitionTo RetainCommand s (text_of result) self.new }
    {
        if self.store.retain(self.moment).is_err() {
            return Reply::RunInProgress;
        }
        self.marks(text)
    }

    /// Begins a run of retention at the script's time, and replies with the marks. Allocates the text of these first.
    fn begin(&mut self) -> Reply
        ensures { (s : State) → IsMachineIn s self.old → TransitionTo BeginCommand s (text_of result) self.new }
    {
        match String::with_capacity(self.alloc, MARKS_CAPACITY) {
            Ok(text) => self.begin_and_tell(text),
            Err(_) => Reply::OutOfMemory,
        }
    }

    /// Begins a run of retention at the script's time, and replies with the marks in an empty text that has the
    /// capacity.
    fn begin_and_tell(&mut self, text: String) -> Reply
        requires empty { string_len text ≡ 0 }
        requires spare { MARKS_CAPACITY ≤ string_capacity text }
        ensures { (s : State) → IsMachineIn s self.old → TransitionTo BeginCommand s (text_of result) self.new }
    {
        if self.store.begin(self.moment).is_err() {
            return Reply::RunInProgress;
        }
        self.marks(text)
    }

    /// Takes a step of the open run, and replies with its answer.
    fn step(&mut self) -> Reply
        ensures { (s : State) → IsMachineIn s self.old → TransitionTo StepCommand s (text_of result) self.new }
    {
        Reply::Stepped(self.store.step())
    }

    /// Saves the store to memory, and replaces it by the store that is loaded back.
    fn reload(&mut self) -> Reply
        ensures { (s : State) → IsMachineIn s self.old → TransitionTo ReloadCommand s (text_of result) self.new }
    {
        match reloaded(self.alloc, self.seed, &self.store) {
            Ok(store) => {
                self.store = store;
                Reply::Reloaded
            }
            Err(ReloadFault::OutOfMemory) => Reply::OutOfMemory,
            Err(ReloadFault::NotAccepted) => Reply::NotAccepted,
        }
    }

    /// Adds the rule of a text, and replies with its name and low index. Allocates the text of these before the rule is
    /// added.
    fn add_rule(&mut self, text: &str) -> Reply
        ensures { (s : State)
            → IsMachineIn s self.old → TransitionTo (AddRuleCommand text.now) s (text_of result) self.new }
    {
        match String::with_capacity(self.alloc, RULE_CAPACITY) {
            Ok(reply) => self.add_and_tell(text, reply),
            Err(_) => Reply::OutOfMemory,
        }
    }

    /// Adds the rule of a text, and replies with its name and low index in an empty text that has the capacity.
    fn add_and_tell(&mut self, text: &str, reply: String) -> Reply
        requires empty { string_len reply ≡ 0 }
        requires spare { RULE_CAPACITY ≤ string_capacity reply }
        ensures { (s : State)
            → IsMachineIn s self.old → TransitionTo (AddRuleCommand text.now) s (text_of result) self.new }
    {
        match self.store.add_rule_text(self.alloc, self.alloc, text) {
            Ok(added) => Reply::Body(rule_line(reply, added.name.as_str(), added.low)),
            Err(SettingsError::Fault(fault)) => bad_settings(self.alloc, fault),
            Err(SettingsError::OutOfMemory) => Reply::OutOfMemory,
        }
    }

    /// Drops the rule with a name.
    fn drop_rule(&mut self, name: &str) -> Reply
        ensures { (s : State)
            → IsMachineIn s self.old → TransitionTo (DropRuleCommand name.now) s (text_of result) self.new }
    {
        if self.store.drop_rule(name).is_err() {
            return Reply::UnknownRule;
        }
        Reply::Dropped
    }

    /// Replies with the marks in an empty text that has the capacity.
    fn marks(&self, text: String) -> Reply
        requires empty { string_len text ≡ 0 }
        requires spare { MARKS_CAPACITY ≤ string_capacity text }
        ensures { text_of result ≡ line (marks_text (store_settings self.now.kept) (store_marks self.now.kept)) }
    {
        Reply::Body(marks_line(text, self.store.settings(), self.store.marks()))
    }

    /// Sets the certificate of the next query.
    fn set_certificate(&mut self, text: &str) -> Reply
        ensures { (s : State)
            → IsMachineIn s self.old → TransitionTo (CertificateCommand text.now) s (text_of result) self.new }
    {
        match with_line_feeds(self.alloc, text) {
            Ok(certificate) => {
                self.certificate = Some(certificate);
                Reply::Nothing
            }
            Err(_) => Reply::OutOfMemory,
        }
    }

    /// Answers queries. If a certificate is set, answers by it and clears it.
    fn query(&mut self, text: &str) -> Reply
        ensures { (s : State)
            → IsMachineIn s self.old → TransitionTo (QueryCommand text.now) s (text_of result) self.new }
    {
        let certificate = self.certificate.take();
        match self.reply(text, certificate.as_deref()) {
            Ok(body) => Reply::Body(body),
            Err(_) => Reply::OutOfMemory,
        }
    }

    /// Returns the body of the reply to queries, with an LF.
    fn reply(&self, text: &str, certificate: Option<&str>) -> Result<String, AllocError>
        ensures { IfOk result (λ body. (s : State)
            → IsMachineIn s self.now → HasReply s text.now (given_text certificate.entry) (string_bytes body)) }
    {
        let reply = answer(
            self.alloc,
            self.alloc,
            &self.store,
            self.moment,
            text,
            certificate,
            self.epoch,
        )?;
        ended(reply.body)
    }

    /// Answers queries with their plans.
    fn explain(&self, text: &str) -> Reply
        ensures { (s : State)
            → IsMachineIn s self.now → TransitionTo (ExplainCommand text.now) s (text_of result) self.now }
    {
        match self.explanation(text) {
            Ok(body) => Reply::Body(body),
            Err(_) => Reply::OutOfMemory,
        }
    }

    /// Returns the body of the explanation of queries, with an LF.
    fn explanation(&self, text: &str) -> Result<String, AllocError>
        ensures { IfOk result (λ body. (s : State)
            → IsMachineIn s self.now → HasExplanation s text.now (string_bytes body)) }
    {
        let now = self.moment;
        let reply = explain(self.alloc, self.alloc, &self.store, now, text)?;
        ended(reply.body)
    }

    /// Counts the values of a field from one time, inclusive, to another, exclusive.
    fn count(&self, measurement: &str, field: &str, from: Time, to: Time) -> Reply
        ensures { (s : State) → IsMachineIn s self.now
            → TransitionTo (CountCommand measurement.now field.now from to) s (text_of result) self.now }
    {
        if from < to {
            count(self.alloc, &self.store, measurement, field, from, to)
        } else {
            Reply::Count(0)
        }
    }

    /// Writes a line, whose parts are in the arena; resets the arena for the next line.
    fn write(&mut self, text: &str) -> Reply
        ensures { (s : State)
            → IsMachineIn s self.old → TransitionTo (WriteCommand text.now) s (text_of result) self.new }
    {
        let written = self
            .store
            .write_text(&self.arena, text, self.precision, self.moment);
        // no borrow of the arena is left
        let _ = self.arena.reset();
        written_reply(written)
    }
}

/// Returns the reply to a line that was written.
fn written_reply(written: Result<LineOutcome, AllocError>) -> Reply
    ensures { text_of result ≡ written_text written }
{
    match written {
        Ok(outcome) => Reply::Written(outcome),
        Err(_) => Reply::OutOfMemory,
    }
}

/// Appends an LF to a text; returns it.
fn ended(mut text: String) -> Result<String, AllocError>
    ensures { IfOk result (λ ended. string_bytes ended ≡ line (string_bytes text)) }
{
    text.push_str("\n")?;
    Ok(text)
}
