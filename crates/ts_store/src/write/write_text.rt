//! Writes the text of a line: parses it, and writes its parts.
ghost use Rattle.std.specs.Prelude.{◌≡◌, ◌≢◌, ◌≤◌, length, IfOk};
ghost use Rattle.ts_core.specs.store.StoreData.{store_settings, store_marks};
ghost use Rattle.ts_core.specs.text.FaultTexts.{IsAppended};
ghost use Rattle.ts_store.specs.store.Inventories.{inventory_of, facts_of_text, GrowsAfter};
ghost use Rattle.ts_store.specs.write.LineTexts.{LineState, IsStateOf, WritesFrom, parts_in, refusal_of, line_refusal_text};

use crate::store::Store;
use crate::write::WriteFault;
use std::alloc::{AllocError, Allocator};
use ts_core::{Time, TimeUnit};
use ts_line::{LineFault, ReadLineError, read_line};

/// Error of a text that wasn't accepted.
#[derive(Clone, Copy, Debug, PartialEq, Eq)]
pub enum LineRefusal {
    /// It couldn't be parsed.
    Parse(LineFault),
    /// The store refused its line.
    Write(WriteFault),
}

/// Outcome of writing a text.
#[derive(Clone, Copy, Debug, PartialEq, Eq)]
pub enum LineOutcome {
    /// Its facts are accepted.
    Accepted,
    /// Comment or blank line.
    NoLine,
    /// It was refused, and changed nothing.
    Refused(LineRefusal),
}

impl LineRefusal {
    /// Appends the message to `text`. When out of memory, `text` may end in part of the message. Does not allocate if
    /// `text` has the capacity; a message has at most 34 bytes.
    pub fn text_to<A: Allocator>(&self, text: &mut String<A>) -> Result<(), AllocError>
        ensures appended { IsAppended (line_refusal_text self.now) text.old text.new result }
        ensures short { length (line_refusal_text self.now) ≤ 34 }
    {
        match self {
            LineRefusal::Parse(fault) => fault.text_to(text),
            LineRefusal::Write(fault) => fault.text_to(text),
        }
    }
}

impl LineOutcome {
    /// Returns the error of a text that was refused.
    pub fn refusal(self) -> Option<LineRefusal>
        ensures { result ≡ refusal_of self }
    {
        match self {
            LineOutcome::Refused(refusal) => Some(refusal),
            LineOutcome::Accepted | LineOutcome::NoLine => None,
        }
    }
}

impl<A: Allocator + Copy> Store<A> {
    /// Parses the text of a line, and writes it. A timestamp counts units of `precision`; without one, the time is
    /// `now`. `arena` allocates the line's parts, which are dropped. When out of memory, no fact is accepted, but the
    /// line's series may be registered. A comment, a blank line or a text with a fault needs no memory.
    pub fn write_text<L: Allocator + Copy>(
        &mut self,
        arena: L,
        text: &str,
        precision: TimeUnit,
        now: Time,
    ) -> Result<LineOutcome, AllocError>
        ensures written { (s : LineState) → IsStateOf s self.old → WritesFrom precision now s text.now result self.new }
        ensures inventory { GrowsAfter (store_settings self.old).rules (store_marks self.old).lows
            (facts_of_text (parts_in precision now text.now)) result (inventory_of self.old) (inventory_of self.new) }
        ensures unchanged { IfOk result (λ outcome. outcome ≢ LineOutcome.Accepted → self.new ≡ self.old) }
    {
        match read_line(arena, text, precision, now) {
            Ok(Some(line)) => match self.write(&line) {
                Ok(()) => Ok(LineOutcome::Accepted),
                Err(fault) => match fault {
                    WriteFault::OutOfMemory => Err(AllocError),
                    _ => Ok(LineOutcome::Refused(LineRefusal::Write(fault))),
                },
            },
            Ok(None) => Ok(LineOutcome::NoLine),
            Err(ReadLineError::Fault(fault)) => Ok(LineOutcome::Refused(LineRefusal::Parse(fault))),
            Err(ReadLineError::OutOfMemory) => Err(AllocError),
        }
    }
}
