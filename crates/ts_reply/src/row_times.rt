//! Writes the times of rows as JSON. Caches the text of the last one, as all groups of an answer have the same times.
ghost use Rattle.std.specs.Prelude.{◌≡◌, OnOk, string_bytes};
ghost use Rattle.ts_reply.specs.AppendedData.{AppendsData};
ghost use Rattle.ts_reply.specs.Replies.{IsTimeData};

use crate::epoch::Epoch;
use crate::value::push_time;
use std::alloc::{AllocError, Global};
use std::marker::Model;

/// Time writer with a cache of one time. Its model is the time format alone.
#[derive(Drop)]
pub(crate) struct Times {
    epoch: Epoch,
    // `text` is the text of this time.
    last: Option<i128>,
    text: String,
}

impl Model for Times {
    ghost use Rattle.std.specs.Prelude.{[], IfSome, string_bytes};
    ghost use Rattle.ts_reply.specs.declared.epoch.Epoch.{Epoch as EpochValue};
    ghost use Rattle.ts_reply.specs.AppendedData.{AppendsData};
    ghost use Rattle.ts_reply.specs.Replies.{IsTimeData};

    ghost Value = { EpochValue };

    ghost view = { λ t. t.epoch };

    ghost invariant = { λ t. IfSome t.last (λ nanos. AppendsData (IsTimeData t.epoch nanos) [] (string_bytes t.text)) };
}

impl Times {
    /// Creates a writer with an empty cache.
    pub(crate) fn new(alloc: Global, epoch: Epoch) -> Times
        ensures { result ≡ epoch }
    {
        Times {
            epoch,
            last: None,
            text: String::new(alloc),
        }
    }

    /// Appends a time, in nanoseconds of the Unix epoch, in the reply's format.
    pub(crate) fn push(
        &mut self,
        alloc: Global,
        text: &mut String,
        nanos: &i128,
    ) -> Result<(), AllocError>
        ensures value { OnOk result
            (AppendsData (IsTimeData self.old nanos.now) (string_bytes text.old) (string_bytes text.new)) }
        ensures same { self.new ≡ self.old }
    {
        if self.last == Some(*nanos) {
            return text.push_str(self.text.as_str());
        }
        self.last = None;
        self.text.clear();
        push_time(alloc, &mut self.text, self.epoch, nanos)?;
        self.last = Some(*nanos);
        text.push_str(self.text.as_str())
    }
}
