//! Time format of replies.
ghost use Rattle.std.specs.Prelude.{◌≡◌};
ghost use Rattle.ts_reply.specs.Epochs.{epoch_unit_of, epoch_of};

use ts_core::TimeUnit;

/// Time format of a reply.
#[derive(Clone, Copy, Debug, PartialEq, Eq)]
pub enum Epoch {
    /// RFC 3339 text in UTC.
    Text,
    /// Number of whole units since the Unix epoch, rounded down.
    Units(TimeUnit),
}

/// Returns the unit with this name.
#[tactic(auto, unfolding(crate::specs::Epochs::epoch_unit_of))]
fn unit_called(name: &str) -> Option<TimeUnit>
    ensures { result ≡ epoch_unit_of name.now }
{
    match name.as_bytes() {
        b"ns" | b"n" => Some(TimeUnit::Nanoseconds),
        b"u" | [0xc2, 0xb5] => Some(TimeUnit::Microseconds),
        b"ms" => Some(TimeUnit::Milliseconds),
        b"s" => Some(TimeUnit::Seconds),
        b"m" => Some(TimeUnit::Minutes),
        b"h" => Some(TimeUnit::Hours),
        _ => None,
    }
}

impl Epoch {
    /// Returns the format with this name: `text`, or the unit `ns`, `n`, `u`, `µ`, `ms`, `s`, `m` or `h`.
    #[tactic(auto, unfolding(crate::specs::Epochs::epoch_of))]
    pub fn named(name: &str) -> Option<Epoch>
        ensures { result ≡ epoch_of name.now }
    {
        if name == "text" {
            return Some(Epoch::Text);
        }
        unit_called(name).map(Epoch::Units)
    }
}
