//! Finds the end of a duration literal.
ghost use Rattle.std.specs.Prelude.{◌≡◌, ◌+◌, ◌<◌, length, slice_index};
ghost use Rattle.std.specs.Str.{IsCharBoundary};
ghost use Rattle.ts_core.specs.text.Cursors.{IsOffsetFrom};
ghost use Rattle.ts_ql.specs.Lexing.{duration_end};
ghost use Rattle.ts_ql.specs.DurationUnits.{unit_len};

use crate::unit::unit_len;
use ts_core::byte_at;

/// Returns the offset after the unit at `at`, or `at` if there is no unit.
fn unit_end(text: &str, at: usize) -> usize
    requires { at < length text.now }
    ensures value { result ≡ at + unit_len (slice_index text.now at) (slice_index text.now (at + 1)) }
    ensures boundary { at < result → IsCharBoundary text.now result }
{
    at + unit_len(byte_at(text, at), byte_at(text, at + 1))
}

/// Returns the offset after the duration at `from`, or `from` if there is no duration.
#[tactic(auto, using(crate::proofs::LexingLemmas::parts_end_step, crate::proofs::LexingLemmas::parts_end_past), unfolding(crate::specs::Lexing::duration_end))]
pub(crate) fn duration_end(text: &str, from: usize) -> usize
    requires { IsCharBoundary text.now from }
    ensures value { result ≡ duration_end text.now from }
    ensures offset { IsOffsetFrom text.now from result }
{
    let bytes = text.as_bytes();
    let mut last = from;
    let mut counting = false;
    let mut at = from;
    while at < bytes.len() {
        if bytes[at].is_ascii_digit() {
            counting = true;
        } else if counting {
            let end = unit_end(text, at);
            if end == at {
                break;
            }
            last = end;
            counting = false;
        } else if at >= last {
            break;
        }
        at += 1;
    }
    last
}
