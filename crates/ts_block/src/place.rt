//! Finds a point of a block, and the bytes before and after it.
ghost use Rattle.std.specs.Prelude.{◌≡◌, ◌<◌, ℤ, List, length};
ghost use Rattle.ts_block.specs.Blocks.{IsBlockOf};
ghost use Rattle.ts_block.specs.Appending.{values_start};
ghost use Rattle.ts_block.specs.Splicing.{IsPlace};

use crate::number::decode_number;
use crate::steps::{decode_step, read_head};
use ts_core::Time;

/// A point of a block: its index, the first time, the time before it and its own; and the bytes of the steps up to the
/// point before it, of the steps after it, of the values before its own, and of those from its own on.
#[derive(Drop)]
pub(crate) struct Place<'a> {
    pub(crate) index: usize,
    pub(crate) first: Time,
    pub(crate) before: Time,
    pub(crate) time: Time,
    pub(crate) earlier_steps: &'a [u8],
    pub(crate) later_steps: &'a [u8],
    pub(crate) earlier_values: &'a [u8],
    pub(crate) later_values: &'a [u8],
}

/// Returns the first point that isn't before a time, or the point at the index `limit` if this comes first. The block's
/// values start at the offset `values`.
pub(crate) fn find(block: &[u8], values: usize, limit: usize, time: Time) -> Place<'_>
    requires { (points : List (ℤ × ℤ))
        × IsBlockOf block.now points × (values ≡ values_start points) × (limit < length points) }
    ensures { (points : List (ℤ × ℤ)) → IsBlockOf block.now points → IsPlace points limit time result }
{
    let (_, first, all_steps) = match read_head(block) {
        Ok(head) => head,
        Err(_) => unreachable!(),
    };
    let all_values = &block[values..];
    let mut index = 0;
    let mut before = Time::least();
    let mut now = first;
    let mut from = all_steps;
    let mut steps = all_steps;
    let mut rest = all_values;
    while index < limit && now < time {
        let (_, after) = decode_number(rest);
        rest = after;
        let (next, after) = decode_step(now, steps);
        before = now;
        now = next;
        from = steps;
        steps = after;
        index += 1;
    }
    Place {
        index,
        first,
        before,
        time: now,
        earlier_steps: &all_steps[..all_steps.len() - from.len()],
        later_steps: &steps[..steps.len() - all_values.len()],
        earlier_values: &all_values[..all_values.len() - rest.len()],
        later_values: rest,
    }
}
