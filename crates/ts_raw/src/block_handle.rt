//! Position of a coded block among the bytes of a column, and the aggregate of its points.
use std::mem::size_of;
use ts_core::{Agg, Time};

/// A block: the offsets of its first byte, of the byte after it, and of its values within it; the number of its points;
/// its last time; the nanoseconds from each of its times to the next, or 0 if they differ or there is one point; and
/// the aggregate of its points. The spacing takes no memory, since the aggregate begins at a multiple of 16 bytes.
#[derive(Clone, Copy)]
pub(crate) struct BlockHandle {
    pub(crate) start: usize,
    pub(crate) values: usize,
    pub(crate) end: usize,
    pub(crate) count: usize,
    pub(crate) last: Time,
    pub(crate) spacing: u64,
    pub(crate) summary: Agg,
}

const _: () = prove!(size_of::<BlockHandle>() == 128);
