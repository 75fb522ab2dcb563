//! Duration units, identified by the first two bytes of their names.
ghost use Rattle.std.specs.Prelude.{◌≡◌, ◌≤◌};
ghost use Rattle.ts_ql.specs.DurationUnits.{unit_len, nanoseconds_of_unit};

use ts_core::TimeUnit;

/// Returns the length in bytes of the unit that begins with `byte` and `next`; 0 if none does.
#[tactic(auto, unfolding(crate::specs::DurationUnits::unit_len))]
pub(crate) fn unit_len(byte: u8, next: u8) -> usize
    ensures { result ≡ unit_len byte next }
{
    match TimeUnit::begun_by(byte, next) {
        Some((_, len)) => len,
        None => 0,
    }
}

/// Returns the nanoseconds of the unit that begins with `byte` and `next`; 1 if none does.
#[tactic(auto, using(ts_core::proofs::facts::DurationSteps::unit_counts), unfolding(crate::specs::DurationUnits::nanoseconds_of_unit))]
pub(crate) fn nanoseconds_of_unit(byte: u8, next: u8) -> u64
    ensures value { result ≡ nanoseconds_of_unit byte next }
    ensures some { 1 ≤ result }
{
    match TimeUnit::begun_by(byte, next) {
        Some((unit, _)) => unit.nanoseconds().unsigned_abs(),
        None => 1,
    }
}
