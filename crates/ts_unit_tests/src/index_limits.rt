//! An index with as many series as the limit allows.

use itoa::Buffer;
use std::alloc::Global;
use std::test::Fail;
use ts_core::KeyRef;
use ts_raw::{Index, IndexFault, SERIES_LIMIT, SeriesId};
use ts_testkit::fixed_seed;

/// Registers the series of a measurement that is a number.
fn register(index: &mut Index<Global>, number: usize) -> Result<SeriesId, IndexFault> {
    let mut digits = Buffer::new();
    index.register(&KeyRef::new(digits.format(number), &[]))
}

/// Registers the first series, this many; returns true if none was refused.
fn register_all(index: &mut Index<Global>, count: usize) -> bool {
    for number in 0..count {
        if register(index, number).is_err() {
            return false;
        }
    }
    true
}

#[test]
fn one_series_too_many_is_refused(rt: HostRuntime) -> Result<(), Fail> {
    let seed = fixed_seed().ok_or("a seed")?;
    let mut index = Index::new(rt.alloc(), seed);
    assert!(rt; register_all(&mut index, SERIES_LIMIT));
    let next = register(&mut index, SERIES_LIMIT);
    assert!(rt; next == Err(IndexFault::TooManySeries));
    assert_eq!(rt; index.series_count(), SERIES_LIMIT);
    // registered series are found
    for number in [0, 500_000, 999_999] {
        assert!(rt; register(&mut index, number).is_ok(), "{number}");
    }
    Ok(())
}
