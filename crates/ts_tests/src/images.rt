//! The image of a small store: its fields, and helpers to save and load it.

use crate::stores::{NEW_LINES, ONE_RULE, at_second, fill_and_retain, store_of, write_all};
use std::alloc::{Allocator, Global};
use std::io::Read;
use ts_core::{Sink, Source, Time};
use ts_image::{LoadFault, load, save};
use ts_store::Store;
use ts_testkit::fixed_seed;

/// Lengths of the fields of the image of `worked_store`, by the description of the form. A text is its length in eight
/// bytes and its bytes.
pub(crate) const FIELDS: [usize; 68] = [
    // head; raw duration, rules; name, measurement, interval, offset, duration, kept tags, the kept tag
    4, 1, 8, 1, 10, 11, 8, 8, 8, 1, 12, //
    // raw mark, low index, whether a run is open, accepted facts, series
    8, 8, 1, 8, 4, //
    // measurement, tags, key, value, columns; field, whether it waits, points; time, value
    11, 1, 12, 9, 8, 9, 1, 8, 8, 8, //
    // the second series, whose column has no point
    11, 1, 12, 9, 8, 9, 1, 8, //
    // cells; index, field, group; count, sum, least, greatest, first with its time, last with its time
    8, 8, 9, 9, 8, 16, 8, 8, 8, 8, 8, 8, //
    8, 9, 9, 8, 16, 8, 8, 8, 8, 8, 8, //
    8, 9, 9, 8, 16, 8, 8, 8, 8, 8, 8,
];

/// Length of that image.
pub(crate) const IMAGE_LEN: usize = 537;

/// Writes the lines of the image's store; returns true if all calls succeeded.
fn work(alloc: Global, store: &mut Store<Global>, now: Time) -> bool {
    fill_and_retain(alloc, store, now) && write_all(alloc, store, &NEW_LINES[..4])
}

/// Returns a store with two series and three cells; one of these has a raw point too.
pub(crate) fn worked_store(alloc: Global) -> Option<Store<Global>> {
    let now = at_second(200)?;
    let mut store = store_of(alloc, alloc, ONE_RULE)?;
    if work(alloc, &mut store, now) {
        Some(store)
    } else {
        None
    }
}

/// Returns the image of a store.
pub(crate) fn saved<A: Allocator + Copy>(
    alloc: A,
    json: Global,
    store: &Store<A>,
) -> Option<Vec<u8>> {
    let mut sink = Sink::new(Vec::new(json));
    let is_saved = save(alloc, store, &mut sink).is_ok();
    let image = sink.into_inner();
    if is_saved { Some(image) } else { None }
}

/// Returns the image of `worked_store`.
pub(crate) fn worked_image(alloc: Global) -> Option<Vec<u8>> {
    let store = worked_store(alloc)?;
    saved(alloc, alloc, &store)
}

/// Loads an image with the seed of tests.
pub(crate) fn load_seeded<R: Read, A: Allocator + Copy>(
    alloc: A,
    source: &mut Source<R>,
) -> Result<Store<A>, LoadFault> {
    match fixed_seed() {
        Some(seed) => load(alloc, seed, source),
        None => Err(LoadFault::Device),
    }
}

/// Loads the image in some bytes.
pub(crate) fn loaded(alloc: Global, bytes: &[u8]) -> Result<Store<Global>, LoadFault> {
    load_seeded(alloc, &mut Source::new(bytes))
}
