//! Images that are saved into a vector, and loaded.

use super::trial::{Answer, Call, Flaw, Trial, UNCHANGED};
use crate::images::{load_seeded, saved};
use std::alloc::Allocator;
use ts_core::{Sink, Source};
use ts_image::{LoadFault, SaveFault, save};
use ts_store::Store;
use ts_testkit::Refusing;

/// Loads the image of a store, and replaces the store.
#[derive(Clone, Copy)]
struct Load<'i> {
    image: &'i [u8],
}

impl<'i, A: Allocator + Copy> Call<A> for Load<'i> {
    fn make(&self, alloc: A, store: &mut Store<A>) -> Answer {
        let mut source = Source::new(self.image);
        match load_seeded(alloc, &mut source) {
            Ok(loaded) => {
                *store = loaded;
                Answer::Right
            }
            Err(LoadFault::OutOfMemory) => Answer::OutOfMemory,
            Err(_) => Answer::Wrong,
        }
    }
}

/// Saves a store into a vector, whose writes fail only when out of memory.
#[derive(Clone, Copy)]
struct Save<'i> {
    image: &'i [u8],
}

impl<'i, A: Allocator + Copy> Call<A> for Save<'i> {
    fn make(&self, alloc: A, store: &mut Store<A>) -> Answer {
        let mut sink = Sink::new(Vec::new(alloc));
        match save(alloc, &*store, &mut sink) {
            Ok(()) => Answer::new(sink.into_inner().as_slice() == self.image),
            Err(SaveFault::OutOfMemory | SaveFault::Device) => Answer::OutOfMemory,
        }
    }
}

/// Returns the image of the store of a trial.
fn image_of(trial: &Trial<'_>) -> Option<Vec<u8>> {
    let store = trial.store()?;
    saved(trial.heap, trial.json, &store)
}

/// Returns the flaw of loading an image, or else of saving it, if any.
fn flaw_of(trial: &Trial<'_>, image: &[u8]) -> Option<Flaw> {
    match trial.flaw_of(&Load { image }, &UNCHANGED, 0) {
        Some(flaw) => Some(flaw),
        None => trial.flaw_of(&Save { image }, &UNCHANGED, 0),
    }
}

/// Returns the same of the image of the store of a trial.
fn first_flaw(trial: &Trial<'_>) -> Option<Flaw> {
    match image_of(trial) {
        Some(image) => flaw_of(trial, &image),
        None => Some(Flaw::Nothing),
    }
}

#[test]
fn images_need_their_memory(rt: HostRuntime) {
    let heap = Refusing::new(rt.alloc());
    for is_open in [false, true] {
        let trial = Trial {
            heap: &heap,
            json: rt.alloc(),
            is_open,
        };
        assert_eq!(rt; first_flaw(&trial), None);
    }
}
