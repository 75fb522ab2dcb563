//! Saves a store to memory and loads it back.
ghost use Rattle.std.specs.Prelude.{◌≡◌, IfOk, IfErr};
ghost use Rattle.ts_core.specs.store.StoreData.{OfEachHistory};
ghost use Rattle.ts_script.specs.ReloadResults.{IsImageIn, IsReloadOf, save_failed, load_failed};

use std::alloc::Global;
use std::hash::RandomState;
use ts_core::{Sink, Source};
use ts_image::{LoadFault, SaveFault, load, save};
use ts_store::Store;

/// Error of saving a store to memory and loading it back.
#[derive(Clone, Copy, Debug, PartialEq, Eq)]
pub enum ReloadFault {
    /// Out of memory.
    OutOfMemory,
    /// The image was not accepted. The image of a store with a history is always accepted.
    NotAccepted,
}

impl ReloadFault {
    /// Returns the error for a save to a vector, which fails a write only when out of memory.
    fn of_save(fault: SaveFault) -> ReloadFault
        ensures { result ≡ save_failed fault }
    {
        match fault {
            SaveFault::Device | SaveFault::OutOfMemory => ReloadFault::OutOfMemory,
        }
    }

    /// Returns the error for a load from a slice, which fails no read, and ends long before the limit of reads.
    fn of_load(fault: LoadFault) -> ReloadFault
        ensures { result ≡ load_failed fault }
    {
        match fault {
            LoadFault::Device | LoadFault::TooManyReads | LoadFault::OutOfMemory => {
                ReloadFault::OutOfMemory
            }
            LoadFault::NotAnImage
            | LoadFault::OtherVersion
            | LoadFault::Misshapen(_)
            | LoadFault::Contradiction => ReloadFault::NotAccepted,
        }
    }
}

/// Returns the image of a store.
fn saved(alloc: Global, store: &Store<Global>) -> Result<Vec<u8>, SaveFault>
    ensures { IfOk result (λ bytes. IsImageIn store.now bytes.items) }
{
    let mut sink = Sink::new(Vec::new(alloc));
    match save(alloc, store, &mut sink) {
        Ok(()) => Ok(sink.into_inner()),
        Err(fault) => Err(fault),
    }
}

/// Returns a store that is loaded from the image of this one. For a store with a history, fails only when out of
/// memory. `seed`: of the hashes of names; no answer depends on it.
pub fn reloaded(
    alloc: Global,
    seed: RandomState,
    store: &Store<Global>,
) -> Result<Store<Global>, ReloadFault>
    ensures reloaded { IfOk result (IsReloadOf store.now) }
    ensures memory { OfEachHistory store.now (λ opening h. IfErr result (λ e. e ≡ ReloadFault.OutOfMemory)) }
{
    // for the proof: the contract states that the store is well formed
    store.laws();
    let bytes = match saved(alloc, store) {
        Ok(bytes) => bytes,
        Err(fault) => return Err(ReloadFault::of_save(fault)),
    };
    let mut source = Source::new(bytes.as_slice());
    match load(alloc, seed, &mut source) {
        Ok(store) => Ok(store),
        Err(fault) => Err(ReloadFault::of_load(fault)),
    }
}
