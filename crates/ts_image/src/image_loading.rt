//! Images loaded from a source: read up to their form, then tested for contradictions.
ghost use Rattle.std.specs.Prelude.{◌≤◌, ◌^◌, min, IfOk};
ghost use Rattle.ts_image.specs.ImageTests.{IsPossible, settings_of_image};
ghost use Rattle.ts_image.specs.RuleParts.{settings_of_parts};
ghost use Rattle.ts_image.specs.ImageReading.{image_of};
ghost use Rattle.ts_image.specs.ImageLoading.{LoadsImage, LoadsStore, StandsAsSaved};
ghost use Rattle.ts_image.specs.SettingsMade.{IsMadeIf};

use crate::build::settings::make_settings;
use crate::build::store::make_store;
use crate::check::image::is_rest_possible;
use crate::load_fault::LoadFault;
use crate::read::image::{ImageParts, read_parts};
use crate::version::Version;
use std::alloc::{AllocError, Allocator};
use std::hash::RandomState;
use std::io::Read;
use ts_core::{Settings, Source};
use ts_store::Store;

/// Limit of the reads of an image: 2^32, so that each offset in it fits in 64 bits.
const MOST_READS: u64 = 4_294_967_296;

/// An image without contradictions, and its settings.
#[derive(Drop)]
pub(crate) struct LoadedImage<A: Allocator> {
    pub version: Version,
    pub settings: Settings<A>,
    pub parts: ImageParts<A>,
}

/// Returns the settings of an image, or `None` if the image contradicts itself.
fn possible_settings<A: Allocator + Copy>(
    alloc: A,
    version: Version,
    parts: &ImageParts<A>,
) -> Result<Option<Settings<A>>, AllocError>
    ensures { IfOk result (IsMadeIf
        (IsPossible version (image_of parts.now)) (settings_of_image (settings_of_parts parts.now.settings))) }
{
    match make_settings(alloc, &parts.settings)? {
        Some(settings) => {
            if is_rest_possible(version, parts) {
                Ok(Some(settings))
            } else {
                Ok(None)
            }
        }
        None => Ok(None),
    }
}

/// Reads an image to the end of the input, with at most `reads` reads, and tests it for contradictions.
fn load_parts<R: Read, A: Allocator + Copy>(
    alloc: A,
    source: &mut Source<R>,
    reads: u64,
) -> Result<LoadedImage<A>, LoadFault>
    requires { reads ≤ 2 ^ 32 }
    ensures { LoadsImage source.old reads result source.new }
{
    let read = read_parts(alloc, source, reads)?;
    match possible_settings(alloc, read.0, &read.1)? {
        Some(settings) => Ok(LoadedImage {
            version: read.0,
            settings,
            parts: read.1,
        }),
        None => Err(LoadFault::Contradiction),
    }
}

/// Loads a store from an image to the end of the input, with at most `reads` reads.
fn load_at_most<R: Read, A: Allocator + Copy>(
    alloc: A,
    seed: RandomState,
    source: &mut Source<R>,
    reads: u64,
) -> Result<Store<A>, LoadFault>
    requires { reads ≤ 2 ^ 32 }
    ensures loads { LoadsStore source.old reads result source.new }
    ensures stands { IfOk result (StandsAsSaved source.old) }
{
    let image = load_parts(alloc, source, reads)?;
    let store = make_store(alloc, seed, image)?;
    Ok(store)
}

/// Loads a store from an image to the end of the input, with at most `reads` reads, and at most 2^32. `seed`: of the
/// hashes of names; no answer depends on it.
pub fn load_within<R: Read, A: Allocator + Copy>(
    alloc: A,
    seed: RandomState,
    source: &mut Source<R>,
    reads: u64,
) -> Result<Store<A>, LoadFault>
    ensures loads { LoadsStore source.old (min reads (2 ^ 32)) result source.new }
    ensures stands { IfOk result (StandsAsSaved source.old) }
{
    load_at_most(alloc, seed, source, reads.min(MOST_READS))
}

/// Loads a store like `load_within`, with at most 2^32 reads.
pub fn load<R: Read, A: Allocator + Copy>(
    alloc: A,
    seed: RandomState,
    source: &mut Source<R>,
) -> Result<Store<A>, LoadFault>
    ensures loads { LoadsStore source.old (2 ^ 32) result source.new }
    ensures stands { IfOk result (StandsAsSaved source.old) }
{
    load_at_most(alloc, seed, source, MOST_READS)
}
