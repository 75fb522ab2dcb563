//! Images over devices that transfer bytes in pieces, or fail.

use crate::images::{IMAGE_LEN, load_seeded, saved, worked_image, worked_store};
use std::alloc::Global;
use std::test::Fail;
use ts_core::{Sink, Source};
use ts_image::{LoadFault, SaveFault, load_within, save};
use ts_store::Store;
use ts_testkit::{Failure, NEVER, PieceReader, PieceWriter, fixed_seed};

/// Lengths of pieces, and the number of them in which the image is read or written.
const PIECES: [(usize, usize); 4] = [(1, IMAGE_LEN), (2, 269), (100, 6), (1_000, 1)];

/// Loads an image from a reader; returns the number of its calls, too.
fn load_from(alloc: Global, reader: PieceReader<'_>) -> (Result<Store<Global>, LoadFault>, usize) {
    let mut source = Source::new(reader);
    let result = load_seeded(alloc, &mut source);
    (result, source.into_inner().calls)
}

/// Returns true if loading in pieces fails at a call that fails, and stops there.
fn fails_at_read(alloc: Global, image: &[u8], piece: usize, call: usize) -> bool {
    let (result, calls) = load_from(alloc, PieceReader::new(image, piece, call));
    matches!(result, Err(LoadFault::Device)) && calls == call.saturating_add(1)
}

/// Returns true if loading in pieces does so at each call.
fn fails_at_each_read(alloc: Global, image: &[u8], piece: usize, pieces: usize) -> bool {
    // the call after the last piece sees the end
    for call in 0..=pieces {
        if !fails_at_read(alloc, image, piece, call) {
            return false;
        }
    }
    true
}

/// Returns true if a store has this image.
fn is_image_of(alloc: Global, store: &Store<Global>, image: &[u8]) -> bool {
    match saved(alloc, alloc, store) {
        Some(found) => found.as_slice() == image,
        None => false,
    }
}

/// Returns true if an image in pieces is loaded as it was saved.
fn loads_in_pieces(alloc: Global, image: &[u8], piece: usize, pieces: usize) -> bool {
    let (result, calls) = load_from(alloc, PieceReader::new(image, piece, NEVER));
    match result {
        Ok(store) => calls == pieces.saturating_add(1) && is_image_of(alloc, &store, image),
        Err(_) => false,
    }
}

/// Returns the first length of pieces in which an image isn't loaded, or for which a failed read doesn't stop a load.
fn first_wrong_load(alloc: Global, image: &[u8]) -> Option<usize> {
    for (piece, pieces) in &PIECES {
        if !fails_at_each_read(alloc, image, *piece, *pieces)
            || !loads_in_pieces(alloc, image, *piece, *pieces)
        {
            return Some(*piece);
        }
    }
    None
}

#[test]
fn a_failed_read_stops_a_load(rt: HostRuntime) -> Result<(), Fail> {
    let image = worked_image(rt.alloc()).ok_or("no image")?;
    assert_eq!(rt; first_wrong_load(rt.alloc(), &image), None);
    Ok(())
}

/// Returns the fault of loading bytes one by one with at most `reads` reads, if there is one.
fn fault_within(alloc: Global, bytes: &[u8], reads: u32) -> Option<LoadFault> {
    let seed = fixed_seed()?;
    let mut source = Source::new(PieceReader::new(bytes, 1, NEVER));
    load_within(alloc, seed, &mut source, u64::from(reads)).err()
}

/// Returns true if bytes need more reads than these.
fn lacks_reads(alloc: Global, bytes: &[u8], reads: u32) -> bool {
    matches!(
        fault_within(alloc, bytes, reads),
        Some(LoadFault::TooManyReads)
    )
}

/// Returns the least number of reads that bytes need, if 1,000 are enough.
fn least_reads(alloc: Global, bytes: &[u8]) -> Option<u32> {
    for reads in 0..=1_000 {
        if !lacks_reads(alloc, bytes, reads) {
            return Some(reads);
        }
    }
    None
}

#[test]
fn a_load_ends_within_its_reads(rt: HostRuntime) -> Result<(), Fail> {
    let image = worked_image(rt.alloc()).ok_or("no image")?;
    assert_eq!(rt; least_reads(rt.alloc(), &image), Some(538));
    assert!(rt; fault_within(rt.alloc(), &image, 538).is_none());
    assert_eq!(rt; least_reads(rt.alloc(), b"TSIN"), Some(4));
    let none = fault_within(rt.alloc(), b"TSIN", 4);
    assert!(rt; matches!(none, Some(LoadFault::NotAnImage)));
    Ok(())
}

/// Saves a store to a writer; returns the writer, too.
fn save_to(
    alloc: Global,
    store: &Store<Global>,
    writer: PieceWriter,
) -> (Result<(), SaveFault>, PieceWriter) {
    let mut sink = Sink::new(writer);
    let result = save(alloc, store, &mut sink);
    (result, sink.into_inner())
}

/// Returns true if saving fails at a call that fails, and these bytes are written.
fn fails_at_write(
    alloc: Global,
    store: &Store<Global>,
    bytes: Option<&[u8]>,
    piece: usize,
    call: usize,
    failure: Failure,
) -> bool {
    let writer = PieceWriter::new(Vec::new(alloc), piece, call, failure);
    let (result, writer) = save_to(alloc, store, writer);
    matches!(result, Err(SaveFault::Device))
        && writer.calls == call.saturating_add(1)
        && Some(writer.written.as_slice()) == bytes
}

/// Returns true if saving fails at each call that fails, when exactly the pieces before it are written.
fn fails_at_each_write(
    alloc: Global,
    store: &Store<Global>,
    image: &[u8],
    piece: usize,
    failure: Failure,
) -> bool {
    for (call, sent) in (0..image.len()).step_by(piece.max(1)).enumerate() {
        if !fails_at_write(alloc, store, image.get(..sent), piece, call, failure) {
            return false;
        }
    }
    true
}

/// Returns true if an image is written in pieces.
fn saves_in_pieces(
    alloc: Global,
    store: &Store<Global>,
    image: &[u8],
    piece: usize,
    pieces: usize,
) -> bool {
    let writer = PieceWriter::new(Vec::new(alloc), piece, NEVER, Failure::Error);
    let (result, writer) = save_to(alloc, store, writer);
    result.is_ok() && writer.calls == pieces && writer.written.as_slice() == image
}

/// Returns the first length of pieces in which an image isn't saved, or for which a failed write doesn't stop a save.
fn first_wrong_save(alloc: Global, store: &Store<Global>, image: &[u8]) -> Option<usize> {
    for (piece, pieces) in &PIECES {
        if !fails_at_each_write(alloc, store, image, *piece, Failure::Error)
            || !fails_at_each_write(alloc, store, image, *piece, Failure::Nothing)
            || !saves_in_pieces(alloc, store, image, *piece, *pieces)
        {
            return Some(*piece);
        }
    }
    None
}

/// Returns the same of the worked store; the length 0 if it has no image.
fn first_wrong_of(alloc: Global, store: &Store<Global>) -> Option<usize> {
    match saved(alloc, alloc, store) {
        Some(image) => first_wrong_save(alloc, store, &image),
        None => Some(0),
    }
}

#[test]
fn a_failed_write_stops_a_save(rt: HostRuntime) -> Result<(), Fail> {
    let store = worked_store(rt.alloc()).ok_or("no store")?;
    assert_eq!(rt; first_wrong_of(rt.alloc(), &store), None);
    Ok(())
}
