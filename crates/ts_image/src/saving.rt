//! Writes the image of a store.
ghost use Rattle.std.specs.Prelude.{◌≡◌, [], ◌∷◌, ◌++◌, OnOk};
ghost use Rattle.ts_core.specs.io.Devices.{IsPut};
ghost use Rattle.ts_core.specs.io.OutputBuffering.{IsBuffered};
ghost use Rattle.ts_image.specs.declared.version.Version.TheVariants.{V2};
ghost use Rattle.ts_image.specs.Images.{image, image_mark, version_byte, image_text};
ghost use Rattle.ts_image.specs.FieldWriting.{PutsField};
ghost use Rattle.ts_image.specs.Saving.{store_image, cell_counts, IsOrder, IsSaved};

use crate::save_fault::SaveFault;
use crate::version::MARK;
use crate::write::fields::{put_u8, put_u64};
use crate::write::settings::{put_marks, put_settings};
use crate::write::store_cells::{count_all_cells, put_all_cells};
use crate::write::store_series::put_counted_series;
use std::alloc::Allocator;
use std::io::Write;
use ts_core::{OutputBuffer, Refused, Sink};
use ts_store::{SavedSeries, Store, View};

/// Size of the write buffer, in bytes.
const BUFFER_SIZE: usize = 65_536;

/// Writes the first bytes of an image of version 2.
fn put_head<W: Write, A: Allocator>(
    out: &mut OutputBuffer<A>,
    sink: &mut Sink<W>,
) -> Result<(), Refused>
    ensures { IsBuffered sink.old out.old result (image_mark ++ version_byte V2 ∷ []) sink.new out.new }
{
    out.write_all(MARK, sink)?;
    put_u8(2, out, sink)
}

/// Writes all data of a store. `counts` has the number of saved cells of each rule.
fn put_data<W: Write, A: Allocator + Copy>(
    store: &Store<A>,
    all: &[SavedSeries<'_, A>],
    counts: &[u64],
    out: &mut OutputBuffer<A>,
    sink: &mut Sink<W>,
) -> Result<(), Refused>
    requires order { IsOrder store.now all.now }
    requires counts { counts.now ≡ cell_counts store.now }
    ensures { PutsField (image V2) (store_image store.now all.now) sink.old out.old result sink.new out.new }
{
    // for the proof: the contract states that the data fits the form of images
    store.laws();
    put_settings(store.settings(), out, sink)?;
    put_marks(store.marks(), out, sink)?;
    put_u8(u8::from(store.run_in_progress()), out, sink)?;
    put_u64(store.accepted(), out, sink)?;
    put_counted_series(store, all, out, sink)?;
    put_all_cells(store, counts, out, sink)
}

/// Writes the image of a store. Nothing stays in the buffer.
fn put_image<W: Write, A: Allocator + Copy>(
    store: &Store<A>,
    all: &[SavedSeries<'_, A>],
    counts: &[u64],
    out: &mut OutputBuffer<A>,
    sink: &mut Sink<W>,
) -> Result<(), Refused>
    requires empty { out.old ≡ [] }
    requires order { IsOrder store.now all.now }
    requires counts { counts.now ≡ cell_counts store.now }
    ensures sent { IsPut sink.old result (image_text V2 (store_image store.now all.now)) sink.new }
    ensures fits { OnOk result ((image V2).fits (store_image store.now all.now)) }
{
    put_head(out, sink)?;
    put_data(store, all, counts, out, sink)?;
    out.flush(sink)
}

/// Writes the image of a store in version 2. After a device error, a prefix of it was written. When out of memory,
/// nothing was written. Fails as out of memory too if a rule's number of cells doesn't fit in 64 bits.
pub fn save<W: Write, A: Allocator + Copy>(
    alloc: A,
    store: &Store<A>,
    sink: &mut Sink<W>,
) -> Result<(), SaveFault>
    ensures { IsSaved store.now sink.old result sink.new }
{
    let all = store.saved_series(alloc)?;
    let counts = count_all_cells(alloc, store)?;
    let mut out = OutputBuffer::new(alloc, BUFFER_SIZE)?;
    put_image(store, all.as_slice(), counts.as_slice(), &mut out, sink)?;
    Ok(())
}
