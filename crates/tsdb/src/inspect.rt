//! `tsdb inspect`: what an image holds, as a summary or as lines.
ghost use Rattle.std.specs.Process.{exit_status};
ghost use Rattle.std.specs.Prelude.{IfOk};
ghost use Rattle.tsdb.specs.Inspections.{IsInspectStatus};
ghost use Rattle.tsdb.specs.Services.{IsFromImage};

use crate::command_line::Inspection;
use crate::export::export;
use crate::image_file::{Failed, not_loaded, open_image};
use crate::inspect_fault::InspectFault;
use crate::measured::Measured;
use crate::summary::Summary;
use std::alloc::{AllocError, Global};
use std::hash::RandomState;
use std::io;
use std::io::Write;
use std::process::ExitCode;
use std::rt::Files;
use ts_core::{Sink, Source};
use ts_image::{LoadFault, load};
use ts_store::Store;

/// A store that was loaded from an image, with the version of the image's form and its size in bytes.
#[derive(Drop)]
struct Loaded {
    store: Store<Global>,
    version: u8,
    bytes: u64,
}

/// Loads the store of an image.
fn load_image<R: Files + AllocGlobal>(
    rt: &R,
    seed: RandomState,
    image: &str,
) -> Result<Loaded, Failed<LoadFault>>
    ensures { IfOk result (λ loaded. IsFromImage loaded.store) }
{
    let mut source = match open_image(rt, image) {
        Ok(file) => Source::new(Measured::new(file)),
        Err(error) => return Err(not_loaded(error)),
    };
    match load(rt.alloc(), seed, &mut source) {
        Ok(store) => {
            let measured = source.into_inner();
            Ok(Loaded {
                store,
                version: measured.version(),
                bytes: measured.bytes(),
            })
        }
        Err(fault) => Err(Failed { fault, cause: None }),
    }
}

/// Writes the summary of an image as a JSON object.
fn print_summary<W: Write>(
    alloc: Global,
    loaded: &Loaded,
    sink: &mut Sink<W>,
) -> Result<(), InspectFault> {
    let summary = Summary::of_store(alloc, &loaded.store, loaded.version, loaded.bytes)?;
    let Ok(mut text) = serde_json::to_string_pretty(alloc, &summary) else {
        return Err(InspectFault::OutOfMemory);
    };
    text.push_str("\n")?;
    match sink.write_all(text.as_bytes()) {
        Ok(()) => Ok(()),
        Err(_) => Err(InspectFault::Device),
    }
}

/// Writes what was requested of a store.
fn print<W: Write>(
    alloc: Global,
    loaded: &Loaded,
    lines: bool,
    sink: &mut Sink<W>,
) -> Result<(), InspectFault> {
    if lines {
        export(alloc, &loaded.store, sink)?;
        return Ok(());
    }
    print_summary(alloc, loaded, sink)
}

/// Returns the line of a fault with its cause.
fn line_of(
    alloc: Global,
    image: &str,
    fault: InspectFault,
    cause: Option<io::Error>,
) -> Result<String, AllocError> {
    let mut line = String::new(alloc);
    fault.text_to(image, &mut line)?;
    match cause {
        Some(error) => format!(in alloc; "{line}: {error}"),
        None => Ok(line),
    }
}

/// Prints a fault on standard error, and returns its exit status.
fn report(
    rt: &(impl AllocGlobal + Eprint),
    image: &str,
    fault: InspectFault,
    cause: Option<io::Error>,
) -> ExitCode
    ensures { IsInspectStatus (exit_status result) }
{
    if let Ok(line) = line_of(rt.alloc(), image, fault, cause) {
        let _ = eprintln!(rt; "{line}");
    }
    ExitCode::from(fault.status())
}

/// Prints what was requested of a store, and returns the exit status.
fn inspect_loaded<R, W>(
    rt: &R,
    loaded: &Loaded,
    inspection: &Inspection<'_>,
    sink: &mut Sink<W>,
) -> ExitCode
where
    R: AllocGlobal + Eprint,
    W: Write,
    ensures { IsInspectStatus (exit_status result) }
{
    match print(rt.alloc(), loaded, inspection.lines, sink) {
        Ok(()) => ExitCode::from(0),
        Err(fault) => report(rt, inspection.image, fault, None),
    }
}

/// Prints what an image holds, and returns the exit status: 0, or that of a fault, which is printed on standard error.
/// `seed`: of the hashes of names.
pub fn inspect<R, W>(
    rt: &R,
    seed: RandomState,
    inspection: &Inspection<'_>,
    sink: &mut Sink<W>,
) -> ExitCode
where
    R: Files + AllocGlobal + Eprint,
    W: Write,
    ensures { IsInspectStatus (exit_status result) }
{
    match load_image(rt, seed, inspection.image) {
        Ok(loaded) => inspect_loaded(rt, &loaded, inspection, sink),
        Err(failed) => {
            let fault = InspectFault::of_load(failed.fault);
            report(rt, inspection.image, fault, failed.cause)
        }
    }
}
