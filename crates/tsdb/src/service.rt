//! `tsdb serve`: a store that is loaded from its image or has the settings of a file, and the requests of a port.
ghost use Rattle.std.specs.Prelude.{◌⊎◌, IfOk, IfSome};
ghost use Rattle.std.specs.Process.{exit_status};
ghost use Rattle.ts_core.specs.facts.Facts.{Text};
ghost use Rattle.ts_script.specs.Opening.{IsNew};
ghost use Rattle.tsdb.specs.Services.{IsFromImage, IsServiceStatus};

use crate::command_line::Service;
use crate::image_file::ImageFile;
use crate::opening::{listening_text, unlocked_text};
use crate::reports::{Reports, open_standard_streams};
use crate::requests::serve_on;
use crate::service_fault::ServiceFault;
use crate::settings_cause::cause_of;
use std::alloc::{AllocError, Global};
use std::fs::File;
use std::hash::RandomState;
use std::net::{Net, TcpListener, TcpStream};
use std::process::ExitCode;
use std::rt::{Clock, Files};
use std::{fs, io};
use ts_core::{SettingsError, SettingsFault, push_all};
use ts_script::store_with;
use ts_store::Store;

/// Error of a service with its cause, which is empty if none is known.
#[derive(Drop)]
struct Failure {
    fault: ServiceFault,
    cause: String,
}

impl Failure {
    /// Creates one without a cause.
    fn new(alloc: Global, fault: ServiceFault) -> Failure {
        Failure {
            fault,
            cause: String::new(alloc),
        }
    }

    /// Creates one whose cause is an error of the system.
    fn of_system(alloc: Global, fault: ServiceFault, error: &io::Error) -> Failure {
        Failure {
            fault,
            cause: format!(in alloc; "{error}").unwrap_or(String::new(alloc)),
        }
    }

    /// Creates one whose cause is that of a load or a save, if there is any.
    fn of_image(alloc: Global, fault: ServiceFault, cause: Option<io::Error>) -> Failure {
        match cause {
            Some(error) => Failure::of_system(alloc, fault, &error),
            None => Failure::new(alloc, fault),
        }
    }

    /// Creates one of the text of settings.
    fn of_settings(alloc: Global, error: &SettingsError, text: &str) -> Failure {
        let mut failure = Failure::new(alloc, ServiceFault::of_settings(error));
        if matches!(error, SettingsError::Fault(SettingsFault::Form)) {
            failure.cause = cause_of(alloc, text).unwrap_or(String::new(alloc));
        }
        failure
    }
}

/// Loads the store of the image, or returns `None` if there is no image.
fn load_image<R: Files + AllocGlobal>(
    rt: &R,
    seed: RandomState,
    image: &ImageFile<'_>,
) -> Result<Option<Store<Global>>, Failure>
    ensures { IfOk result (λ found. IfSome found IsFromImage) }
{
    match image.load(rt, seed) {
        Ok(found) => Ok(found),
        Err(failed) => {
            let fault = ServiceFault::of_load(failed.fault);
            Err(Failure::of_image(rt.alloc(), fault, failed.cause))
        }
    }
}

/// Returns the store of the image, or, if there is no image, an empty one with the settings of the file.
fn open_store<R: Files + AllocGlobal>(
    rt: &R,
    seed: RandomState,
    service: &Service<'_>,
    loaded: Option<Store<Global>>,
) -> Result<Store<Global>, Failure>
    requires { IfSome loaded IsFromImage }
    ensures { IfOk result (λ store. IsFromImage store ⊎ ((text : Text) × IsNew text store)) }
{
    if let Some(store) = loaded {
        return Ok(store);
    }
    let text = match fs::read_to_string(rt, service.settings) {
        Ok(text) => text,
        Err(error) => {
            return Err(Failure::of_system(rt.alloc(), ServiceFault::of_file(&error), &error));
        }
    };
    match store_with(rt.alloc(), seed, text.as_str()) {
        Ok(store) => Ok(store),
        Err(error) => Err(Failure::of_settings(rt.alloc(), &error, text.as_str())),
    }
}

/// Finds and locks the image. A lock that the system can't give is reported.
fn locked_image<'a, R>(
    rt: &R,
    service: &Service<'a>,
    reports: &mut Reports,
) -> Result<ImageFile<'a>, Failure>
where
    R: Files<File = File> + AllocGlobal + Eprint,
{
    let mut image = match ImageFile::find(rt, service.image) {
        Ok(image) => image,
        Err(_) => return Err(Failure::new(rt.alloc(), ServiceFault::OutOfMemory)),
    };
    match image.lock(rt) {
        Ok(()) => {}
        Err(error) if error.kind() == io::ErrorKind::WouldBlock => {
            return Err(Failure::new(rt.alloc(), ServiceFault::InUse));
        }
        Err(error) => {
            if let Ok(text) = unlocked_text(rt.alloc(), service, &error) {
                reports.line(rt, text);
            }
        }
    }
    Ok(image)
}

/// Serves the requested number of connections, and saves the image.
fn serve_store<R>(
    rt: &R,
    service: &Service<'_>,
    store: &mut Store<Global>,
    is_loaded: bool,
    image: &mut ImageFile<'_>,
    reports: &mut Reports,
) -> Result<(), Failure>
where
    R: Files<File = File>
        + Clock
        + AllocGlobal
        + Eprint
        + Net<Listener = TcpListener, Stream = TcpStream>,
{
    let listener = match TcpListener::bind(rt, ("127.0.0.1", service.port)) {
        Ok(listener) => listener,
        Err(error) => {
            return Err(Failure::of_system(rt.alloc(), ServiceFault::NoPort, &error));
        }
    };
    if let Ok(text) = listening_text(rt.alloc(), service, image.path(), store, is_loaded) {
        reports.line(rt, text);
    }
    let count = if service.requests == 0 {
        u64::MAX
    } else {
        service.requests
    };
    match serve_on(rt, store, &listener, image, reports, count) {
        Ok(()) => Ok(()),
        Err(failed) => {
            let fault = ServiceFault::of_save(failed.fault);
            Err(Failure::of_image(rt.alloc(), fault, failed.cause))
        }
    }
}

/// Locks the image, opens its store, and serves it.
fn run_service<R>(
    rt: &R,
    seed: RandomState,
    service: &Service<'_>,
    reports: &mut Reports,
) -> Result<(), Failure>
where
    R: Files<File = File>
        + Clock
        + AllocGlobal
        + Eprint
        + Net<Listener = TcpListener, Stream = TcpStream>,
{
    let mut image = locked_image(rt, service, reports)?;
    let loaded = load_image(rt, seed, &image)?;
    let is_loaded = loaded.is_some();
    let mut store = open_store(rt, seed, service, loaded)?;
    serve_store(rt, service, &mut store, is_loaded, &mut image, reports)
}

/// Returns the line of a fault and its cause.
fn line_of(alloc: Global, service: &Service<'_>, failure: &Failure) -> Result<String, AllocError> {
    let mut line = String::new(alloc);
    failure.fault.text_to(service, &mut line)?;
    if !failure.cause.is_empty() {
        push_all(&mut line, &[": ", failure.cause.as_str()])?;
    }
    Ok(line)
}

/// Returns the exit status of a fault.
fn exit_code(fault: ServiceFault) -> ExitCode
    ensures { IsServiceStatus (exit_status result) }
{
    ExitCode::from(fault.status())
}

/// Serves the requests, and returns the exit status: 0 once the image is saved at the end, otherwise that of the fault.
/// A fault is printed on standard error. `seed`: of the hashes of names; no answer depends on it.
pub fn serve<R>(rt: &R, seed: RandomState, service: &Service<'_>) -> ExitCode
where
    R: Files<File = File>
        + Clock
        + AllocGlobal
        + Eprint
        + Net<Listener = TcpListener, Stream = TcpStream>,
    ensures { IsServiceStatus (exit_status result) }
{
    let _streams = open_standard_streams(rt);
    let Ok(mut reports) = Reports::new(rt) else {
        let _ = eprintln!(rt; "tsdb: out of memory");
        return exit_code(ServiceFault::OutOfMemory);
    };
    match run_service(rt, seed, service, &mut reports) {
        Ok(()) => ExitCode::from(0),
        Err(failure) => {
            if let Ok(line) = line_of(rt.alloc(), service, &failure) {
                reports.line(rt, line);
            }
            exit_code(failure.fault)
        }
    }
}
