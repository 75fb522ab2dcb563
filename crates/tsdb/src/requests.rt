//! The loop of `tsdb serve`: serves the connections of a listener one after another, and saves the store's image.
ghost use Rattle.std.specs.Prelude.{◌≡◌, ◌≤◌};
ghost use Rattle.tsdb.specs.ServedRequests.{WentBy, WentByOne, is_saved_after};

use crate::image_file::{Failed, ImageFile};
use crate::refusals::{is_refused_body, refused_text};
use crate::reports::Reports;
use crate::service_fault::save_line_to;
use crate::timed::Timed;
use crate::unread::may_be_unread;
use std::alloc::Global;
use std::fs::File;
use std::io::Read;
use std::net::{Shutdown, TcpListener, TcpStream};
use std::rt::{Clock, Files};
use std::time::{Duration, SystemTime, UNIX_EPOCH};
use std::{io, thread};
use ts_core::{Sink, Source, Time};
use ts_http::{Route, Served, Status, serve_one};
use ts_image::SaveFault;
use ts_store::Store;

/// Seconds that a client has to send its request, and as many to receive the reply.
const PATIENCE: u64 = 10;

/// Most seconds for reading and dropping the rest of a request.
const DRAIN_PATIENCE: u64 = 2;

/// Most reads of that rest, of 4 KiB each.
const DRAINS: u32 = 512;

/// Milliseconds to wait after a connection that could not be accepted.
const PAUSE: u64 = 10;

/// Nanoseconds of a minute.
const MINUTE: i64 = 60_000_000_000;

/// Returns the moment by the machine's clock, or the least one if the clock fails or is beyond all moments.
fn moment(clock: &impl Clock) -> Time {
    let Ok(now) = SystemTime::now(clock) else {
        return Time::least();
    };
    let Ok(since) = now.duration_since(UNIX_EPOCH) else {
        return Time::least();
    };
    match i64::try_from(since.as_nanos()) {
        Ok(nanos) => Time::new(nanos).unwrap_or(Time::least()),
        Err(_) => Time::least(),
    }
}

/// What a server has reported.
#[derive(Drop)]
struct Reported {
    /// Minute of the latest refused body that was reported.
    minute: Option<i64>,
    /// True if the latest connection could not be accepted.
    is_deaf: bool,
}

/// Closes a connection after its reply so that its client receives it: reads and drops the rest of its bytes, at most
/// 2 MiB. A connection that is closed with unread bytes is reset.
fn drain(stream: &TcpStream, clock: &impl Clock) {
    if stream.shutdown(Shutdown::Write).is_err() {
        return;
    }
    let mut timed = Timed::new(stream, clock, DRAIN_PATIENCE);
    let mut buffer = [0; 4096];
    for _ in 0..DRAINS {
        match timed.read(&mut buffer) {
            Ok(n) if n > 0 => {}
            _ => return,
        }
    }
}

/// Returns true if the image is to be saved after a request that was served this way. It is if steps of a retention run
/// were taken, or if a rule was added or dropped.
fn is_saved_after(served: Served) -> bool
    ensures { result ≡ is_saved_after served }
{
    match served {
        Served::Reply { status, route } => {
            matches!(status, Status::Success) && matches!(route, Route::Maintain | Route::Rules)
        }
        Served::Nothing => false,
    }
}

impl Reported {
    /// Reports a refused body, unless one was reported in the same minute. `reply` is the beginning of the reply.
    fn refused_body<R>(&mut self, rt: &R, reports: &mut Reports, now: Time, reply: &[u8])
    where
        R: AllocGlobal + Eprint,
    {
        let minute = now.nanos().div_euclid(MINUTE);
        if self.minute == Some(minute) {
            return;
        }
        self.minute = Some(minute);
        if let Ok(text) = refused_text(rt.alloc(), reply) {
            reports.line(rt, text);
        }
    }

    /// Waits after a connection that could not be accepted, and reports the first of several.
    fn not_accepted<R>(&mut self, rt: &R, reports: &mut Reports, error: &io::Error)
    where
        R: Clock + AllocGlobal + Eprint,
    {
        if !self.is_deaf {
            self.is_deaf = true;
            if let Ok(text) = format!(in rt.alloc();
                "tsdb: no connection can be accepted: {error}"
            ) {
                reports.line(rt, text);
            }
        }
        thread::sleep(rt, Duration::from_millis(PAUSE));
    }
}

/// Serves the request of a connection at a moment, and closes the connection. Returns true if the image is to be saved
/// after it.
fn serve_stream<R>(
    rt: &R,
    store: &mut Store<Global>,
    now: Time,
    stream: &TcpStream,
    reports: &mut Reports,
    reported: &mut Reported,
) -> bool
where
    R: Clock + AllocGlobal + Eprint,
    ensures { WentByOne now store.old store.new }
{
    let _ = stream.set_nodelay(true);
    let mut source = Source::new(Timed::new(stream, rt, PATIENCE));
    let mut sink = Sink::new(Timed::new(stream, rt, PATIENCE));
    match serve_one(rt.alloc(), rt.alloc(), store, now, &mut source, &mut sink) {
        Ok(served) => {
            if is_refused_body(served) {
                reported.refused_body(rt, reports, now, sink.into_inner().start());
            }
            if may_be_unread(stream, served, source.into_inner().start()) {
                drain(stream, rt);
            }
            is_saved_after(served)
        }
        Err(_) => false,
    }
}

/// Saves a store, and reports it if that fails.
fn save_or_report<R>(
    rt: &R,
    store: &Store<Global>,
    image: &mut ImageFile<'_>,
    reports: &mut Reports,
)
where
    R: Files<File = File> + AllocGlobal + Eprint,
{
    let Err(failed) = image.save(rt, store) else {
        return;
    };
    let mut text = String::new(rt.alloc());
    if save_line_to(failed.fault, image.name(), &mut text).is_err() {
        return;
    }
    if let Some(cause) = failed.cause {
        let Ok(whole) = format!(in rt.alloc(); "{text}: {cause}") else {
            return;
        };
        text = whole;
    }
    reports.line(rt, text);
}

/// Serves `count` connections of a listener, one request each, at the moments of a clock. A connection that fails is
/// closed, and the next one is served. Saves the image after each `/maintain` and each `/rules` with status 200. A
/// failed save is reported on standard error, and the next connection is served.
#[tactic(auto, using(crate::proofs::RequestLemmas::stayed))]
fn serve_all<R>(
    rt: &R,
    store: &mut Store<Global>,
    listener: &TcpListener,
    image: &mut ImageFile<'_>,
    reports: &mut Reports,
    count: u64,
)
where
    R: Clock + Files<File = File> + AllocGlobal + Eprint,
    requires { 1 ≤ count }
    ensures { WentBy store.old store.new }
{
    let mut left = count;
    let mut reported = Reported {
        minute: None,
        is_deaf: false,
    };
    for stream in listener.incoming() {
        let stream = match stream {
            Ok(stream) => stream,
            Err(error) => {
                reported.not_accepted(rt, reports, &error);
                continue;
            }
        };
        reported.is_deaf = false;
        let changed = serve_stream(rt, store, moment(rt), &stream, reports, &mut reported);
        left -= 1;
        if left == 0 {
            return;
        }
        if changed {
            save_or_report(rt, store, image, reports);
        }
    }
}

/// Serves `count` connections of a listener as `serve_all` does, and saves the image at the end.
pub fn serve_on<R>(
    rt: &R,
    store: &mut Store<Global>,
    listener: &TcpListener,
    image: &mut ImageFile<'_>,
    reports: &mut Reports,
    count: u64,
) -> Result<(), Failed<SaveFault>>
where
    R: Clock + Files<File = File> + AllocGlobal + Eprint,
    requires { 1 ≤ count }
    ensures { WentBy store.old store.new }
{
    serve_all(rt, store, listener, image, reports, count);
    image.save(rt, store)
}
