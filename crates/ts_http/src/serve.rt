//! Serves one request: reads it whole, executes it, and sends the reply.
ghost use Rattle.std.specs.Prelude.{◌≡◌, ◌≤◌, length, map, drop, false, true};
ghost use Rattle.std.specs.List.{AllByRecursion};
ghost use Rattle.httparse.specs.Spans.{IsHeaderWithin, header_bytes, span_bytes};
ghost use Rattle.ts_core.specs.io.Devices.{EachReadCounts};
ghost use Rattle.ts_http.specs.Requests.{path_of, target_query, route_of, method_of, is_allowed, body_limit, refused};
ghost use Rattle.ts_http.specs.OutcomeReplies.{ActsAs};
ghost use Rattle.ts_http.specs.ServeSteps.{IsLengthAnswer, IsActedOn, IsSent};
ghost use Rattle.ts_core.specs.text.FaultTexts.{IsAppended};
ghost use Rattle.ts_http.specs.Served.{io_fault_code, io_fault_text, IsServed};

use crate::body::{Body, receive_body};
use crate::fields::body_of;
use crate::head::{FIELD_LIMIT, HEAD_LIMIT, HeadRead, read_head};
use crate::maintaining::maintain;
use crate::outcome::RequestOutcome;
use crate::querying::{Form, query};
use crate::reading::ReadFailed;
use crate::refusal::Refusal;
use crate::route::{Method, Route};
use crate::rules::{add_rule, drop_rule};
use crate::status::Status;
use crate::writing::write;
use httparse::spans::{EMPTY_HEADER_SPAN, HeaderSpan, RequestSpans};
use std::alloc::{AllocError, Allocator, Global};
use std::io::{Read, Write};
use thiserror::Error;
use ts_core::{FaultCode, FaultDetail, Refused, Sink, Source, Time};
use ts_store::Store;

/// The outcome of serving a request.
#[derive(Clone, Copy, Debug, PartialEq, Eq)]
pub enum Served {
    /// The input was empty.
    Nothing,
    /// A reply was sent.
    Reply { status: Status, route: Route },
}

/// Device faults while serving a request.
#[derive(Clone, Copy, Debug, PartialEq, Eq, Error)]
#[error("{}", self.code().message())]
pub enum IoFault {
    /// The reader failed. Nothing was executed.
    Reader,
    /// Failure of the writer. The request was executed, and a prefix of the reply was sent.
    Writer,
}

impl IoFault {
    /// Returns the code of this fault in the common table of faults.
    pub fn code(self) -> FaultCode
        ensures { result ≡ io_fault_code self }
    {
        match self {
            IoFault::Reader => FaultCode::ConnectionReaderFailed,
            IoFault::Writer => FaultCode::ConnectionWriterFailed,
        }
    }

    /// Appends the message to `text`. When out of memory, `text` may end in part of the message. Does not allocate if
    /// `text` has the capacity.
    pub fn text_to<A: Allocator>(&self, text: &mut String<A>) -> Result<(), AllocError>
        ensures { IsAppended (io_fault_text self.now) text.old text.new result }
    {
        self.code().text_to(FaultDetail::Alone, text)
    }
}

impl From<ReadFailed> for IoFault {
    ghost use Rattle.std.specs.Prelude.{◌≡◌};
    ghost use Rattle.ts_http.specs.declared.serve.IoFault.TheVariants.{Reader};

    ghost from_gives = { λ _ e. e ≡ Reader };

    fn from(_e: ReadFailed) -> IoFault {
        IoFault::Reader
    }
}

impl From<Refused> for IoFault {
    ghost use Rattle.std.specs.Prelude.{◌≡◌};
    ghost use Rattle.ts_http.specs.declared.serve.IoFault.TheVariants.{Writer};

    ghost from_gives = { λ _ e. e ≡ Writer };

    fn from(_e: Refused) -> IoFault {
        IoFault::Writer
    }
}

/// A whole head, with the bytes that followed it.
#[derive(Clone, Copy, Drop)]
struct HeadParts<'a> {
    route: Route,
    method: Method,
    query: &'a [u8],
    after: &'a [u8],
}

/// Splits a target at its first question mark.
fn split_target(target: &[u8]) -> (&[u8], &[u8])
    ensures path { result.0.now ≡ path_of target.now }
    ensures query { result.1.now ≡ target_query target.now }
{
    match target.iter().position(|byte| *byte == b'?') {
        Some(at) => (&target[..at], &target[at + 1..]),
        None => (target, b""),
    }
}

/// Returns the parts of a head.
fn head_parts_of<'a>(came: &'a [u8], found: &RequestSpans) -> HeadParts<'a>
    requires method { (found.now.method.start ≤ found.now.method.end) × (found.now.method.end ≤ length came.now) }
    requires path { (found.now.path.start ≤ found.now.path.end) × (found.now.path.end ≤ length came.now) }
    requires len { found.now.len ≤ length came.now }
    ensures route { result.route ≡ route_of (path_of (span_bytes came.entry.now found.now.path)) }
    ensures method { result.method ≡ method_of (span_bytes came.entry.now found.now.method) }
    ensures query { result.query.now ≡ target_query (span_bytes came.entry.now found.now.path) }
    ensures after { result.after.now ≡ drop found.now.len came.entry.now }
{
    let (path, query) = split_target(found.path.of(came));
    HeadParts {
        route: Route::from_path(path),
        method: Method::from_name(found.method.of(came)),
        query,
        after: &came[found.len..],
    }
}

/// Returns the length of the body in bytes, or the reason why the head is refused.
fn body_len(
    came: &[u8],
    spans: &[HeaderSpan],
    route: Route,
    method: Method,
) -> Result<usize, Refusal>
    requires { AllByRecursion (IsHeaderWithin (length came.now)) spans.now }
    ensures { IsLengthAnswer route method (map (header_bytes came.now) spans.now) result }
{
    if route == Route::Other {
        return Err(Refusal::NotFound);
    }
    if !route.allows(method) {
        return Err(Refusal::MethodNotAllowed(route));
    }
    if method == Method::Post {
        return body_of(came, spans, route);
    }
    Ok(0)
}

/// Executes a request.
fn act<A: Allocator + Copy>(
    alloc: A,
    json: Global,
    store: &mut Store<A>,
    now: Time,
    head: &HeadParts<'_>,
    body: &[u8],
) -> RequestOutcome
    requires allowed { is_allowed head.now.route head.now.method ≡ true }
    requires body { length body.now ≤ body_limit }
    ensures { ActsAs now head.now.route head.now.method head.now.query.now body.now store.old result store.new }
{
    match head.route {
        Route::Write => write(alloc, store, now, head.query, body),
        Route::Query => query(
            alloc,
            json,
            store,
            now,
            &Form {
                query: head.query,
                body,
            },
        ),
        Route::Maintain => maintain(alloc, store, now, head.query),
        Route::Rules => match head.method {
            Method::Post => add_rule(alloc, json, store, body),
            Method::Delete => drop_rule(alloc, store, head.query),
            _ => unreachable!(),
        },
        Route::Ping => RequestOutcome::Done,
        Route::Other => unreachable!(),
    }
}

/// Reads the body, if it isn't empty, and executes the request.
fn act_on_body<R: Read, A: Allocator + Copy>(
    alloc: A,
    json: Global,
    store: &mut Store<A>,
    now: Time,
    head: &HeadParts<'_>,
    len: usize,
    source: &mut Source<R>,
) -> Result<RequestOutcome, ReadFailed>
    requires allowed { is_allowed head.now.route head.now.method ≡ true }
    requires len { len ≤ body_limit }
    ensures acted { IsActedOn now head.now.route
        head.now.method head.now.query.now head.now.after.now len store.old source.old result store.new source.new }
    ensures each { EachReadCounts source.old source.new }
{
    if len == 0 {
        return Ok(act(alloc, json, store, now, head, b""));
    }
    match receive_body(alloc, head.after, len, source)? {
        Body::Whole(body) => Ok(act(alloc, json, store, now, head, &body)),
        Body::Cut => Ok(RequestOutcome::Refused(Refusal::BodyEndsEarly)),
        Body::NoMemory => Ok(RequestOutcome::Refused(Refusal::OutOfMemory)),
    }
}

/// Sends a reply, without a body if it is to HEAD.
fn reply<W: Write>(
    outcome: &RequestOutcome,
    route: Route,
    to_head: bool,
    sink: &mut Sink<W>,
) -> Result<Served, IoFault>
    ensures { IsSent outcome.now route to_head sink.old result sink.new }
{
    match outcome.send(to_head, sink) {
        Ok(()) => Ok(Served::Reply {
            status: outcome.status(),
            route,
        }),
        Err(_) => Err(IoFault::Writer),
    }
}

/// Serves one request at a moment: reads it whole, executes it, and sends the reply. Every reply but the answer to a
/// query is sent without allocating. JSON is parsed and written in `json`; all other allocations are in `alloc`.
pub fn serve_one<R: Read, W: Write, A: Allocator + Copy>(
    alloc: A,
    json: Global,
    store: &mut Store<A>,
    now: Time,
    source: &mut Source<R>,
    sink: &mut Sink<W>,
) -> Result<Served, IoFault>
    ensures served { IsServed now store.old source.old sink.old result store.new source.new sink.new }
    // So the limit of reads is reached only by as many bytes.
    ensures each { EachReadCounts source.old source.new }
{
    let mut buffer = [0; HEAD_LIMIT];
    let mut spans = [EMPTY_HEADER_SPAN; FIELD_LIMIT];
    let (count, head) = read_head(source, &mut buffer, &mut spans)?;
    match head {
        HeadRead::Nothing => Ok(Served::Nothing),
        HeadRead::Fault(fault) => {
            let refused = RequestOutcome::Refused(Refusal::Head(fault));
            reply(&refused, Route::Other, false, sink)
        }
        HeadRead::Whole(found) => {
            let came = &buffer[..count];
            let head = head_parts_of(came, &found);
            match body_len(came, &spans[..found.headers], head.route, head.method) {
                Ok(len) => {
                    let outcome = act_on_body(alloc, json, store, now, &head, len, source)?;
                    reply(&outcome, head.route, false, sink)
                }
                Err(refusal) => {
                    let refused = RequestOutcome::Refused(refusal);
                    reply(&refused, head.route, head.method.is_head(), sink)
                }
            }
        }
    }
}
