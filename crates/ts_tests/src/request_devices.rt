//! Requests over devices that transfer bytes in pieces or fail: a batch of three lines, of which the second is below
//! the raw mark.

use crate::stores::{ONE_RULE, at_second, fill_and_retain, store_of};
use std::alloc::Global;
use ts_core::{Sink, Source, Time};
use ts_http::{IoFault, Route, Served, Status, serve_one};
use ts_store::Store;
use ts_testkit::{Failure, NEVER, PieceReader, PieceWriter};

/// The batch.
const BATCH: &str =
    "POST /write?precision=s HTTP/1.1\r\nContent-Length: 56\r\n\r\ncpu,host=a v=1i 90\ncpu,host=a v=1i 79\ncpu,host=a v=1i 95";

/// Its reply.
const REPLY: &str =
    "HTTP/1.1 400 Bad Request\r\nContent-Type: application/json\r\nContent-Length: 71\r\nConnection: close\r\n\r\n{\"error\":\"partial write: line 2: fault 51 mark 80000000000; dropped=1\"}";

/// A query that counts the points of the second minute.
const COUNT: &str =
    "GET /query?epoch=s&q=SELECT+COUNT(v)+FROM+cpu+WHERE+time+%3E%3D+60s+AND+time+%3C+120s+GROUP+BY+time(1m) HTTP/1.1\r\n\r\n";

/// The end of its reply before the batch, and after it.
const COUNTED_BEFORE: &str = r#""values":[[60,2]]}],"statement_id":0}]}"#;

const COUNTED_AFTER: &str = r#""values":[[60,4]]}],"statement_id":0}]}"#;

/// A served request: its result, and its devices after it.
#[derive(Drop)]
struct Exchange<'a> {
    result: Result<Served, IoFault>,
    reader: PieceReader<'a>,
    writer: PieceWriter,
}

/// Serves a request.
fn serve<'a>(
    alloc: Global,
    store: &mut Store<Global>,
    now: Time,
    reader: PieceReader<'a>,
    writer: PieceWriter,
) -> Exchange<'a> {
    let mut source = Source::new(reader);
    let mut sink = Sink::new(writer);
    let result = serve_one(alloc, alloc, store, now, &mut source, &mut sink);
    Exchange {
        result,
        reader: source.into_inner(),
        writer: sink.into_inner(),
    }
}

/// Returns a writer that accepts all bytes.
fn ample(alloc: Global) -> PieceWriter {
    PieceWriter::new(Vec::new(alloc), NEVER, NEVER, Failure::Error)
}

/// Returns a store whose raw mark is at 80 seconds.
fn retained(alloc: Global, now: Time) -> Option<Store<Global>> {
    let mut store = store_of(alloc, alloc, ONE_RULE)?;
    if fill_and_retain(alloc, &mut store, now) {
        Some(store)
    } else {
        None
    }
}

/// Returns true if the store's count of the second minute ends its reply this way.
fn counts(alloc: Global, store: &mut Store<Global>, now: Time, end: &str) -> bool {
    let reader = PieceReader::new(COUNT.as_bytes(), NEVER, NEVER);
    let asked = serve(alloc, store, now, reader, ample(alloc));
    asked.writer.written.as_slice().ends_with(end.as_bytes())
}

/// Returns true if a failed read of the batch is reported; nothing is read after it, and nothing is written.
fn stops_at_read(
    alloc: Global,
    store: &mut Store<Global>,
    now: Time,
    piece: usize,
    call: usize,
) -> bool {
    let reader = PieceReader::new(BATCH.as_bytes(), piece, call);
    let failed = serve(alloc, store, now, reader, ample(alloc));
    failed.result == Err(IoFault::Reader)
        && failed.reader.calls == call.saturating_add(1)
        && failed.writer.calls == 0
}

/// Returns true if a failed read of the batch does nothing: nothing is written, and the store counts as before.
fn does_nothing(alloc: Global, piece: usize, call: usize) -> Option<bool> {
    let now = at_second(200)?;
    let mut store = retained(alloc, now)?;
    Some(
        stops_at_read(alloc, &mut store, now, piece, call)
            && counts(alloc, &mut store, now, COUNTED_BEFORE),
    )
}

/// Returns the first of the reads of `piece` bytes of which this doesn't hold.
fn first_wrong_read(alloc: Global, piece: usize) -> Option<usize> {
    for call in 0..BATCH.len().div_ceil(piece.max(1)) {
        if does_nothing(alloc, piece, call) != Some(true) {
            return Some(call);
        }
    }
    None
}

#[test]
fn a_failed_read_of_a_request_does_nothing(rt: HostRuntime) {
    for piece in [1, 7, 100] {
        assert_eq!(rt; first_wrong_read(rt.alloc(), piece), None, "{piece}");
    }
}

/// Returns true if a failed write of the reply is reported, and leaves exactly the bytes before it.
fn stops_at_write(
    alloc: Global,
    store: &mut Store<Global>,
    now: Time,
    call: usize,
    failure: Failure,
) -> bool {
    let reader = PieceReader::new(BATCH.as_bytes(), NEVER, NEVER);
    let writer = PieceWriter::new(Vec::new(alloc), 1, call, failure);
    let failed = serve(alloc, store, now, reader, writer);
    failed.result == Err(IoFault::Writer)
        && failed.writer.calls == call.saturating_add(1)
        && Some(failed.writer.written.as_slice()) == REPLY.as_bytes().get(..call)
}

/// Returns true if a failed write of the reply does so, and the batch is written.
fn is_executed(alloc: Global, call: usize, failure: Failure) -> Option<bool> {
    let now = at_second(200)?;
    let mut store = retained(alloc, now)?;
    Some(
        stops_at_write(alloc, &mut store, now, call, failure)
            && counts(alloc, &mut store, now, COUNTED_AFTER),
    )
}

/// Returns the first of the writes of the reply of which this doesn't hold.
fn first_wrong_write(alloc: Global, failure: Failure) -> Option<usize> {
    for call in 0..REPLY.len() {
        if is_executed(alloc, call, failure) != Some(true) {
            return Some(call);
        }
    }
    None
}

#[test]
fn a_failed_write_of_a_reply_comes_after_the_event(rt: HostRuntime) {
    for failure in [Failure::Error, Failure::Nothing] {
        assert_eq!(rt; first_wrong_write(rt.alloc(), failure), None, "{failure:?}");
    }
}

/// Returns true if the batch has its reply. Nothing is read after the whole request.
fn replies(alloc: Global, store: &mut Store<Global>, now: Time) -> bool {
    let reader = PieceReader::new(BATCH.as_bytes(), 7, NEVER);
    let served = serve(alloc, store, now, reader, ample(alloc));
    let reply = Served::Reply {
        status: Status::BadRequest,
        route: Route::Write,
    };
    served.result == Ok(reply)
        && served.writer.written.as_slice() == REPLY.as_bytes()
        && served.reader.calls == BATCH.len().div_ceil(7)
}

/// Returns true if the batch has its reply and is written.
fn is_answered(alloc: Global) -> Option<bool> {
    let now = at_second(200)?;
    let mut store = retained(alloc, now)?;
    Some(replies(alloc, &mut store, now) && counts(alloc, &mut store, now, COUNTED_AFTER))
}

#[test]
fn a_request_without_failures_is_answered(rt: HostRuntime) {
    assert_eq!(rt; is_answered(rt.alloc()), Some(true));
}

/// Returns true if a connection without a byte has no reply.
fn has_no_reply(alloc: Global, store: &mut Store<Global>, now: Time) -> bool {
    let reader = PieceReader::new(&[], NEVER, NEVER);
    let served = serve(alloc, store, now, reader, ample(alloc));
    served.result == Ok(Served::Nothing) && served.writer.calls == 0
}

/// Returns true if such a connection has no reply, and the store counts as before.
fn is_idle(alloc: Global) -> Option<bool> {
    let now = at_second(200)?;
    let mut store = retained(alloc, now)?;
    Some(has_no_reply(alloc, &mut store, now) && counts(alloc, &mut store, now, COUNTED_BEFORE))
}

#[test]
fn a_connection_without_a_byte_has_no_reply(rt: HostRuntime) {
    assert_eq!(rt; is_idle(rt.alloc()), Some(true));
}
