//! Requests to a connection in memory, and a batch with a refused allocation at a line.

use super::trial::{Answer, Call, Flaw, Shown, Trial, UNCHANGED};
use std::alloc::{Allocator, Global};
use ts_core::{Sink, Source, Time};
use ts_http::serve_one;
use ts_store::Store;
use ts_testkit::Refusing;

/// The reply to a request when out of memory.
const OUT_OF_MEMORY: &[u8] =
    b"HTTP/1.1 500 Internal Server Error\r\nContent-Type: application/json\r\nContent-Length: 25\r\nConnection: close\r\n\r\n{\"error\":\"out of memory\"}";

/// The reply to lines that are all accepted.
const NO_CONTENT: &[u8] = b"HTTP/1.1 204 No Content\r\nConnection: close\r\n\r\n";

/// The bytes of a request, and those of its reply.
#[derive(Clone, Copy)]
struct Request {
    json: Global,
    bytes: &'static [u8],
    reply: &'static [u8],
}

/// Returns the reply to a request.
fn reply_to<A: Allocator + Copy>(
    alloc: A,
    json: Global,
    store: &mut Store<A>,
    request: &[u8],
) -> Option<Vec<u8>> {
    let mut source = Source::new(request);
    let mut sink = Sink::new(Vec::new(json));
    let is_served = serve_one(alloc, json, store, Time::least(), &mut source, &mut sink).is_ok();
    let reply = sink.into_inner();
    if is_served { Some(reply) } else { None }
}

/// Returns the answer that a reply is, where another is right.
fn answer_of(reply: &[u8], right: &[u8]) -> Answer {
    if reply == OUT_OF_MEMORY {
        Answer::OutOfMemory
    } else {
        Answer::new(reply == right)
    }
}

impl<A: Allocator + Copy> Call<A> for Request {
    fn make(&self, alloc: A, store: &mut Store<A>) -> Answer {
        match reply_to(alloc, self.json, store, self.bytes) {
            Some(reply) => answer_of(&reply, self.reply),
            None => Answer::Wrong,
        }
    }
}

/// Requests with their replies, the query that shows afterwards that they were executed, and the number of refusals
/// that they absorb.
const REQUESTS: [(&[u8], &[u8], Shown<'static>, u32); 3] = [
    // a line of a new series; the first block of the arena is absorbed
    (
        b"POST /write?precision=s HTTP/1.1\r\nContent-Length: 19\r\n\r\ncpu,host=c v=4i 115",
        NO_CONTENT,
        Shown {
            query: "SELECT COUNT(v),SUM(v) FROM cpu WHERE host = 'c' AND time >= 60s AND time < 120s GROUP BY time(1m)",
            reply: r#"{"results":[{"series":[{"columns":["time","count","sum"],"name":"cpu","values":[[60,1,4]]}],"statement_id":0}]}"#,
        },
        1,
    ),
    // a query; the first allocation for a parameter with escapes is absorbed, and that for the names of columns
    (
        b"GET /query?epoch=s&q=SELECT+SUM(v)+FROM+cpu+WHERE+time+%3E%3D+60s+AND+time+%3C+120s+GROUP+BY+time(1m) HTTP/1.1\r\n\r\n",
        b"HTTP/1.1 200 OK\r\nContent-Type: application/json\r\nContent-Length: 102\r\nConnection: close\r\n\r\n{\"results\":[{\"series\":[{\"columns\":[\"time\",\"sum\"],\"name\":\"cpu\",\"values\":[[60,30]]}],\"statement_id\":0}]}",
        UNCHANGED,
        2,
    ),
    // a rule
    (
        b"POST /rules HTTP/1.1\r\nContent-Length: 98\r\n\r\n{\"name\":\"m10\",\"measurement\":\"cpu\",\"interval\":\"10m\",\"offset\":\"0s\",\"keep\":[\"host\"],\"duration\":\"INF\"}",
        b"HTTP/1.1 200 OK\r\nContent-Type: application/json\r\nContent-Length: 22\r\nConnection: close\r\n\r\n{\"low\":1,\"name\":\"m10\"}",
        UNCHANGED,
        0,
    ),
];

/// Returns the index of the first request with a flaw, and that flaw.
fn first_flaw(trial: &Trial<'_>) -> Option<(usize, Flaw)> {
    for (number, row) in REQUESTS.iter().enumerate() {
        let (bytes, reply, shown, absorbed) = *row;
        let json = trial.json;
        if let Some(flaw) = trial.flaw_of(&Request { json, bytes, reply }, &shown, absorbed) {
            return Some((number, flaw));
        }
    }
    None
}

#[test]
fn requests_are_answered_by_500(rt: HostRuntime) {
    let heap = Refusing::new(rt.alloc());
    let json = rt.alloc();
    for is_open in [false, true] {
        let trial = Trial {
            heap: &heap,
            json,
            is_open,
        };
        assert_eq!(rt; first_flaw(&trial), None);
    }
}

/// Three lines, which add 1, 2 and 4 to a sum.
const BATCH: &[u8] =
    b"POST /write?precision=s HTTP/1.1\r\nContent-Length: 44\r\n\r\nm,a=1 f=1i 111\nm,a=2 f=2i 112\nm,a=3 f=4i 113";

/// The query of the sum.
const SUM: &str = "SELECT SUM(f) FROM m WHERE time >= 110s AND time < 120s GROUP BY time(10s)";

/// The sum of no line, of the first, of the first two, and of all.
const SUMS: [&str; 4] = [
    r#"{"results":[{"statement_id":0}]}"#,
    r#"{"results":[{"series":[{"columns":["time","sum"],"name":"m","values":[[110,1]]}],"statement_id":0}]}"#,
    r#"{"results":[{"series":[{"columns":["time","sum"],"name":"m","values":[[110,3]]}],"statement_id":0}]}"#,
    r#"{"results":[{"series":[{"columns":["time","sum"],"name":"m","values":[[110,7]]}],"statement_id":0}]}"#,
];

/// Returns the number of lines of the batch that were written; none if they weren't the first ones.
fn lines_written<'h>(trial: &Trial<'h>, store: &Store<&'h Refusing<Global>>) -> Option<usize> {
    for (count, reply) in SUMS.iter().enumerate() {
        let shown = Shown {
            query: SUM,
            reply: *reply,
        };
        if trial.shows(store, &shown) {
            return Some(count);
        }
    }
    None
}

/// Returns true if the batch succeeds, and all lines are written.
fn is_completed<'h>(
    trial: &Trial<'h>,
    call: &Request,
    store: &mut Store<&'h Refusing<Global>>,
) -> bool {
    call.make(trial.heap, store) == Answer::Right && lines_written(trial, store) == Some(3)
}

/// Serves the batch, with the allocation request after `left` others refused, and then again. Returns the number of
/// lines that were written at first, and true if there was a refusal; none if a reply isn't right.
fn batch_on<'h>(
    trial: &Trial<'h>,
    call: &Request,
    store: &mut Store<&'h Refusing<Global>>,
    left: u64,
) -> Option<(usize, bool)> {
    let (answer, is_refused) = trial.make(call, store, left);
    let written = lines_written(trial, store)?;
    let is_told = match answer {
        Answer::Right => written == 3,
        Answer::OutOfMemory => written != 3,
        Answer::Wrong => false,
    };
    if is_told && is_completed(trial, call, store) {
        Some((written, is_refused))
    } else {
        None
    }
}

/// Serves the batch in this way to a new store.
fn batch_round(trial: &Trial<'_>, left: u64) -> Option<(usize, bool)> {
    let call = Request {
        json: trial.json,
        bytes: BATCH,
        reply: NO_CONTENT,
    };
    let mut store = trial.store()?;
    batch_on(trial, &call, &mut store, left)
}

/// Refuses each request of the batch in turn, until none is refused. Returns true for each number of lines that a
/// refusal left; none if a reply isn't right.
fn lines_left(trial: &Trial<'_>) -> Option<[bool; 4]> {
    let mut seen = [false; 4];
    for left in 0..1_000 {
        let (written, is_refused) = batch_round(trial, left)?;
        if !is_refused {
            return Some(seen);
        }
        if let Some(one) = seen.get_mut(written) {
            *one = true;
        }
    }
    None
}

#[test]
fn a_batch_leaves_the_lines_before_a_refusal(rt: HostRuntime) {
    let heap = Refusing::new(rt.alloc());
    let trial = Trial {
        heap: &heap,
        json: rt.alloc(),
        is_open: false,
    };
    // the fourth: the first block of the arena is absorbed
    assert_eq!(rt; lines_left(&trial), Some([true; 4]));
}
