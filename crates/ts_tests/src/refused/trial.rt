//! Refuses each request of a call in turn, until a call meets no refusal.

use crate::stores::{at_second, fill, open_run, store_of, write_all};
use std::alloc::{AllocError, Allocator, Global};
use ts_core::{Time, TimeUnit};
use ts_reply::{Epoch, answer};
use ts_store::{Store, View};
use ts_testkit::Refusing;

/// More requests than any of the calls makes.
const MOST_REQUESTS: u64 = 1_000;

/// Raw points for two minutes, and three rules: a minute and five minutes per host, and an hour.
const THREE_RULES: &str =
    r#"{"raw":"2m","rules":[{"name":"m1","measurement":"cpu","interval":"1m","offset":"0s","keep":["host"],"duration":"INF"},{"name":"m5","measurement":"cpu","interval":"5m","offset":"0s","keep":["host"],"duration":"INF"},{"name":"h1","measurement":"cpu","interval":"1h","offset":"0s","keep":[],"duration":"INF"}]}"#;

/// Lines after those of a filled store. One more point in the column of host `a` then needs an allocation.
const LAST_LINES: [&str; 2] = ["cpu,host=a v=6i 101", "cpu,host=a v=5i 105"];

/// Queries that raw points and cells answer together, and one that has no plan.
pub(super) const QUERIES: &str =
    "SELECT COUNT(v),SUM(v),MIN(v),MAX(v),FIRST(v),LAST(v),MEAN(v) FROM cpu WHERE time >= 60s AND time < 120s GROUP BY time(1m);SELECT MAX(v) FROM cpu WHERE time >= 0 AND time < 240s GROUP BY host, time(1m) fill(previous);SELECT COUNT(v) FROM cpu WHERE dc = 'x' AND time >= 0 AND time < 60s GROUP BY time(1m)";

/// The reply to these.
pub(super) const REPLY: &str =
    r#"{"results":[{"series":[{"columns":["time","count","sum","min","max","first","last","mean"],"name":"cpu","values":[[60,6,30,1,8,7,3,"5/1"]]}],"statement_id":0},{"series":[{"columns":["time","max"],"name":"cpu","tags":{"host":"a"},"values":[[0,5],[60,8],[120,8],[180,8]]},{"columns":["time","max"],"name":"cpu","tags":{"host":"b"},"values":[[0,null],[60,3],[120,3],[180,3]]}],"statement_id":1},{"error":"fault 91","statement_id":2}]}"#;

/// Result of a call.
#[derive(Clone, Copy, PartialEq, Eq)]
pub(super) enum Answer {
    /// The right answer.
    Right,
    /// Out of memory.
    OutOfMemory,
    /// Any other.
    Wrong,
}

impl Answer {
    /// Returns `Right` if the answer is right, else `Wrong`.
    pub(super) fn new(is_right: bool) -> Answer {
        if is_right {
            Answer::Right
        } else {
            Answer::Wrong
        }
    }
}

/// Reason why a trial fails.
#[derive(Clone, Copy, Debug, PartialEq, Eq)]
pub(super) enum Flaw {
    /// There is no store, image or query to try the call on.
    Nothing,
    /// A call is neither right nor out of memory, or is out of memory with all of it.
    Wrong,
    /// A call that was out of memory changed the store.
    Changed,
    /// A call doesn't succeed after one that was out of memory.
    NotRepeated,
    /// The reply to a query after the call is another.
    OtherReply,
    /// No call is out of memory.
    NeverRefused,
    /// Another number of refused requests is absorbed: this one.
    Absorbed(u32),
    /// The call needs more than the most requests.
    Endless,
}

/// A call that is tried.
pub(super) trait Call<A: Allocator> {
    /// Calls, and judges the result without allocating in `alloc`.
    fn make(&self, alloc: A, store: &mut Store<A>) -> Answer;
}

/// A query, and its reply after the call.
#[derive(Clone, Copy)]
pub(super) struct Shown<'q> {
    pub query: &'q str,
    pub reply: &'q str,
}

/// The queries of each trial, and their replies, for calls that don't change these.
pub(super) const UNCHANGED: Shown<'static> = Shown {
    query: QUERIES,
    reply: REPLY,
};

/// The setting of a call that is tried: an allocator, and a flag that is true if a run of retention is open.
#[derive(Clone, Copy)]
pub(super) struct Trial<'h> {
    pub heap: &'h Refusing<Global>,
    pub json: Global,
    pub is_open: bool,
}

/// Writes the points of each trial, and begins a run of retention at the second of two moments if it is to be open.
/// Returns true if all calls succeeded.
fn work<A: Allocator + Copy>(
    alloc: A,
    store: &mut Store<A>,
    run_at: Time,
    begin_at: Option<Time>,
) -> bool {
    if !fill(alloc, store, run_at) || !write_all(alloc, store, &LAST_LINES) {
        return false;
    }
    match begin_at {
        Some(begin_at) => open_run(store, begin_at),
        None => true,
    }
}

/// Returns a store with points, with cells of three rules, and perhaps with an open run.
fn worked<A: Allocator + Copy>(alloc: A, json: Global, is_open: bool) -> Option<Store<A>> {
    let run_at = at_second(200)?;
    let begin_at = if is_open { at_second(220) } else { None };
    let mut store = store_of(alloc, json, THREE_RULES)?;
    if work(alloc, &mut store, run_at, begin_at) {
        Some(store)
    } else {
        None
    }
}

/// Returns true if the reply to queries is this text.
pub(super) fn replies<A: Allocator + Copy>(
    alloc: A,
    json: Global,
    store: &Store<A>,
    query: &str,
    reply: &str,
) -> Result<bool, AllocError> {
    let epoch = Epoch::Units(TimeUnit::Seconds);
    match answer(alloc, json, store, Time::least(), query, None, epoch) {
        Ok(found) => Ok(found.body.as_str() == reply),
        Err(_) => Err(AllocError),
    }
}

/// Returns true if two stores have the same settings and marks.
fn have_same_marks<A: Allocator + Copy>(one: &Store<A>, other: &Store<A>) -> bool {
    one.settings().equals(other.settings()) && one.marks().equals(other.marks())
}

/// Returns true if two stores have the same settings, marks, numbers and open run.
fn are_alike<A: Allocator + Copy>(one: &Store<A>, other: &Store<A>) -> bool {
    have_same_marks(one, other)
        && one.accepted() == other.accepted()
        && one.raw_points() == other.raw_points()
        && one.run_in_progress() == other.run_in_progress()
}

impl<'h> Trial<'h> {
    /// Returns the store that each call is tried on.
    pub(super) fn store(&self) -> Option<Store<&'h Refusing<Global>>> {
        worked(self.heap, self.json, self.is_open)
    }

    /// Calls once, with the request after `left` others refused. Returns the result, and true if there was such a
    /// request.
    pub(super) fn make<C: Call<&'h Refusing<Global>>>(
        &self,
        call: &C,
        store: &mut Store<&'h Refusing<Global>>,
        left: u64,
    ) -> (Answer, bool) {
        self.heap.refuse_after(left);
        let answer = call.make(self.heap, store);
        let is_refused = self.heap.has_refused();
        self.heap.refuse_none();
        (answer, is_refused)
    }

    /// Returns true if the reply of a store to queries is the shown one.
    pub(super) fn shows(&self, store: &Store<&'h Refusing<Global>>, shown: &Shown<'_>) -> bool {
        matches!(
            replies(self.heap, self.json, store, shown.query, shown.reply),
            Ok(true)
        )
    }

    /// Returns true if a store is as before each call, apart from its points and cells.
    fn is_as_before(&self, store: &Store<&'h Refusing<Global>>) -> bool {
        match self.store() {
            Some(before) => are_alike(store, &before),
            None => false,
        }
    }

    /// Returns true if a store is as before each call.
    fn is_unchanged(&self, store: &Store<&'h Refusing<Global>>) -> bool {
        self.is_as_before(store) && self.shows(store, &UNCHANGED)
    }

    /// Returns the flaw of a call with this answer, if any: without memory it changed the store or doesn't succeed
    /// afterwards, or the reply of the store after it is another.
    fn flaw_after<C: Call<&'h Refusing<Global>>>(
        &self,
        call: &C,
        shown: &Shown<'_>,
        store: &mut Store<&'h Refusing<Global>>,
        answer: Answer,
    ) -> Option<Flaw> {
        if answer == Answer::OutOfMemory {
            if !self.is_unchanged(store) {
                return Some(Flaw::Changed);
            }
            if call.make(self.heap, store) != Answer::Right {
                return Some(Flaw::NotRepeated);
            }
        }
        if self.shows(store, shown) {
            None
        } else {
            Some(Flaw::OtherReply)
        }
    }

    /// Tries a call on a store, with the request after `left` others refused. Returns its result, and true if there was
    /// such a request.
    fn round_on<C: Call<&'h Refusing<Global>>>(
        &self,
        call: &C,
        shown: &Shown<'_>,
        store: &mut Store<&'h Refusing<Global>>,
        left: u64,
    ) -> Result<(Answer, bool), Flaw> {
        let first = self.make(call, store, left);
        match self.flaw_after(call, shown, store, first.0) {
            Some(flaw) => Err(flaw),
            None => Ok(first),
        }
    }

    /// Tries a call on a new store in this way.
    fn round<C: Call<&'h Refusing<Global>>>(
        &self,
        call: &C,
        shown: &Shown<'_>,
        left: u64,
    ) -> Result<(Answer, bool), Flaw> {
        let mut store = self.store().ok_or(Flaw::Nothing)?;
        self.round_on(call, shown, &mut store, left)
    }

    /// Refuses each request of a call in turn, until a call meets no refusal. Returns the first flaw of the calls; also
    /// if none was out of memory, or another number than `absorbed` had the right result without a request.
    pub(super) fn flaw_of<C: Call<&'h Refusing<Global>>>(
        &self,
        call: &C,
        shown: &Shown<'_>,
        absorbed: u32,
    ) -> Option<Flaw> {
        let mut is_answered = false;
        let mut found: u32 = 0;
        for left in 0..MOST_REQUESTS {
            match self.round(call, shown, left) {
                Ok((Answer::Right, false)) => return flaw_of_numbers(is_answered, found, absorbed),
                Ok((Answer::Right, true)) => found = found.wrapping_add(1),
                Ok((Answer::OutOfMemory, true)) => is_answered = true,
                Ok(_) => return Some(Flaw::Wrong),
                Err(flaw) => return Some(flaw),
            }
        }
        Some(Flaw::Endless)
    }
}

/// Returns the flaw of a trial in which this number of refused requests was absorbed, if any.
fn flaw_of_numbers(is_answered: bool, found: u32, absorbed: u32) -> Option<Flaw> {
    if !is_answered {
        Some(Flaw::NeverRefused)
    } else if found != absorbed {
        Some(Flaw::Absorbed(found))
    } else {
        None
    }
}
