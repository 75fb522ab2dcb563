//! Writes: a new series, a new column, new points, and new cells.

use super::trial::{Answer, Call, Flaw, Shown, Trial};
use crate::stores::write;
use std::alloc::Allocator;
use ts_store::Store;
use ts_testkit::Refusing;

/// A write of a line that is accepted.
#[derive(Clone, Copy)]
struct Write {
    line: &'static str,
}

impl<A: Allocator + Copy> Call<A> for Write {
    fn make(&self, alloc: A, store: &mut Store<A>) -> Answer {
        match write(alloc, store, self.line) {
            Ok(is_accepted) => Answer::new(is_accepted),
            Err(_) => Answer::OutOfMemory,
        }
    }
}

/// Lines, and the queries that show that they are accepted.
const WRITES: [(&str, Shown<'static>); 5] = [
    // a new series
    (
        "cpu,host=c v=4i 115",
        Shown {
            query: "SELECT COUNT(v),SUM(v) FROM cpu WHERE time >= 60s AND time < 120s GROUP BY time(1m),host",
            reply: r#"{"results":[{"series":[{"columns":["time","count","sum"],"name":"cpu","tags":{"host":"a"},"values":[[60,4,26]]},{"columns":["time","count","sum"],"name":"cpu","tags":{"host":"b"},"values":[[60,2,4]]},{"columns":["time","count","sum"],"name":"cpu","tags":{"host":"c"},"values":[[60,1,4]]}],"statement_id":0}]}"#,
        },
    ),
    // a new column of an old series
    (
        "cpu,host=a w=6i 110",
        Shown {
            query: "SELECT COUNT(w),SUM(w) FROM cpu WHERE time >= 60s AND time < 120s GROUP BY time(1m)",
            reply: r#"{"results":[{"series":[{"columns":["time","count","sum"],"name":"cpu","values":[[60,1,6]]}],"statement_id":0}]}"#,
        },
    ),
    // a new point after the others
    (
        "cpu,host=a v=10i 112",
        Shown {
            query: "SELECT COUNT(v),SUM(v),LAST(v) FROM cpu WHERE time >= 60s AND time < 120s GROUP BY time(1m)",
            reply: r#"{"results":[{"series":[{"columns":["time","count","sum","last"],"name":"cpu","values":[[60,7,40,10]]}],"statement_id":0}]}"#,
        },
    ),
    // a point between others
    (
        "cpu,host=a v=10i 103",
        Shown {
            query: "SELECT COUNT(v),SUM(v),LAST(v) FROM cpu WHERE time >= 60s AND time < 120s GROUP BY time(1m)",
            reply: r#"{"results":[{"series":[{"columns":["time","count","sum","last"],"name":"cpu","values":[[60,7,40,3]]}],"statement_id":0}]}"#,
        },
    ),
    // a new cell under three rules
    (
        "cpu,host=b v=2i 3610",
        Shown {
            query: "SELECT COUNT(v),SUM(v) FROM cpu WHERE time >= 3600s AND time < 7200s GROUP BY time(1h)",
            reply: r#"{"results":[{"series":[{"columns":["time","count","sum"],"name":"cpu","values":[[3600,1,2]]}],"statement_id":0}]}"#,
        },
    ),
];

/// Returns the first line whose write has a flaw, with that flaw.
fn first_flaw(trial: &Trial<'_>) -> Option<(&'static str, Flaw)> {
    for (line, shown) in &WRITES {
        if let Some(flaw) = trial.flaw_of(&Write { line: *line }, shown, 0) {
            return Some((*line, flaw));
        }
    }
    None
}

#[test]
fn writes_are_whole_or_not_at_all(rt: HostRuntime) {
    let heap = Refusing::new(rt.alloc());
    for is_open in [false, true] {
        let trial = Trial {
            heap: &heap,
            json: rt.alloc(),
            is_open,
        };
        assert_eq!(rt; first_flaw(&trial), None);
    }
}
