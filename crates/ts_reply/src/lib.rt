//! Answers InfluxQL texts in JSON, and counts points. Depends on ts_ql, ts_check, ts_plan and ts_exec, which parse,
//! check, plan and execute queries, on ts_core and ts_store, and on serde_json and jiff.
//!
//! Proved: a reply is, byte for byte, the JSON that specs/Replies defines. Over a store, it is that of all facts ever
//! accepted (specs/Answering), by the queries' own plans or by a given certificate. Explanations show the plans that
//! are followed (specs/Explaining). A count is of all facts ever accepted (specs/Counts).
//!
//! An example, over a store at time `now`. A certificate, if given, replaces the plan:
//!
//! ```text
//! let text = "SELECT MAX(f) FROM m WHERE time >= 0 AND time < 1m GROUP BY time(1m)";
//! let reply = answer(alloc, json, &store, now, text, None, Epoch::Text)?;
//! // reply.body is the JSON
//! // reply.good is false if the text has an error, or if a certificate is given with several queries
//! ```
//!
//! To add an aggregate: touch nothing here, as columns have ts_core's `Value`. To add a kind of value: touch value.rt,
//! and `value_data` in specs/Replies.antt. To add a unit of time: touch epoch.rt and specs/Epochs.antt.
#![tactic(auto)]

mod answering;
mod clock;
mod counting;
mod epoch;
mod explaining;
mod faults;
mod reply;
mod results;
mod row_times;
mod rows;
mod series;
mod text;
mod value;

pub use answering::{QueryReply, answer};
pub use clock::time_text;
pub use counting::{CountError, count};
pub use epoch::Epoch;
pub use explaining::explain;
pub use reply::{Outcome, reply_json};
