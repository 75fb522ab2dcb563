//! Plans queries: chooses the pieces that answer a query, under a store's settings and marks. Depends on ts_core, ts_ql
//! and ts_check.
//!
//! Proved: `plan` returns the one plan that the definitions determine, and that plan is valid. It returns
//! `TooManyBuckets` exactly if there are too many buckets to search, and `NoPlan` exactly if no list of pieces is
//! valid.
//!
//! ```text
//! let certificate = plan(alloc, &settings, &marks, &query)?;
//!     // such as rollup m1 0 120000000000, raw 120000000000 180000000000
//! check(alloc, &settings, &marks, &query, &certificate)
//!     // Ok, or OutOfMemory
//! ```
//!
//! To choose another of the valid plans: touch ts_core's specs/plans/Plans.antt, which defines the choice. Then
//! steps.rt lists single buckets, prune.rt prunes those that can't reach the end, and walk.rt takes one after another
//! and merges neighbours.
#![tactic(auto)]

mod fault;
mod instant;
mod matching;
mod planner;
mod prune;
mod steps;
mod too_many;
mod walk;

pub use fault::{PlanError, PlanFault};
pub use planner::plan;
