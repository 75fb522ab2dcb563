//! Aggregates of points, merging them and taking them apart, means, and buckets of time.

mod aggregate;
mod bucket;
mod fold;
mod means;
mod partial;
mod remainder;

pub use aggregate::{Agg, Extremes, MAX_COUNT, times};
pub use bucket::{Bucket, Buckets, bucket_index, first_index, index_of};
pub use fold::{aggregate_points, fold_points};
pub use means::{Frac, mean};
pub use partial::{Partial, merge_within};
pub use remainder::Remainder;
