//! Parts of the crates of tests: an allocator that refuses one request, devices over memory that fail at one call,
//! counts at their limit, and a seed of hashes. It is a library, so that it is proved once for all of them.
#![tactic(auto)]

mod counts;
mod devices;
mod refusing;
mod seed;

pub use counts::{all_but_one, merged};
pub use devices::{Failure, NEVER, PieceReader, PieceWriter};
pub use refusing::Refusing;
pub use seed::fixed_seed;
