//! Lists: growth by an eighth, indices of 32 bits, and hash chains.

mod chains;
mod numbers;
mod reserving;

pub use chains::Chains;
pub use numbers::next_id;
pub use reserving::reserve_eighth;
