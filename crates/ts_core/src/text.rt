//! Texts: offsets, comparisons, and the faults of all layers with their messages.

mod cursor;
mod decimal;
mod fault_code;
mod fault_text;
mod hashing;
pub(crate) mod strings;

pub use cursor::{after, byte_at};
pub use decimal::{after_minus, are_digits, is_number, whole};
pub use fault_code::FaultCode;
pub use fault_text::{FaultDetail, push_all};
pub use hashing::hash_text;
pub use strings::is_among;
