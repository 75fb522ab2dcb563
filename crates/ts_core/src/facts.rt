//! Times with their units, durations, names, and facts.

pub(crate) mod duration;
mod fact;
mod field_name;
mod key;
mod time;
mod time_unit;

pub use duration::{with_digit, with_units};
pub use fact::Fact;
pub use field_name::FieldName;
pub use key::{Key, KeyRef};
pub use time::{GREATEST_TIME, LEAST_TIME, Time};
pub use time_unit::TimeUnit;
