//! Executes checked plans over a view of a store, and fills buckets without data. Depends on ts_store's `View`, on the
//! plans that ts_check checks, and on ts_core, ts_raw and ts_ql.
//!
//! Proved: `execute` returns the answer to the plan's query over all points ever accepted, whatever history the view
//! shows. It returns `Stale` exactly if the plan is stale; its only other error is `OutOfMemory`. `execute_selected`
//! promises the same for the values of the query's functions alone, and computes no others of raw points.
//!
//! An example, over a store and a plan that was checked under its settings and marks:
//!
//! ```text
//! let table = execute_selected(alloc, &store, &checked)?;
//! let rows = fill(table, checked.query().fill());
//! for group in rows.groups() {
//!     // group.values.iter() gives the values of the tags that the query groups by
//!     for row in group.rows {
//!         // row.start() is the start of its bucket, row.values() has one value per column
//!     }
//! }
//! ```
//!
//! To add a function: state the parts of an aggregate that it needs, in aggregate_parts.rt and in `suffice` of
//! specs/Selections.antt. ts_core's `Function` computes its value. To keep other parts: add a `Fold`. To add a fill
//! option that ts_core's `Fill` has: touch filled.rt, and `row_content` and `content_rows` in specs/Fillings.antt.
#![tactic(auto)]

mod aggregate_parts;
mod buckets;
mod cell_piece;
mod column;
mod conditions;
mod counting;
mod executor;
mod fault;
mod filled;
mod filling;
mod fold;
mod group_values;
mod groups;
mod joined;
mod pieces;
mod raw_piece;
mod rows;
mod scan;
mod selection;
mod set_values;
mod slot;
mod table;
mod tag_conditions;

pub use counting::count_points;
pub use executor::{execute, execute_selected};
pub use fault::ExecFault;
pub use filled::{FilledRow, FilledRows, Values};
pub use filling::{FilledGroup, FilledGroups, Rows, fill};
pub use group_values::{GroupValues, GroupValuesIter};
pub use groups::GroupRows;
pub use table::Table;
