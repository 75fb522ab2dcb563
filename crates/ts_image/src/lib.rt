//! Images: the data of a store as bytes, and back. An image has settings, marks, series with their raw points, and the
//! frozen parts of cells. Depends on ts_core, on ts_line for valid names, and on ts_store, whose builder creates the
//! store.
//!
//! Proved: each image is read as its data and only that. Other bytes are refused with the offset of the first field at
//! fault. An image that contradicts itself is refused; that of a store with a history never is. A loaded store has the
//! data of its image, and stands for each history that the saved store stood for. A save fails only if a write fails
//! or when out of memory.
//!
//! A load codes the points of a column as it reads them, and hands the column to the store as it is.
//!
//! ```text
//! TSIM version
//! raw_duration count { rule }                      rule: name measurement interval offset duration count { tag }
//! raw_mark { low_index }                           one per rule
//! run_is_open                                      one byte, from version 2 on
//! accepted                                         number of accepted values
//! count { series }                                 series: measurement count { tag value } count { column }
//!                                                  column: field waits count { time value }; `waits` from version 2 on
//! { count { cell } }                               per rule; cell: index field { value } count sum
//!                                                  min max first_time first last_time last
//! ```
//!
//! Numbers are big-endian, of 1, 4, 8 or 16 bytes; a text is its length and its bytes (specs/Images).
//!
//! ```text
//! save(alloc, &store, &mut sink)?;            // the store's image is written; or a SaveFault
//! let store = load(alloc, seed, &mut source)?;      // a Store; or a LoadFault
//! ```
#![tactic(auto)]

mod build;
mod check;
mod field_fault;
mod image_loading;
mod laws;
mod load_fault;
mod read;
mod save_fault;
mod saving;
mod version;
mod write;

pub use image_loading::{load, load_within};
pub use laws::{
    images_are_exact, images_of_version_1_are_loaded, reloads, saved_images_are_possible,
};
pub use load_fault::LoadFault;
pub use read::cells::{CellKeyParts, CellParts, ExtremesParts, MarksParts};
pub use read::image::ImageParts;
pub use read::points::PointsParts;
pub use read::rules::{RuleParts, SettingsParts};
pub use read::series::{ColumnParts, KeyParts, SeriesParts};
pub use save_fault::SaveFault;
pub use saving::save;
pub use version::Version;
