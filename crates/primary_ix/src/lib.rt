//! The primary index: the rows of the table by key, in memory and in components on disk.
#![tactic(auto)]

mod bytes;
mod component;
mod laws;
mod living;
mod lookups;
mod rows;

pub use component::{PrimComp, PrimView, image_page, merged, need};
pub use laws::{lists_and_trees_agree, placed_rows_fit, table_rows_fit, written_rows_fit};
pub use living::living_rows;
pub use lookups::{lookup, lookup_disk};
pub use rows::{PrimRow, change};
