//! The image of a list of points as an R-tree on pages: how it is written page by page, and how the rows inside a rectangle
//! are found again in pages that are lent.
//!
//! The list is packed as it stands, leaf after leaf (Kamel and Faloutsos, "On packing R-trees", 1993, pack it in the order of
//! the Hilbert curve).
#![tactic(auto)]

mod bounds;
mod in_page;
mod levels;
mod load;
mod rows;
mod walk;

pub use load::{load_page, pages_for};
pub use rows::RtRow;
pub use walk::search;
