//! The image of a list of rows as a B+-tree on pages: how it is written page by page, and how rows are found again in pages
//! that are lent.
#![tactic(auto)]

mod descend;
mod gather;
mod hand;
mod in_page;
mod levels;
mod load;
mod narrow;
mod over_levels;
mod rows;
mod runs;

pub use descend::find;
pub use load::{load_page, pages_for};
pub use over_levels::scan;
pub use rows::TreeRow;
