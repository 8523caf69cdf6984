//! Which pages of a device are reserved: extents, taken first fit.
#![tactic(auto)]

mod history;
mod space;

pub use history::first_fit_stays_near;
pub use space::{Extent, FIRST_DATA_PAGE, LEAST_PAGES, MOST_PAGES, SpaceFault, SpaceMap};
