//! A flush of the primary as a value: which pages of the device are to be written with which bytes, one after the other,
//! and the slot that describes the component.
#![tactic(auto)]

mod job;
mod laws;
mod plan;

pub use job::{BuildJob, JobStep};
pub use laws::{each_page_has_a_place, written_pages_show_the_list};
pub use plan::{Interval, JobPlan};
