//! The shape that trees on pages have in common: how many pages each level has and where they stand.
#![tactic(auto)]

mod levels;

pub use levels::{Level, Shape, Spot, TreeRef};
