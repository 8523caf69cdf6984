//! Formatting: what makes a device of any bytes an empty store.
#![tactic(auto)]

mod examples;
mod format;
mod gates;

pub use examples::{empty_stores, worked_formats};
pub use format::format_dev;
