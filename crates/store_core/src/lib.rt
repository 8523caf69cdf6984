//! A store on a device that logs each write before it answers, and flushes its rows into components.
#![tactic(auto)]

mod flushing;
mod opening;
mod reading;
mod region;
mod store;
mod writing;

pub use region::RegionRows;
pub use store::Store;
