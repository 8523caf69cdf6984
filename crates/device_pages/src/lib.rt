//! Pages of a device, lent for reading.
#![tactic(auto)]

pub mod laws;
mod lending;

pub use lending::DevicePages;
