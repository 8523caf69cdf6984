//! The opening of a store: what an image on a device says of it, and the lists that it begins with.
#![tactic(auto)]

mod formatted;
mod opening;
mod replay;
mod slots;

pub use opening::{OpenFault, OpenedState, open_state};
