//! The entries of an index that are only in memory, and shared views of them.
#![tactic(auto)]

mod component;
mod search;
mod view;

pub use component::MemComp;
pub use view::MemView;
