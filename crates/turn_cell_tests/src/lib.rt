//! A counter that callers use in turn: the smallest value of a turn cell, with what two and many lanes make of it.
#![tactic(auto)]

mod counter;
mod crowds;
mod lanes;

pub use counter::{Count, Counter, Entry, NewOwner};
pub use crowds::crowd;
pub use lanes::two;

#[cfg(test)]
mod tests;
