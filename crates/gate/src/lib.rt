//! A place of a device behind a gate: a byte that says whether the bytes behind it count.
#![tactic(auto)]

mod gates;

pub use gates::{CLOSED, OPEN, close_gate, open_gate, write_gated};
