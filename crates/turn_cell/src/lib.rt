//! A cell that serves its callers one after another, in the order of their tickets. Each turn adds one entry to one history.
#![tactic(auto)]

mod cell;
mod limits;
mod pass;
mod passes;
mod plays;
mod steps;
mod turn;
pub mod turned;
pub mod view;
mod waiting;

pub use cell::TurnCell;
pub use limits::{ALL_PARTS, MOST_TURNS};
pub use pass::Pass;
