//! The commands of one owner on a store: each makes its own event, and the upkeep that it needs or that is due after it.
#![tactic(auto)]

mod answers;
mod upkeep;
mod writes;

pub use answers::{count, get, region};
pub use upkeep::{FLUSH_AT, flush, upkeep_is_due_at_1024};
pub use writes::{Written, write};
