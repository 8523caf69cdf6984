//! The store as a machine of events: what an event needs, what it does, what a store stands for, what commands are as events,
//! and what a crash leaves. These are definitions, laws about them, and plain data that code shares with them.
#![tactic(auto)]

mod events;
mod examples;
mod laws;

pub use events::{Action, Event, Found, Got, Look, OwnedJob, Refusal, WriteOp, Wrote};
pub use examples::{refused_runs, worked_commands, worked_damages, worked_runs};
pub use laws::events_follow_one_another;
