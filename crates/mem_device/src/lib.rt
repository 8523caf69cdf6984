//! Streams and a device in memory, which fail where they are told to: for tests, and for what is tried without a file.
#![tactic(auto)]

mod memory;
mod memory_streams;
mod record;
mod torn;

pub use memory::{ImageFault, MemDevice};
pub use memory_streams::{MemSink, MemSource};
pub use torn::Torn;
