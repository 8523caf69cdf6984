//! What the store sees of the outside: streams of bytes, a device and its pages, with counts of faults, and which
//! pages a reader asked for.
#![tactic(auto)]

pub mod calls;
mod device;
mod durable;
mod page_faults;
mod pages;
mod sending;
mod std_streams;
mod streams;

pub use device::Device;
pub use durable::write_synced;
pub use page_faults::PageFault;
pub use pages::Pages;
pub use sending::send_all;
pub use std_streams::{ReadSource, WriteSink};
pub use streams::{Failed, Sink, Source};
