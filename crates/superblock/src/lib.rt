//! The superblock: the first sixteen bytes of a device, how they are written and how they are read.
#![tactic(auto)]

mod bytes;
mod places;
mod reading;
mod writing;

pub use bytes::superblock_bytes;
pub use places::{FORMAT, MAGIC, SUPERBLOCK_BYTES};
pub use reading::read_superblock;
pub use writing::{close_superblock_if, is_superblock_open, write_superblock};
