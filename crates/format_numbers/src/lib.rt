//! The numbers of the format that more than one crate needs, each named once; `docs/FORMAT.md` says what stands where. The
//! numbers that one part alone needs are constants of its own crate.
#![tactic(auto)]

/// The byte where the log begins.
pub const LOG_START: u64 = 36_864;

/// The first page of data, right behind the log.
pub const FIRST_DATA_PAGE: u32 = 265;
