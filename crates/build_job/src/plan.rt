// What is settled when a job begins.

use space_map::Extent;

/// Where the component of a job is to stand.
#[derive(Clone, Copy, Debug, PartialEq, Eq)]
pub struct JobPlan {
    /// The number of its index, as a slot of the directory has it: 0 is the primary.
    pub index: u8,
    /// The pages of its image.
    pub extent: Extent,
    /// The number of the slot that is to describe it.
    pub slot: u16,
}

/// The writes that a component has, by their numbers, from the first to the last.
#[derive(Clone, Copy, Debug, PartialEq, Eq)]
pub struct Interval {
    /// The number of the first one.
    pub first_lsn: u64,
    /// The number of the last one.
    pub last_lsn: u64,
}
