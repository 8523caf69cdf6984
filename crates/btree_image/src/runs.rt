//! The pages of a level that a range of keys meets.

/// Places of a level, from `first` up to `end`, which it does not hold.
#[derive(Clone, Copy)]
pub(crate) struct Run {
    pub(crate) first: u64,
    pub(crate) end: u64,
}
