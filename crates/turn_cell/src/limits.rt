//! What a cell has room for.

/// How many parts the passes of a cell have together. A pass has at least one, and so there are no more passes than parts.
pub const ALL_PARTS: u64 = 1 << 32;

/// How many turns a cell serves. A billion a second would take it two years.
pub const MOST_TURNS: u64 = 1 << 56;
