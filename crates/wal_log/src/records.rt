// What the log remembers of a write.

use geo_base::{Point, Row};

/// A write. It lays a row at its key, or takes away what is there.
#[derive(Clone, Copy, Debug)]
pub enum LogOp {
    /// Lays this row at its key.
    Put(Row),
    /// Takes away the row of this key.
    Del(u64),
}

/// A write with its number in the order of all writes, and the point that its key had before.
#[derive(Clone, Copy, Debug)]
pub struct Record {
    /// The number, from 1 on.
    pub lsn: u64,
    /// The write.
    pub op: LogOp,
    /// The point that the key had before, if it had one.
    pub old_point: Option<Point>,
}
