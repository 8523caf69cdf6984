// What happens at a store, as plain data by which contracts speak. No value of `Event` or `Action` is made.

use build_job::BuildJob;
use dev_model::calls::DeviceCall;
use geo_base::{IndexKind, Note, Point, Rect, Row};
use std::collections::LinkedList;
use wal_log::LogOp;

/// A write of the store: it lays a row at its key, or takes away what is there.
pub type WriteOp = LogOp;

/// Why a call was refused.
#[derive(Clone, Copy, Debug, PartialEq, Eq)]
pub enum Refusal {
    /// A call of the device failed in this call.
    Fault,
    /// A write or a sync of the device failed earlier, so nothing is written any more. `faults` is the device's count of
    /// faults right after that.
    Stopped { faults: u64 },
    /// There is no room: so many pages are needed, and the longest free run has so many. Both are 0 where the numbers of
    /// writes are used up.
    Full { need: u32, longest: u32 },
    /// So many writes came since the last freeze, and no more may. The call may be made again after the next one.
    Again { ops: u32 },
    /// The store has no such index.
    NoIndex,
    /// The device gave a page that isn't well formed for its place.
    Damaged { page: u32 },
    /// Memory was refused.
    OutOfMemory,
}

/// What an answered write tells.
#[derive(Clone, Copy, Debug)]
pub struct Wrote {
    /// The number of the answer in the order of all answers.
    pub seq: u64,
    /// What stood at the key.
    pub old: Option<(Point, Note)>,
    /// How many logged writes came since the last freeze, with this one.
    pub ops: u32,
    /// The device's clock from which on each crash leaves the write, or 0 where nothing had to be logged.
    pub ack: u64,
}

/// What an answered get tells: the number of the answer, and the row.
#[derive(Clone, Copy, Debug)]
pub struct Got {
    pub seq: u64,
    pub row: Option<Row>,
}

/// What a store tells about itself.
#[derive(Clone, Copy, Debug, PartialEq, Eq)]
pub struct Look {
    /// How many logged writes came since the last freeze.
    pub ops: u32,
    /// Whether a set of components is frozen and not flushed yet.
    pub frozen: bool,
    /// How many lanes are open.
    pub lanes: u64,
    /// The number of the last write that all indexes have on disk.
    pub placed: u64,
    /// The number of the last write.
    pub lsn: u64,
}

/// What an answered region tells: the number of the answer, and the rows inside.
pub struct Found {
    pub seq: u64,
    pub rows: LinkedList<Row>,
}

/// A job as its owner has it: whose it is, and its value, that is the rows, where they go, which writes they are, and how many
/// pages are written.
pub struct OwnedJob {
    pub owner: u64,
    pub job: BuildJob,
}

/// A call with its arguments and its answer.
pub enum Action {
    Write(WriteOp, Result<Wrote, Refusal>),
    Get(u64, Result<Got, Refusal>),
    /// The number of the answer, and the number of rows.
    Count(u64, u64),
    Look(Look),
    Region(IndexKind, Rect, Result<Found, Refusal>),
    /// At how many writes the active list is to be frozen, and whether it was.
    Freeze(u32, Result<bool, Refusal>),
    /// The job that was begun, if there was something to do.
    Begin(Result<Option<OwnedJob>, Refusal>),
    /// The job of which the next page was written, as it was before.
    JobWrite(OwnedJob, Result<(), Refusal>),
    /// The job whose component was installed.
    Install(OwnedJob, Result<(), Refusal>),
}

/// One call of a store: by whom it was made, what was answered, and what it did on the device.
pub struct Event {
    pub owner: Option<u64>,
    pub action: Action,
    /// The device calls that succeeded.
    pub device_calls: LinkedList<DeviceCall>,
    /// A write or a sync of the device failed in it.
    pub write_failed: bool,
    /// The device's count of faults before the call and after it.
    pub faults_before: u64,
    pub faults_after: u64,
    /// The device's clock after it.
    pub clock_after: u64,
}
