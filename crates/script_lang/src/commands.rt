// What a script says and what is answered.

use geo_base::{IndexKind, ItemList, Note, Point, Rect, Row};
use thiserror::Error;

/// A command of a script.
#[derive(Debug, Drop)]
pub enum Command {
    /// Stands the row at its key.
    Put(Row),
    /// Takes out what stands at the key.
    Del(u64),
    /// Asks what stands at the key.
    Get(u64),
    /// Asks how many keys there are.
    Count,
    /// Asks for the rows in a rectangle, edges included, by an index.
    Region(IndexKind, Rect),
    /// Puts the rows that are only in memory and in the log into a component on the device. Nothing is told of it.
    Flush,
}

pub type CommandList = ItemList<Command>;

pub type LaneList = ItemList<CommandList>;

pub type RowList = ItemList<Row>;

/// The commands before the lanes, those of each lane, and those after them.
#[derive(Drop)]
pub struct Script {
    pub setup: CommandList,
    pub lanes: LaneList,
    pub after: CommandList,
}

/// Why a script can't be read.
#[derive(Debug, Drop, Error)]
pub enum ScriptFault {
    #[error("the source failed")]
    Source,
    #[error("line {0} is bad")]
    BadLine(u64),
    #[error("the script is too long")]
    TooLong,
    #[error("out of memory")]
    OutOfMemory,
}

/// The answer of a command.
#[derive(Drop)]
pub enum Answer {
    /// The key of the put is new.
    PutNew,
    /// What stood at the key of the put.
    PutOld(Point, Note),
    /// Nothing stood at the key of the del.
    DelNone,
    /// What stood at the key of the del.
    DelOld(Point, Note),
    /// Nothing stands at the key of the get.
    GetNone,
    /// What stands at the key of the get.
    GetOld(Point, Note),
    /// How many keys there are.
    Counted(u64),
    /// The rows of a region, ascending by key.
    Rows(RowList),
}
