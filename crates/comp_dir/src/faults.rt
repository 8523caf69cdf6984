// Why a directory can't be read.

/// Why a directory can't be read.
#[derive(Clone, Copy, Debug, PartialEq, Eq)]
pub enum DirFault {
    /// A call of the device failed.
    Failed,
    /// This open slot is the lowest that breaks a rule.
    BadSlot(u16),
    /// Memory was refused.
    OutOfMemory,
}
