//! Calls of a device, by which contracts speak. No value of these types is made.

/// What a device call did: the place and the length of a read or a write, or a sync.
pub enum DeviceAct {
    ReadAt(u64, u64),
    WriteAt(u64, u64),
    SyncAll,
}

/// A device call that succeeded, and the clock right after it.
pub struct DeviceCall {
    pub act: DeviceAct,
    pub clock: u64,
}
