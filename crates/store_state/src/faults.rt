// Why no job begins.

/// Why no job was begun.
#[derive(Clone, Copy, Debug, PartialEq, Eq)]
pub enum BeginFault {
    /// A job was begun before, and its component isn't installed.
    Held,
    /// There is no room: so many pages side by side are needed, and the longest free run has so many. Where there are as many
    /// components as there may be, or no slot is closed, 1 is needed and there are 0.
    Full { need: u32, longest: u32 },
    OutOfMemory,
}
