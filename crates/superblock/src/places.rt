// The numbers of the superblock. Definitions and code take them from here.

/// The version of the format.
pub const FORMAT: u8 = 1;

/// The text at the end of the superblock.
pub const MAGIC: [u8; 8] = *b"LSMSPAT1";

/// The bytes of the superblock that are looked at, its gate included.
pub const SUPERBLOCK_BYTES: u64 = 16;
