// The superblock's bytes behind its gate.
ghost use Rattle.std.specs.Prelude.{◌≡◌};
ghost use Rattle.superblock.specs.Superblock.{superblock_bytes};

use crate::places::{FORMAT, MAGIC};
use geo_base::IndexSet;

/// The bytes of the superblock behind its gate: the version of the format, the declared indexes, the pages and a text.
pub fn superblock_bytes(indexes: IndexSet, pages: u32) -> [u8; 15]
    ensures { result ≡ superblock_bytes indexes pages }
{
    let mut bytes = [0; 15];
    bytes[0] = FORMAT;
    bytes[1] = indexes.bits();
    bytes[3..7].copy_from_slice(&pages.to_be_bytes());
    bytes[7..].copy_from_slice(&MAGIC);
    bytes
}
