// What the superblock says.
ghost use Rattle.std.specs.Prelude.{◌≡◌, ◌≤◌, ◌∷◌, [], slice_index, drop, IfOk};
ghost use Rattle.std.specs.Bool.{OnTrue, OnFalse};
ghost use Rattle.dev_model.specs.Story.{WhereTold, Read, bytes_of, IsCalmAt};
ghost use Rattle.dev_model.specs.Doing.{Made};
ghost use Rattle.superblock.specs.Superblock.{superblock_bytes, IsLookedInSuperblock};
ghost use Rattle.superblock.specs.Saying.{Says, SaysOf};

use crate::bytes::superblock_bytes;
use crate::places::SUPERBLOCK_BYTES;
use dev_model::{Device, Failed};
use format_numbers::FIRST_DATA_PAGE;
use gate::OPEN;
use geo_base::IndexSet;

// The gate is open, and these are the bytes behind it.
fn is_spelled(bytes: &[u8; 16], indexes: IndexSet, pages: u32) -> bool
    ensures yes { OnTrue result ((slice_index bytes.now 0 ≡ OPEN) × (drop 1 bytes.now ≡ superblock_bytes indexes pages)) }
    ensures no { OnFalse result (slice_index bytes.now 0 ≡ OPEN → drop 1 bytes.now ≡ superblock_bytes indexes pages → ⊥) }
{
    bytes[0] == OPEN && &bytes[1..] == &superblock_bytes(indexes, pages)[..]
}

// The declared indexes, where these are the bytes of a formatted device.
fn indexes_of(bytes: &[u8; 16], pages: u32) -> Option<IndexSet>
    ensures { SaysOf pages bytes.now result }
{
    match IndexSet::of_bits(bytes[2]) {
        Some(indexes) if is_spelled(bytes, indexes, pages) => Some(indexes),
        _ => None,
    }
}

/// Reads the superblock: the declared indexes where the device is formatted, and `None` where it isn't.
pub fn read_superblock<D: Device>(device: &mut D) -> Result<Option<IndexSet>, Failed>
    requires { FIRST_DATA_PAGE ≤ (D.seen device.old).pages }
    ensures made { Made (Read 0 SUPERBLOCK_BYTES ∷ []) (D.seen device.old) (D.seen device.new) result }
    ensures says { IfOk result (λ found. WhereTold (D.seen device.old).story (λ s. IsCalmAt (IsLookedInSuperblock (bytes_of s)) s →
        Says (D.seen device.old).pages (bytes_of s) found)) }
{
    let mut bytes = [0; 16];
    device.read(0, &mut bytes)?;
    Ok(indexes_of(&bytes, device.pages()))
}
