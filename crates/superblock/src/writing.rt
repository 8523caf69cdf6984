// How a device becomes one without a store, and one with a store.
ghost use Rattle.std.specs.Prelude.{◌≤◌, ◌∷◌, [], IfOk};
ghost use Rattle.dev_model.specs.Story.{WhereTold, Read};
ghost use Rattle.dev_model.specs.Doing.{Made};
ghost use Rattle.superblock.specs.Calls.{TellsGate, close_superblock_if, write_superblock};

use crate::bytes::superblock_bytes;
use dev_model::{Device, Failed};
use format_numbers::FIRST_DATA_PAGE;
use gate::{OPEN, close_gate, write_gated};
use geo_base::IndexSet;

/// Reads whether the superblock's gate is open.
pub fn is_superblock_open<D: Device>(device: &mut D) -> Result<bool, Failed>
    requires { FIRST_DATA_PAGE ≤ (D.seen device.old).pages }
    ensures made { Made (Read 0 1 ∷ []) (D.seen device.old) (D.seen device.new) result }
    ensures is { IfOk result (λ is_open. WhereTold (D.seen device.old).story (TellsGate is_open)) }
{
    let mut gate = [0];
    device.read(0, &mut gate)?;
    Ok(gate[0] == OPEN)
}

/// Closes the superblock's gate where it is open. What is closed isn't written closed again: while it is written a crash
/// may leave anything there, and so open it.
pub fn close_superblock_if<D: Device>(device: &mut D, is_open: bool) -> Result<(), Failed>
    requires { FIRST_DATA_PAGE ≤ (D.seen device.old).pages }
    ensures { Made (close_superblock_if is_open) (D.seen device.old) (D.seen device.new) result }
{
    if is_open {
        return close_gate(device, 0);
    }
    Ok(())
}

/// Writes the superblock, and opens its gate once the rest is on the disk.
pub fn write_superblock<D: Device>(device: &mut D, indexes: IndexSet) -> Result<(), Failed>
    requires { FIRST_DATA_PAGE ≤ (D.seen device.old).pages }
    ensures { Made (write_superblock indexes (D.seen device.old).pages) (D.seen device.old) (D.seen device.new) result }
{
    let pages = device.pages();
    write_gated(device, 0, &superblock_bytes(indexes, pages))
}
