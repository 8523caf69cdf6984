// How a slot is written, opened and closed.
ghost use Rattle.std.specs.Prelude.{◌+◌, ◌<◌, ◌≤◌, OnOk};
ghost use Rattle.dev_model.specs.Story.{WhereTold, bytes_of};
ghost use Rattle.dev_model.specs.Doing.{Made};
ghost use Rattle.dev_model.specs.Writes.{WritesWithin};
ghost use Rattle.gate.specs.Calls.{open_calls, close_calls};
ghost use Rattle.comp_dir.specs.Places.{slot_start};
ghost use Rattle.comp_dir.specs.Directory.{directory_of};
ghost use Rattle.comp_dir.specs.State.{IsClosed, IsOpen, IsWritten, IsReady, HasStayed, Becomes, write_calls, with_slot, without_slot};
ghost use Rattle.comp_dir.specs.Resting.{IsAtRest, install_calls};
ghost use Rattle.comp_dir.specs.declared.slots.Slot.{Slot};

use crate::places::{DIRECTORY_PAGES, SLOT_BODY_BYTES, SLOT_BYTES, SLOTS, slot_start};
use crate::slots::Slot;
use crate::spelling::spelled;
use dev_model::{Device, Failed};
use gate::write_gated;

/// Writes the bytes of slot `n` behind its gate, in one write, and doesn't sync. Where the gate is closed the directory stays
/// as it is.
pub fn write_slot<D: Device>(device: &mut D, n: u16, slot: &Slot) -> Result<(), Failed>
    requires below { n < SLOTS }
    requires pages { DIRECTORY_PAGES ≤ (D.seen device.old).pages }
    ensures made { Made (write_calls n slot.now) (D.seen device.old) (D.seen device.new) result }
    ensures within { WhereTold (D.seen device.old).story (λ s. WritesWithin (slot_start n + 1) SLOT_BODY_BYTES s (D.seen device.new).story) }
    ensures stays { WhereTold (D.seen device.old).story (λ s. IsAtRest s → IsClosed n s → WhereTold (D.seen device.new).story (HasStayed s)) }
    ensures written { OnOk result (WhereTold (D.seen device.old).story (λ s. IsClosed n s → WhereTold (D.seen device.new).story (IsWritten n slot.now))) }
{
    device.write(slot_start(n) + 1, &spelled(slot))
}

/// Opens the gate of slot `n` and syncs. The slot's bytes have to be on the disk by then, and the gate closed.
pub fn open_gate<D: Device>(device: &mut D, n: u16) -> Result<(), Failed>
    requires below { n < SLOTS }
    requires pages { DIRECTORY_PAGES ≤ (D.seen device.old).pages }
    ensures made { Made (open_calls (slot_start n)) (D.seen device.old) (D.seen device.new) result }
    ensures within { WhereTold (D.seen device.old).story (λ s. WritesWithin (slot_start n) 1 s (D.seen device.new).story) }
    ensures opens { (slot : Slot) → WhereTold (D.seen device.old).story (λ s. IsAtRest s → IsReady n slot s → Becomes (with_slot n slot (directory_of (bytes_of s))) result s (D.seen device.new).story) }
{
    gate::open_gate(device, slot_start(n))
}

/// Closes the gate of slot `n` and syncs. The gate has to be open.
pub fn close_gate<D: Device>(device: &mut D, n: u16) -> Result<(), Failed>
    requires below { n < SLOTS }
    requires pages { DIRECTORY_PAGES ≤ (D.seen device.old).pages }
    ensures made { Made (close_calls (slot_start n)) (D.seen device.old) (D.seen device.new) result }
    ensures within { WhereTold (D.seen device.old).story (λ s. WritesWithin (slot_start n) 1 s (D.seen device.new).story) }
    ensures closes { WhereTold (D.seen device.old).story (λ s. IsAtRest s → IsOpen n s → Becomes (without_slot n (directory_of (bytes_of s))) result s (D.seen device.new).story) }
{
    gate::close_gate(device, slot_start(n))
}

/// Writes slot `n`, whose gate is closed, and opens it: a write, a sync, a write and a sync. It stops at the call that fails.
pub fn install_slot<D: Device>(device: &mut D, n: u16, slot: &Slot) -> Result<(), Failed>
    requires below { n < SLOTS }
    requires pages { DIRECTORY_PAGES ≤ (D.seen device.old).pages }
    ensures made { Made (install_calls n slot.now) (D.seen device.old) (D.seen device.new) result }
    ensures within { WhereTold (D.seen device.old).story (λ s. WritesWithin (slot_start n) SLOT_BYTES s (D.seen device.new).story) }
    ensures installs { WhereTold (D.seen device.old).story (λ s. IsAtRest s → IsClosed n s → Becomes (with_slot n slot.now (directory_of (bytes_of s))) result s (D.seen device.new).story) }
{
    write_gated(device, slot_start(n), &spelled(slot))
}
