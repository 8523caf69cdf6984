// How the bytes behind a gate are written, and how a gate is opened and closed. Each call stops at the call of the device that
// fails.
ghost use Rattle.std.specs.Prelude.{◌≢◌, ◌+◌, ◌*◌, ◌<◌, ◌≤◌, ◌^◌, length};
ghost use Rattle.dev_model.specs.Story.{WhereTold, bytes_of, IsSettled};
ghost use Rattle.dev_model.specs.Doing.{Made};
ghost use Rattle.dev_model.specs.Moments.{LeavesOnly};
ghost use Rattle.gate.specs.Calls.{gated_calls, open_calls, close_calls};
ghost use Rattle.gate.specs.Gates.{IsGated};

use dev_model::{Device, Failed, write_synced};

/// What an open gate holds. Any other byte closes it.
pub const OPEN: u8 = 165;

/// What is written to close a gate.
pub const CLOSED: u8 = 0;

/// Writes these bytes behind the gate at `at`, which is closed, syncs, opens the gate and syncs.
pub fn write_gated<D: Device>(device: &mut D, at: u64, body: &[u8]) -> Result<(), Failed>
    requires pages { at + 1 + length body.now ≤ (D.seen device.old).pages * 4096 }
    requires fits { at + 1 < 2 ^ 64 }
    ensures made { Made (gated_calls at body.now) (D.seen device.old) (D.seen device.new) result }

    // Where the gate is closed on the disk, each crash at each moment of the call leaves it closed, or open with these bytes.
    ensures any_moment { WhereTold (D.seen device.old).story (λ s. bytes_of s at ≢ OPEN → IsSettled s.past at → LeavesOnly s (D.seen device.new).story (IsGated at body.now s)) }
{
    write_synced(device, at + 1, body)?;
    open_gate(device, at)
}

/// Opens the gate at `at` and syncs. The bytes behind it have to be on the disk by then.
pub fn open_gate<D: Device>(device: &mut D, at: u64) -> Result<(), Failed>
    requires { at + 1 ≤ (D.seen device.old).pages * 4096 }
    ensures { Made (open_calls at) (D.seen device.old) (D.seen device.new) result }
{
    write_synced(device, at, &[OPEN])
}

/// Closes the gate at `at` and syncs. It has to be open: one that is closed may stand before anything, and while it is written
/// a crash may open it.
pub fn close_gate<D: Device>(device: &mut D, at: u64) -> Result<(), Failed>
    requires { at + 1 ≤ (D.seen device.old).pages * 4096 }
    ensures { Made (close_calls at) (D.seen device.old) (D.seen device.new) result }
{
    write_synced(device, at, &[CLOSED])
}
