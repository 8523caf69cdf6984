// A write that is on the disk when it returns.
ghost use Rattle.std.specs.Prelude.{◌+◌, ◌*◌, ◌≤◌, [], ◌∷◌, length};
ghost use Rattle.dev_model.specs.Story.{Write, Sync};
ghost use Rattle.dev_model.specs.Doing.{Made};

use crate::device::Device;
use crate::streams::Failed;

/// Writes the bytes and syncs. It stops at the call that fails.
pub fn write_synced<D: Device>(device: &mut D, at: u64, bytes: &[u8]) -> Result<(), Failed>
    requires { at + length bytes.now ≤ (D.seen device.old).pages * 4096 }
    ensures { Made (Write at bytes.now ∷ Sync ∷ []) (D.seen device.old) (D.seen device.new) result }
{
    device.write(at, bytes)?;
    device.sync()
}
