// The gates that are closed before anything else is written.
ghost use Rattle.std.specs.Prelude.{◌+◌, ◌*◌, ◌≤◌};
ghost use Rattle.dev_model.specs.Doing.{Made};
ghost use Rattle.device_format.specs.Planning.{close_from, close_gates, gate_at};

use comp_dir::{DIRECTORY_START, SLOT_BYTES, SLOTS};
use dev_model::{Device, Failed};
use format_numbers::{FIRST_DATA_PAGE, LOG_START};
use gate::CLOSED;
use wal_log::SEGMENT_BYTES;

/// Closes the gate of each slot and of each segment's header. Nothing is read before: the superblock is closed, so no opening
/// looks at them.
pub fn close_gates<D: Device>(device: &mut D) -> Result<(), Failed>
    requires { FIRST_DATA_PAGE ≤ (D.seen device.old).pages }
    ensures { Made close_gates (D.seen device.old) (D.seen device.new) result }
{
    close_each(device, DIRECTORY_START, SLOT_BYTES, SLOTS as u64)?;
    close_each(device, LOG_START, SEGMENT_BYTES, 4)?;
    device.sync()
}

// Closes so many gates before the data, of which the first stands at this byte and each next one a step behind.
fn close_each<D: Device>(device: &mut D, start: u64, step: u64, count: u64) -> Result<(), Failed>
    requires apart { 1 ≤ step }
    requires before { start + step * count ≤ FIRST_DATA_PAGE * 4096 }
    requires pages { FIRST_DATA_PAGE ≤ (D.seen device.old).pages }
    ensures { Made (close_from (gate_at start step) 0 count) (D.seen device.old) (D.seen device.new) result }
{
    for gate in 0..count {
        device.write(start + step * gate, &[CLOSED])?;
    }
    Ok(())
}
