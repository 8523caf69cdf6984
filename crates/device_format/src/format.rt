// The whole of a format, in its order.
ghost use Rattle.std.specs.Prelude.{◌≤◌, OnOk};
ghost use Rattle.dev_model.specs.Story.{WhereTold, IsSettled};
ghost use Rattle.dev_model.specs.Doing.{Made};
ghost use Rattle.dev_model.specs.Moments.{LeavesOnly};
ghost use Rattle.device_format.specs.Planning.{Formats, write_calls};
ghost use Rattle.device_format.specs.Formatting.{IsFreshStore, HasNoStore, IsBeforeOrAfter, IsNoneOrEmpty};

use crate::gates::close_gates;
use dev_model::{Device, Failed};
use format_numbers::{FIRST_DATA_PAGE, LOG_START};
use geo_base::IndexSet;
use superblock::{close_superblock_if, is_superblock_open, write_superblock};
use wal_log::start_segment;

/// Makes the device an empty store with these declared indexes, whatever bytes it has.
///
/// The superblock's gate is closed first, where it is open, and opened last. So a crash leaves what was there, then no store,
/// and in the end the empty one. `Failed` comes where a call of the device failed, and that call was the last: any of the
/// three may be there then, and the device may be formatted again. No memory is taken.
pub fn format_dev<D: Device>(device: &mut D, indexes: IndexSet) -> Result<(), Failed>
    requires pages { FIRST_DATA_PAGE ≤ (D.seen device.old).pages }

    // The calls that were made, in their order.
    ensures made { Formats indexes (D.seen device.old) (D.seen device.new) result }

    // After `Ok` the empty store is there, whatever was before.
    ensures formatted { OnOk result (WhereTold (D.seen device.new).story (IsFreshStore (D.seen device.old).pages indexes)) }

    // Where the superblock's gate was on the disk, each crash at each moment of the call leaves all that was on the disk, or no
    // store, or the empty one.
    ensures any_moment { WhereTold (D.seen device.old).story (λ s. IsSettled s.past 0 → LeavesOnly s (D.seen device.new).story
        (IsBeforeOrAfter (D.seen device.old).pages indexes s)) }

    // Where each crash before the call left no store, each crash at each moment of the call leaves none, or the empty one. What
    // stands elsewhere doesn't matter, nor whether it is on the disk.
    ensures over_none { WhereTold (D.seen device.old).story (λ s. HasNoStore s → LeavesOnly s (D.seen device.new).story
        (IsNoneOrEmpty (D.seen device.old).pages indexes)) }
{
    let is_open = is_superblock_open(device)?;
    write_store(device, is_open, indexes)
}

/// Writes the empty store, over a superblock that is open or closed.
fn write_store<D: Device>(device: &mut D, is_open: bool, indexes: IndexSet) -> Result<(), Failed>
    requires { FIRST_DATA_PAGE ≤ (D.seen device.old).pages }
    ensures { Made (write_calls is_open indexes (D.seen device.old).pages) (D.seen device.old) (D.seen device.new) result }
{
    close_superblock_if(device, is_open)?;
    close_gates(device)?;
    start_segment(device, LOG_START, 0, 0, 1)?;
    write_superblock(device, indexes)
}
