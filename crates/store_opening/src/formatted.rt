// Whether a device is formatted, and with which indexes.
ghost use Rattle.std.specs.Prelude.{◌≡◌, ◌≤◌, IfOk, IfErr};
ghost use Rattle.dev_model.specs.Story.{WhereTold, bytes_of, IsCalmAt};
ghost use Rattle.dev_model.specs.Moments.{ReadsWithin};
ghost use Rattle.superblock.specs.Superblock.{IsFormatted, declared, IsLookedInSuperblock};
ghost use Rattle.component_image.specs.Recovered.{IsOpeningRange};
ghost use Rattle.store_opening.specs.Openings.{HasFaulted};
ghost use Rattle.store_opening.specs.Read.{IsSuperblockRefusal};

use crate::opening::OpenFault;
use dev_model::Device;
use format_numbers::FIRST_DATA_PAGE;
use geo_base::IndexSet;
use superblock::read_superblock;

/// Reads the declared indexes of a device that is formatted.
pub(crate) fn read_indexes<D: Device>(device: &mut D) -> Result<IndexSet, OpenFault>
    requires pages { FIRST_DATA_PAGE ≤ (D.seen device.old).pages }
    ensures formatted { IfOk result (λ set. WhereTold (D.seen device.old).story (λ s. IsCalmAt (IsLookedInSuperblock (bytes_of s)) s →
        IsFormatted (D.seen device.old).pages (bytes_of s) × (declared (bytes_of s) ≡ set))) }
    ensures refused { IfErr result (λ fault. WhereTold (D.seen device.old).story (λ s. IsCalmAt (IsLookedInSuperblock (bytes_of s)) s →
        IsSuperblockRefusal (D.seen device.old).pages fault (bytes_of s))) }
    ensures faulted { IfErr result (HasFaulted (D.seen device.old).faults (D.seen device.new).faults) }
    ensures later { (D.seen device.old).faults ≤ (D.seen device.new).faults }
    ensures reads { WhereTold (D.seen device.old).story (λ s. ReadsWithin IsOpeningRange s (D.seen device.new).story) }
    ensures same_pages { (D.seen device.new).pages ≡ (D.seen device.old).pages }
{
    match read_superblock(device) {
        Ok(Some(indexes)) => Ok(indexes),
        Ok(None) => Err(OpenFault::NotFormatted),
        Err(_) => Err(OpenFault::Fault),
    }
}
