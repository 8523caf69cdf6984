//! The opening of a store.
ghost use Rattle.std.specs.Prelude.{◌≡◌, ◌+◌, ◌≤◌, None, IfOk, IfErr};
ghost use Rattle.dev_model.specs.Story.{WhereTold, bytes_of, IsCalmAt};
ghost use Rattle.dev_model.specs.Moments.{ReadsWithin};
ghost use Rattle.table_model.specs.Table.{Table};
ghost use Rattle.wal_log.specs.Counted.{IsCounted};
ghost use Rattle.superblock.specs.Superblock.{declared};
ghost use Rattle.component_image.specs.Recovered.{Opens, IsLookedAt, IsContent, Recovers, IsOpeningRange};
ghost use Rattle.store_state.specs.Lists.{placed_up_to};
ghost use Rattle.store_state.specs.EveryList.{IsLists};
ghost use Rattle.store_state.specs.Keeping.{IsKept};
ghost use Rattle.store_state.specs.Numbered.{IsNumbered};
ghost use Rattle.store_opening.specs.Openings.{IsRefusal, HasFaulted};
ghost use Rattle.store_opening.specs.Read.{HasRead, AreLawfulSlots, log_fault};

use crate::formatted::read_indexes;
use crate::replay::state_of;
use crate::slots::{OpenSlots, read_slots};
use comp_dir::Slot;
use dev_model::Device;
use format_numbers::{FIRST_DATA_PAGE, LOG_START};
use geo_base::IndexSet;
use space_map::{LEAST_PAGES, MOST_PAGES};
use std::alloc::Global;
use store_state::State;
use thiserror::Error;
use wal_log::{Log, LogFault, Record};

/// Why a device can't be opened.
#[derive(Clone, Copy, Debug, PartialEq, Eq, Error)]
pub enum OpenFault {
    /// The superblock isn't that of a formatted device of this length.
    #[error("the device isn't formatted")]
    NotFormatted,
    /// This slot of the directory can't be.
    #[error("slot {0} is bad")]
    BadSlot(u16),
    /// This segment of the log can't be.
    #[error("log segment {0} is bad")]
    BadLog(u8),
    /// A call of the device failed.
    #[error("the device failed")]
    Fault,
    /// Memory was refused.
    #[error("out of memory")]
    OutOfMemory,
}

/// What a store begins with.
#[derive(Drop)]
pub struct OpenedState {
    /// The declared indexes.
    pub indexes: IndexSet,
    /// The end of its log.
    pub log: Log,
    /// Its lists.
    pub state: State,
}

// What an opening reads.
#[derive(Drop)]
struct Image {
    indexes: IndexSet,
    slots: OpenSlots,
    log: Log,
    records: Vec<Record>,
}

// What a refusal of the log is for an opening.
fn log_fault(fault: LogFault) -> OpenFault
    ensures { result ≡ log_fault fault }
{
    match fault {
        LogFault::Failed => OpenFault::Fault,
        LogFault::BadLog(segment) => OpenFault::BadLog(segment),
        LogFault::OutOfMemory => OpenFault::OutOfMemory,
    }
}

// The number of the last write that these components have.
fn placed_up_to(components: &[(u16, Slot)]) -> u64
    ensures { result ≡ placed_up_to components.now }
{
    match components.first() {
        Some((_, slot)) => slot.last_lsn,
        None => 0,
    }
}

// Reads all that an opening looks at.
fn read_image<D: Device>(alloc: Global, device: &mut D) -> Result<Image, OpenFault>
    requires pages { FIRST_DATA_PAGE ≤ (D.seen device.old).pages }
    ensures read { IfOk result (λ image. WhereTold (D.seen device.old).story (λ s. IsCalmAt (IsLookedAt (bytes_of s)) s →
        HasRead (D.seen device.old).pages s (D.seen device.new).story image.indexes image.slots.components.items image.slots.ignored.items image.log image.records.items)) }
    ensures start { IfOk result (λ image. image.log.start ≡ LOG_START) }
    ensures counted { IfOk result (λ image. IsCounted image.log) }
    ensures lawful { IfOk result (λ image. AreLawfulSlots (D.seen device.old).pages image.slots.components.items image.slots.ignored.items) }
    ensures behind { IfOk result (λ image. placed_up_to image.slots.components.items + 1 + image.log.records ≤ image.log.next_lsn) }
    ensures refused { IfErr result (λ fault. WhereTold (D.seen device.old).story (λ s. IsCalmAt (IsLookedAt (bytes_of s)) s →
        IsRefusal (D.seen device.old).pages fault (bytes_of s))) }
    ensures faulted { IfErr result (HasFaulted (D.seen device.old).faults (D.seen device.new).faults) }
    ensures later { (D.seen device.old).faults ≤ (D.seen device.new).faults }
    ensures reads { WhereTold (D.seen device.old).story (λ s. ReadsWithin IsOpeningRange s (D.seen device.new).story) }
    ensures same_pages { (D.seen device.new).pages ≡ (D.seen device.old).pages }
{
    let indexes = match read_indexes(device) {
        Ok(indexes) => indexes,
        Err(fault) => return Err(fault),
    };
    let slots = match read_slots(alloc, device) {
        Ok(slots) => slots,
        Err(fault) => return Err(fault),
    };
    let placed = placed_up_to(&slots.components);
    match Log::read_all(device, LOG_START, &[placed], alloc) {
        Ok((log, records)) => Ok(Image {
            indexes,
            slots,
            log,
            records,
        }),
        Err(fault) => Err(log_fault(fault)),
    }
}

/// Opens the store that is on a device.
///
/// It reads the superblock, the directory and the log, and nothing else, no page of a component either, and writes nothing.
/// The refusals, in this order: `NotFormatted`, `BadSlot` of the lowest slot that can't be, and `BadLog` of the first segment
/// in the order of the generations that can't be, exactly where they hold of the bytes; `Fault` where a call of the device
/// failed, which ends the opening; `OutOfMemory`. The records of the log behind the components are laid again: those of the
/// newest segment are the active list, those before it wait for their component.
pub fn open_state<D: Device>(alloc: Global, device: &mut D) -> Result<OpenedState, OpenFault>
    requires least { LEAST_PAGES ≤ (D.seen device.old).pages }
    requires most { (D.seen device.old).pages ≤ MOST_PAGES }

    // Where the device tells, and all that an opening looks at is on the disk.
    ensures opens { IfOk result (λ opened. WhereTold (D.seen device.old).story (λ s. IsCalmAt (IsLookedAt (bytes_of s)) s →
        Opens (D.seen device.old).pages (bytes_of s) × (declared (bytes_of s) ≡ opened.indexes))) }
    ensures refused { IfErr result (λ fault. WhereTold (D.seen device.old).story (λ s. IsCalmAt (IsLookedAt (bytes_of s)) s →
        IsRefusal (D.seen device.old).pages fault (bytes_of s))) }

    // Where the components are on the disk too, the store is at rest with the table that the bytes recover to.
    ensures kept { IfOk result (λ opened. WhereTold (D.seen device.old).story (λ s. IsCalmAt (IsLookedAt (bytes_of s)) s → IsCalmAt (IsContent (bytes_of s)) s →
        (table : Table) → Recovers (D.seen device.old).pages table (bytes_of s) →
        WhereTold (D.seen device.new).story (IsKept (D.seen device.old).pages opened.log table opened.state.0))) }

    // Of each device.
    ensures numbered { IfOk result (λ opened. IsNumbered opened.log opened.state.0) }
    ensures counted { IfOk result (λ opened. IsCounted opened.log) }
    ensures lists { IfOk result (λ opened. IsLists opened.state.0) }
    ensures pages { IfOk result (λ opened. opened.state.0.space.pages ≡ (D.seen device.old).pages) }
    ensures no_job { IfOk result (λ opened. opened.state.0.job ≡ None) }
    ensures faulted { IfErr result (HasFaulted (D.seen device.old).faults (D.seen device.new).faults) }
    ensures later { (D.seen device.old).faults ≤ (D.seen device.new).faults }
    ensures reads { WhereTold (D.seen device.old).story (λ s. ReadsWithin IsOpeningRange s (D.seen device.new).story) }
    ensures same_pages { (D.seen device.new).pages ≡ (D.seen device.old).pages }
{
    let image = match read_image(alloc, device) {
        Ok(image) => image,
        Err(fault) => return Err(fault),
    };
    let Image {
        indexes,
        slots,
        log,
        records,
    } = image;
    match state_of(alloc, device.pages(), slots, &log, &records) {
        Ok(state) => Ok(OpenedState {
            indexes,
            log,
            state,
        }),
        Err(_) => Err(OpenFault::OutOfMemory),
    }
}
