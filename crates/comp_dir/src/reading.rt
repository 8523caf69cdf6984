// The directory as it is found on a device, read page by page.
ghost use Rattle.std.specs.Prelude.{◌≡◌, ◌+◌, ◌*◌, ◌<◌, ◌≤◌, ℕ, IfOk, IfErr, OnOk};
ghost use Rattle.dev_model.specs.Counts.{HasCause};
ghost use Rattle.dev_model.specs.Story.{Bytes};
ghost use Rattle.dev_model.specs.Doing.{Ticks};
ghost use Rattle.comp_dir.specs.Reads.{OnlyReadsDirectory, WhereAtRest};
ghost use Rattle.comp_dir.specs.Directory.{directory_of, open_slots};
ghost use Rattle.comp_dir.specs.Rules.{AllObey};
ghost use Rattle.comp_dir.specs.Bad.{IsFirstUnsound};
ghost use Rattle.comp_dir.specs.Faults.{WhereBad, HasCauseOfFault, IsNotFailed};
ghost use Rattle.comp_dir.specs.Found.{slot_in, Shows, IsFine, with_open, AreLawful, HasFound, IsUnsoundAt};

use crate::faults::DirFault;
use crate::parsing::parse;
use crate::places::{
    DIRECTORY_PAGES, DIRECTORY_START, PAGE_SLOTS, SLOT_BODY_BYTES, SLOT_BYTES, SLOT_PAGES, SLOTS,
};
use crate::slots::Slot;
use dev_model::{Device, Failed};
use gate::OPEN;
use geo_base::IndexSet;
use page_codec::PAGE_BYTES;
use std::alloc::Global;

/// The bytes of a slot on a page of the directory, None where its gate is closed.
fn slot_in(page: &[u8; PAGE_BYTES], place: u16) -> Option<[u8; SLOT_BODY_BYTES]>
    requires { place < PAGE_SLOTS }
    ensures { result ≡ slot_in place page.now }
{
    let gate = usize::from(place) * SLOT_BYTES as usize;
    if page[gate] != OPEN {
        return None;
    }
    let mut body = [0; SLOT_BODY_BYTES];
    body.copy_from_slice(&page[gate + 1..gate + SLOT_BYTES as usize]);
    Some(body)
}

/// What is asked of each slot alone: the declared indexes and the pages of the device.
#[derive(Drop)]
struct Asked {
    declared: IndexSet,
    pages: u32,
}

/// Adds the slot of a page to those that were found, where it is open.
fn add_slot(
    page: &[u8; PAGE_BYTES],
    first: u16,
    place: u16,
    asked: &Asked,
    found: &mut Vec<(u16, Slot)>,
) -> Result<(), DirFault>
    requires place { place < PAGE_SLOTS }
    requires first { first + PAGE_SLOTS ≤ SLOTS }
    ensures fine { OnOk result (IsFine asked.now.pages asked.now.declared (slot_in place page.now)) }
    ensures added { OnOk result (found.new.items ≡ with_open (first + place) (slot_in place page.now) found.old.items) }
    ensures lawful { OnOk result (AreLawful asked.now.pages asked.now.declared (first + place) found.old.items
        → AreLawful asked.now.pages asked.now.declared (first + place + 1) found.new.items) }
    ensures bad { IfErr result (λ fault. WhereBad fault (λ n.
        (n ≡ first + place) × (IsFine asked.now.pages asked.now.declared (slot_in place page.now) → ⊥))) }
    ensures not_failed { IfErr result IsNotFailed }
{
    let Some(body) = slot_in(page, place) else {
        return Ok(());
    };
    let Some(slot) = parse(&body, asked.declared, asked.pages) else {
        return Err(DirFault::BadSlot(first + place));
    };
    match found.push((first + place, slot)) {
        Ok(()) => Ok(()),
        Err(_) => Err(DirFault::OutOfMemory),
    }
}

/// Adds the open slots of a page, of which the first has this number.
fn add_page(
    page: &[u8; PAGE_BYTES],
    first: u16,
    asked: &Asked,
    found: &mut Vec<(u16, Slot)>,
) -> Result<(), DirFault>
    requires { first + PAGE_SLOTS ≤ SLOTS }
    ensures added { OnOk result ((bytes : Bytes) → Shows first page.now bytes → HasFound asked.now.pages asked.now.declared first bytes found.old.items
        → HasFound asked.now.pages asked.now.declared (first + PAGE_SLOTS) bytes found.new.items) }
    ensures lawful { OnOk result (AreLawful asked.now.pages asked.now.declared first found.old.items
        → AreLawful asked.now.pages asked.now.declared (first + PAGE_SLOTS) found.new.items) }
    ensures bad { IfErr result (λ fault. WhereBad fault (λ n.
        (bytes : Bytes) → Shows first page.now bytes → HasFound asked.now.pages asked.now.declared first bytes found.old.items → IsUnsoundAt asked.now.pages asked.now.declared bytes n)) }
    ensures not_failed { IfErr result IsNotFailed }
{
    for place in 0..PAGE_SLOTS {
        if let Err(fault) = add_slot(page, first, place, asked, found) {
            return Err(fault);
        }
    }
    Ok(())
}

/// Reads a page of the directory.
fn read_page<D: Device>(
    device: &mut D,
    number: u16,
    page: &mut [u8; PAGE_BYTES],
) -> Result<(), Failed>
    requires below { number < SLOT_PAGES }
    requires pages { DIRECTORY_PAGES ≤ (D.seen device.old).pages }
    ensures shows { OnOk result (WhereAtRest (D.seen device.old) (λ bytes. Shows (PAGE_SLOTS * number) page.new bytes)) }
    ensures reads { OnlyReadsDirectory (D.seen device.old) (D.seen device.new) }
    ensures ticks { Ticks 1 (D.seen device.old).clock (D.seen device.new).clock result }
    ensures same_pages { (D.seen device.new).pages ≡ (D.seen device.old).pages }
    ensures cause { HasCause (D.seen device.old).faults (D.seen device.new).faults result }
{
    device.read(
        DIRECTORY_START + u64::from(number) * PAGE_BYTES as u64,
        page,
    )
}

/// Reads a page of the directory and adds its open slots.
fn add_next_page<D: Device>(
    device: &mut D,
    number: u16,
    asked: &Asked,
    found: &mut Vec<(u16, Slot)>,
) -> Result<(), DirFault>
    requires below { number < SLOT_PAGES }
    requires pages { DIRECTORY_PAGES ≤ (D.seen device.old).pages }
    ensures added { OnOk result (WhereAtRest (D.seen device.old) (λ bytes. HasFound asked.now.pages asked.now.declared (PAGE_SLOTS * number) bytes found.old.items
        → HasFound asked.now.pages asked.now.declared (PAGE_SLOTS * number + PAGE_SLOTS) bytes found.new.items)) }
    ensures lawful { OnOk result (AreLawful asked.now.pages asked.now.declared (PAGE_SLOTS * number) found.old.items
        → AreLawful asked.now.pages asked.now.declared (PAGE_SLOTS * number + PAGE_SLOTS) found.new.items) }
    ensures bad { IfErr result (λ fault. WhereBad fault (λ n. WhereAtRest (D.seen device.old) (λ bytes.
        HasFound asked.now.pages asked.now.declared (PAGE_SLOTS * number) bytes found.old.items → IsUnsoundAt asked.now.pages asked.now.declared bytes n))) }
    ensures reads { OnlyReadsDirectory (D.seen device.old) (D.seen device.new) }
    ensures ticks { Ticks 1 (D.seen device.old).clock (D.seen device.new).clock result }
    ensures same_pages { (D.seen device.new).pages ≡ (D.seen device.old).pages }
    ensures cause { HasCauseOfFault (D.seen device.old).faults (D.seen device.new).faults result }
{
    let mut page = [0; PAGE_BYTES];
    match read_page(device, number, &mut page) {
        Ok(()) => add_page(&page, PAGE_SLOTS * number, asked, found),
        Err(_) => Err(DirFault::Failed),
    }
}

/// The open slots of a directory by number, each of them sound. `BadSlot` names the lowest that isn't. The directory is read
/// by pages, in eight reads.
pub fn read_dir<D: Device>(
    device: &mut D,
    declared: IndexSet,
    alloc: Global,
) -> Result<Vec<(u16, Slot)>, DirFault>
    requires { DIRECTORY_PAGES ≤ (D.seen device.old).pages }

    // Of a directory that is on the disk.
    ensures slots { IfOk result (λ found. WhereAtRest (D.seen device.old) (λ bytes. found.items ≡ open_slots (directory_of bytes))) }
    ensures obeyed { OnOk result (WhereAtRest (D.seen device.old) (λ bytes. AllObey (D.seen device.old).pages declared (directory_of bytes))) }
    ensures bad { IfErr result (λ fault. WhereBad fault (λ n. WhereAtRest (D.seen device.old) (λ bytes.
        IsFirstUnsound (D.seen device.old).pages declared (directory_of bytes) n))) }

    // Of each device.
    ensures lawful { IfOk result (λ found. AreLawful (D.seen device.old).pages declared SLOTS found.items) }
    ensures reads { OnlyReadsDirectory (D.seen device.old) (D.seen device.new) }
    ensures ticks { Ticks SLOT_PAGES (D.seen device.old).clock (D.seen device.new).clock result }
    ensures same_pages { (D.seen device.new).pages ≡ (D.seen device.old).pages }
    ensures cause { HasCauseOfFault (D.seen device.old).faults (D.seen device.new).faults result }
{
    let pages = device.pages();
    let asked = Asked { declared, pages };
    let mut found = Vec::new(alloc);
    for number in 0..SLOT_PAGES {
        if let Err(fault) = add_next_page(device, number, &asked, &mut found) {
            return Err(fault);
        }
    }
    Ok(found)
}
