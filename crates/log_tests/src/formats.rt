// What no proof sees: that the definitions say what was meant. Expected bytes and counts are worked out by hand.
ghost use Rattle.std.specs.Prelude.{◌≡◌, IfSome};

use dev_model::Device;
use device_format::format_dev;
use format_numbers::{FIRST_DATA_PAGE, LOG_START};
use geo_base::{IndexSet, Point};
use mem_device::{MemDevice, Torn};
use std::alloc::Global;
use std::test::Fail;
use wal_log::{Log, LogOp, MOST_RECORDS, Record};

const MOST_LSN: u64 = 0x4000_0000_0000_0000;

/// What an opening finds on a device of 265 pages.
#[derive(Clone, Copy, Debug, PartialEq, Eq)]
enum Finding {
    NoStore,
    /// A store with these declared indexes, as bits, and so many records.
    Store(u8, usize),
    Refused,
}

/// A device of zeros, of which the listed calls fail.
fn zeros(alloc: Global, fail: Vec<u64>) -> Option<MemDevice>
    ensures { IfSome result (λ device. device.pages ≡ 265) }
{
    MemDevice::new(alloc, FIRST_DATA_PAGE, 4000, 4000, fail).ok()
}

/// A device with an open gate of each kind, and a byte that isn't 0 in each field.
fn garbage(alloc: Global, fail: Vec<u64>) -> Option<MemDevice>
    ensures { IfSome result (λ device. device.pages ≡ 265) }
{
    let mut device = zeros(alloc, fail)?;
    device.poke(0, 165);
    device.poke(2, 31);
    device.poke(15, 7);
    device.poke(4_096, 165);
    device.poke(36_800, 165);
    device.poke(36_865, 9);
    device.poke(36_928, 165);
    device.poke(37_024, 165);
    device.poke(299_008, 165);
    device.poke(823_296, 165);
    Some(device)
}

/// Formats the device with the indexes of these bits, and answers whether that succeeded.
fn format(device: &mut MemDevice, bits: u8) -> Option<bool> {
    if device.pages() < FIRST_DATA_PAGE {
        return None;
    }
    let indexes = IndexSet::of_bits(bits)?;
    Some(format_dev(device, indexes).is_ok())
}

fn has_open_slot(device: &mut MemDevice) -> Option<bool> {
    let mut is_open = false;
    for slot in 0..512u64 {
        if device.pages() < FIRST_DATA_PAGE {
            return None;
        }
        let mut gate = [0];
        device.read(4_096 + 64 * slot, &mut gate).ok()?;
        is_open = is_open || gate[0] == 165;
    }
    Some(is_open)
}

fn find_log(device: &mut MemDevice, bits: u8, alloc: Global) -> Finding {
    if device.pages() < FIRST_DATA_PAGE {
        return Finding::Refused;
    }
    match Log::read_all(device, LOG_START, &[0], alloc) {
        Ok((_, records)) => Finding::Store(bits, records.len()),
        Err(_) => Finding::Refused,
    }
}

/// Looks at the device as an opening does.
fn find(device: &mut MemDevice, alloc: Global) -> Option<Finding> {
    if device.pages() < FIRST_DATA_PAGE {
        return None;
    }
    let mut superblock = [0; 16];
    device.read(0, &mut superblock).ok()?;
    if superblock[0] != 165 {
        return Some(Finding::NoStore);
    }
    let bits = superblock[2];
    let fields = [1, bits, 0, 0, 0, 1, 9, 76, 83, 77, 83, 80, 65, 84, 49];
    if superblock[1..] != fields[..] || has_open_slot(device)? {
        return Some(Finding::Refused);
    }
    Some(find_log(device, bits, alloc))
}

/// Adds a record to the log of a store.
fn add_record(device: &mut MemDevice, alloc: Global) -> Option<()> {
    if device.pages() < FIRST_DATA_PAGE {
        return None;
    }
    let (mut log, _) = Log::read_all(device, LOG_START, &[0], alloc).ok()?;
    if log.records >= MOST_RECORDS || log.next_lsn >= MOST_LSN {
        return None;
    }
    let logged = Record {
        lsn: log.next_lsn,
        op: LogOp::Del(7),
        old_point: Some(Point { x: 3, y: 4 }),
    };
    log.append(device, &logged).ok()?;
    Some(())
}

/// What an opening finds on an image of a moment, counted from another one.
fn find_image(
    device: &MemDevice,
    from: u64,
    moment: u64,
    torn: Torn,
    alloc: Global,
) -> Option<Finding> {
    let mut image = device.image_at(from.checked_add(moment)?, torn).ok()?;
    find(&mut image, alloc)
}

/// What it finds on four images of the moment: the open ranges as before, as written, of zeros, and of open gates.
fn find_images(device: &MemDevice, from: u64, moment: u64, alloc: Global) -> Option<[Finding; 4]> {
    Some([
        find_image(device, from, moment, Torn::Old, alloc)?,
        find_image(device, from, moment, Torn::New, alloc)?,
        find_image(device, from, moment, Torn::Fill(0), alloc)?,
        find_image(device, from, moment, Torn::Fill(165), alloc)?,
    ])
}

#[test]
fn a_device_of_any_bytes_becomes_an_empty_store(rt: HostRuntime) -> Result<(), Fail> {
    let alloc = rt.alloc();
    for (mut made, calls) in [
        (zeros(alloc, Vec::new(alloc)), 526),
        (garbage(alloc, Vec::new(alloc)), 528),
    ] {
        let Some(device) = &mut made else {
            panic!(rt; "no device");
        };
        assert_eq!(rt; format(device, 4), Some(true));
        assert_eq!(rt; device.clock(), calls);
        assert_eq!(rt; find(device, alloc), Some(Finding::Store(4, 0)));
        assert_eq!(rt; format(device, 8), Some(true));
        assert_eq!(rt; find(device, alloc), Some(Finding::Store(8, 0)));
    }
    Ok(())
}

#[test]
fn each_image_is_as_before_or_no_store_or_the_empty_one(rt: HostRuntime) -> Result<(), Fail> {
    let alloc = rt.alloc();
    let Some(mut device) = zeros(alloc, Vec::new(alloc)) else {
        panic!(rt; "no device");
    };
    assert_eq!(rt; format(&mut device, 31), Some(true));
    assert_eq!(rt; add_record(&mut device, alloc), Some(()));
    let from = device.clock();
    assert_eq!(rt; format(&mut device, 4), Some(true));
    assert_eq!(rt; device.clock().checked_sub(from), Some(528));
    let old = Finding::Store(31, 1);
    let none = Finding::NoStore;
    let empty = Finding::Store(4, 0);
    for (moment, found) in [
        (0, [old, old, old, old]), // the read of the gate
        (1, [old, none, none, old]), // the gate is closed
        (2, [old, none, none, old]), // the sync behind it
        (3, [none, none, none, none]), // the first slot
        (519, [none, none, none, none]), // all gates written, and none synced
        (525, [none, none, none, none]), // the fields written
        (526, [none, empty, none, empty]), // the gate is opened
        (527, [none, empty, none, empty]), // the sync behind it
        (528, [empty, empty, empty, empty]),
    ] {
        assert_eq!(rt; find_images(&device, from, moment, alloc), Some(found));
    }
    Ok(())
}

#[test]
fn a_call_that_fails_is_the_last(rt: HostRuntime) -> Result<(), Fail> {
    let alloc = rt.alloc();
    for call in [
        1, 2, 3, 4, 515, 516, 519, 520, 521, 522, 523, 524, 525, 526, 527, 528,
    ] {
        let fail = vec![in alloc; call]?;
        let Some(mut device) = garbage(alloc, fail) else {
            panic!(rt; "no device");
        };
        assert_eq!(rt; format(&mut device, 4), Some(false));
        assert_eq!(rt; device.clock(), call);
        assert_eq!(rt; device.faults(), 1);
    }
    Ok(())
}
