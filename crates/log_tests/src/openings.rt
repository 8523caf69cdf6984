// What no proof sees: that the definitions say what was meant. Expected answers are worked out by hand.
ghost use Rattle.std.specs.Prelude.{◌≡◌, ◌<◌, IfSome};
ghost use Rattle.comp_dir.specs.declared.places.TheConstants.{SLOTS};
ghost use Rattle.format_numbers.specs.declared.TheConstants.{LOG_START};
ghost use Rattle.wal_log.specs.Counted.{IsCounted};

use comp_dir::{SLOTS, Slot, install_slot};
use dev_model::Device;
use format_numbers::LOG_START;
use geo_base::{IndexSet, Note, Point, Row};
use mem_device::MemDevice;
use std::alloc::Global;
use std::test::Fail;
use store_opening::{OpenFault, open_state};
use superblock::superblock_bytes;
use wal_log::{LSN_LIMIT, Log, LogOp, MOST_RECORDS, Record, start_segment};

/// The first page behind the log.
const PAGE: u32 = 265;

/// The point of each row.
const PLACE: Point = Point { x: 3, y: 4 };

/// What stands on a device, each with what the ones before it have.
#[derive(Clone, Copy, Debug, PartialEq, Eq)]
enum Image {
    /// A superblock, and a log without a record.
    Empty,
    /// A put of key 7.
    Logged,
    /// The next segment, and a put of key 9 there.
    Waiting,
    /// A component with the first put.
    Placed,
    /// The third segment, and two components: one with the first put, and one with both.
    Hidden,
}

/// What an opening finds.
#[derive(Clone, Copy, Debug, PartialEq, Eq)]
struct Found {
    /// The rows of the table.
    rows: u64,
    /// The number of the last write that components have.
    placed: u64,
    /// The number of the last write before the active list.
    cut: u64,
    /// Whether a list waits for its component.
    waits: bool,
    /// Whether the keys 7 and 9 are in memory.
    in_memory: (bool, bool),
    /// The reads of the opening.
    reads: u64,
}

/// A device of zeros.
fn fresh(alloc: Global) -> Option<MemDevice>
    ensures { IfSome result (λ device. device.pages ≡ 1024) }
{
    MemDevice::new(alloc, 1024, 100, 9000, Vec::new(alloc)).ok()
}

/// Writes a superblock.
fn mark(device: &mut MemDevice) -> Option<()>
    requires { device.old.pages ≡ 1024 }
    ensures { device.new.pages ≡ 1024 }
{
    let bytes = superblock_bytes(IndexSet::of_bits(3)?, 1024);
    device.write(1, &bytes).ok()?;
    device.write(0, &[165]).ok()?;
    device.sync().ok()
}

/// Starts a log.
fn started(device: &mut MemDevice, alloc: Global) -> Option<Log>
    requires { device.old.pages ≡ 1024 }
    ensures pages { device.new.pages ≡ 1024 }
    ensures start { IfSome result (λ log. log.start ≡ LOG_START) }
    ensures counted { IfSome result (λ log. IsCounted log) }
{
    start_segment(device, LOG_START, 0, 0, 1).ok()?;
    let (log, _) = Log::read_all(device, LOG_START, &[0], alloc).ok()?;
    Some(log)
}

/// Logs a put of a key that isn't there.
fn put(device: &mut MemDevice, log: &mut Log, key: u64) -> Option<()>
    requires pages { device.old.pages ≡ 1024 }
    requires start { log.old.start ≡ LOG_START }
    requires counted { IsCounted log.old }
    ensures pages { device.new.pages ≡ 1024 }
    ensures start { IfSome result (λ _. log.new.start ≡ LOG_START) }
    ensures counted { IfSome result (λ _. IsCounted log.new) }
{
    if log.records >= MOST_RECORDS || log.next_lsn >= LSN_LIMIT {
        return None;
    }
    let row = Row {
        key,
        point: PLACE,
        note: Note::new(b"a").ok()?,
    };
    let logged = Record {
        lsn: log.next_lsn,
        op: LogOp::Put(row),
        old_point: None,
    };
    log.append(device, &logged).ok()?;
    Some(())
}

/// Goes on in the next segment.
fn turn(device: &mut MemDevice, log: &mut Log) -> Option<()>
    requires pages { device.old.pages ≡ 1024 }
    requires start { log.old.start ≡ LOG_START }
    requires counted { IsCounted log.old }
    ensures pages { device.new.pages ≡ 1024 }
    ensures start { IfSome result (λ _. log.new.start ≡ LOG_START) }
    ensures counted { IfSome result (λ _. IsCounted log.new) }
{
    if log.records == 0 {
        return None;
    }
    log.next_segment(device).ok()
}

/// Installs a component of the primary on the page from 265 on that is numbered as its slot, with so many writes, of which
/// each laid a row. No page of it is written: an opening reads none.
fn install(device: &mut MemDevice, slot: u16, writes: u32) -> Option<()>
    requires pages { device.old.pages ≡ 1024 }
    requires below { slot < SLOTS }
    ensures { device.new.pages ≡ 1024 }
{
    let component = Slot {
        index: 0,
        first: PAGE + u32::from(slot),
        pages: 1,
        first_lsn: 1,
        last_lsn: u64::from(writes),
        main_rows: writes,
        second_rows: 0,
        second_at: 0,
        filter_at: 0,
        filter_bits: 0,
        table_rows: u64::from(writes),
    };
    install_slot(device, slot, &component).ok()
}

/// A device with this image.
fn device_with(image: Image, alloc: Global) -> Option<MemDevice>
    ensures { IfSome result (λ device. device.pages ≡ 1024) }
{
    let mut device = fresh(alloc)?;
    mark(&mut device)?;
    let mut log = started(&mut device, alloc)?;
    if image == Image::Empty {
        return Some(device);
    }
    put(&mut device, &mut log, 7)?;
    if image == Image::Logged {
        return Some(device);
    }
    turn(&mut device, &mut log)?;
    put(&mut device, &mut log, 9)?;
    if image == Image::Waiting {
        return Some(device);
    }
    if image == Image::Placed {
        install(&mut device, 2, 1)?;
        return Some(device);
    }
    turn(&mut device, &mut log)?;
    install(&mut device, 2, 1)?;
    install(&mut device, 4, 2)?;
    Some(device)
}

/// What an opening of a device finds, or why it is refused.
fn opened(device: &mut MemDevice, alloc: Global) -> Result<Found, OpenFault>
    requires { device.old.pages ≡ 1024 }
{
    let before = device.clock();
    let opened = open_state(alloc, device)?;
    let state = &opened.state;
    Ok(Found {
        rows: state.rows(),
        placed: state.placed(),
        cut: state.cut(),
        waits: state.is_frozen(),
        in_memory: (state.in_memory(7).is_some(), state.in_memory(9).is_some()),
        reads: device.clock().saturating_sub(before),
    })
}

#[test]
fn each_image_is_opened(rt: HostRuntime) -> Result<(), Fail> {
    let alloc = rt.alloc();
    // rows, the last write in components, the last before the active list, whether a list waits, keys in memory, reads
    for (image, rows, placed, cut, waits, in_memory, reads) in [
        (Image::Empty, 0, 0, 0, false, (false, false), 15),
        (Image::Logged, 1, 0, 0, false, (true, false), 15),
        (Image::Waiting, 2, 0, 1, true, (true, true), 17),
        (Image::Placed, 2, 1, 1, false, (false, true), 17),
        (Image::Hidden, 2, 2, 2, false, (false, false), 19),
    ] {
        let Some(mut device) = device_with(image, alloc) else {
            panic!(rt; "no device");
        };
        let wanted = Found {
            rows,
            placed,
            cut,
            waits,
            in_memory,
            reads,
        };
        assert_eq!(rt; opened(&mut device, alloc), Ok(wanted), "{image:?}");
    }
    Ok(())
}

/// Why a device is refused once these bytes are written.
fn refused(at: u64, bytes: &[u8], alloc: Global) -> Option<OpenFault> {
    let mut device = device_with(Image::Placed, alloc)?;
    if at > 2_000_000 || bytes.len() > 64 {
        return None;
    }
    device.write(at, bytes).ok()?;
    device.sync().ok()?;
    opened(&mut device, alloc).err()
}

#[test]
fn each_refusal_is_answered(rt: HostRuntime) -> Result<(), Fail> {
    let alloc = rt.alloc();
    // a place and the byte that is written there
    for (at, byte, wanted) in [
        (0, 0, OpenFault::NotFormatted),
        (2, 32, OpenFault::NotFormatted),
        // an open slot of zeros
        (4096 + 64 * 5, 165, OpenFault::BadSlot(5)),
        // an index that isn't the primary
        (4096 + 64 * 2 + 1, 1, OpenFault::BadSlot(2)),
        // the newest segment's generation
        (LOG_START + 262_144 + 8, 7, OpenFault::BadLog(1)),
    ] {
        assert_eq!(rt; refused(at, &[byte], alloc), Some(wanted), "{at}");
    }
    Ok(())
}
