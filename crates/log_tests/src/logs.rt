// What no proof sees: that the definitions say what was meant. Expected bytes and answers are worked out by hand.
ghost use Rattle.std.specs.Prelude.{◌≡◌, ◌≤◌, IfSome, None};
ghost use Rattle.wal_log.specs.Examples.{first_write, first_write_bytes};
ghost use Rattle.wal_log.specs.Reads.{EndsOnDevice};
ghost use Rattle.wal_log.specs.Records.{record_bytes, HasOld};
ghost use Rattle.wal_log.specs.Counted.{IsCounted};

use dev_model::Device;
use geo_base::{Note, Point, Row};
use mem_device::{MemDevice, Torn};
use std::alloc::Global;
use std::test::Fail;
use wal_log::{
    LOG_BYTES, LSN_LIMIT, Log, LogFault, LogOp, MOST_RECORDS, Record, segment_start, start_segment,
};

/// Where the log begins, but in the test of other places.
const START: u64 = 36_864;

/// A device of so many pages ends with that log.
const PAGES: u32 = 265;

/// The example record has these bytes.
fn example()
    ensures { record_bytes first_write ≡ first_write_bytes }
{}

/// A device with the log of an empty store: segment 0 is open, with generation 0 and the first number 1. It has room for
/// so many calls and written bytes, and one of its calls, counted from 1, fails.
fn fresh_failing(failing: u64, calls: u32, bytes: usize, alloc: Global) -> Option<MemDevice>
    ensures { IfSome result (λ device. device.pages ≡ 265) }
{
    let mut fail = Vec::new(alloc);
    fail.push(failing).ok()?;
    let mut device = MemDevice::new(alloc, PAGES, calls, bytes, fail).ok()?;
    device.poke(START, 165);
    device.poke(START + 16, 1);
    Some(device)
}

/// Such a device that never fails.
fn fresh(alloc: Global) -> Option<MemDevice>
    ensures { IfSome result (λ device. device.pages ≡ 265) }
{
    fresh_failing(0, 4000, 1000, alloc)
}

/// Adds the next record, and answers when it stands.
fn add(log: &mut Log, device: &mut MemDevice, op: LogOp, old_point: Option<Point>) -> Option<u64>
    requires pages { EndsOnDevice log.old.start device.old.pages }
    requires counted { IsCounted log.old }
    requires has_old { HasOld op old_point }
    ensures pages { device.new.pages ≡ device.old.pages }
    ensures start { log.new.start ≡ log.old.start }
    ensures counted { IfSome result (λ _. IsCounted log.new) }
    ensures some { IfSome result (λ _. 1 ≤ log.new.records) }
{
    if log.records >= MOST_RECORDS || log.next_lsn >= LSN_LIMIT {
        return None;
    }
    let logged = Record {
        lsn: log.next_lsn,
        op,
        old_point,
    };
    match log.append(device, &logged) {
        Ok(ack) => Some(ack),
        Err(_) => None,
    }
}

fn put(key: u64) -> Option<LogOp>
    ensures { IfSome result (λ op. HasOld op None) }
{
    let note = Note::new(b"a").ok()?;
    let point = Point { x: 3, y: 4 };
    Some(LogOp::Put(Row { key, point, note }))
}

/// Adds to an empty log: a put and a delete in segment 0, and a put in segment 1.
fn add_three(device: &mut MemDevice, start: u64, alloc: Global) -> Option<()>
    requires pages { EndsOnDevice start device.old.pages }
    ensures pages { device.new.pages ≡ device.old.pages }
{
    let (mut log, _) = Log::read_all(device, start, &[0], alloc).ok()?;
    let first = put(7)?;
    let second = put(8)?;
    let old_point = Some(Point { x: 3, y: 4 });
    add(&mut log, device, first, None)?;
    add(&mut log, device, LogOp::Del(7), old_point)?;
    if log.next_segment(device).is_err() {
        return None;
    }
    add(&mut log, device, second, None)?;
    Some(())
}

/// A device with three records in its log.
fn three_records(alloc: Global) -> Option<MemDevice>
    ensures { IfSome result (λ device. device.pages ≡ 265) }
{
    let mut device = fresh(alloc)?;
    add_three(&mut device, START, alloc)?;
    Some(device)
}

/// How a log reads: how many records there are, or why it can't be read.
fn read_at(device: &mut MemDevice, start: u64, last: u32, alloc: Global) -> Result<usize, LogFault>
    requires pages { EndsOnDevice start device.old.pages }
    ensures pages { device.new.pages ≡ device.old.pages }
{
    let (_, records) = Log::read_all(device, start, &[u64::from(last)], alloc)?;
    Ok(records.len())
}

fn read(device: &mut MemDevice, last: u32, alloc: Global) -> Option<Result<usize, LogFault>> {
    if device.pages() < PAGES {
        return None;
    }
    Some(read_at(device, START, last, alloc))
}

/// Changes a byte of a segment, and answers what was there.
fn change(device: &mut MemDevice, segment: u8, at: u16, byte: u8) -> Option<u8> {
    if device.pages() < PAGES {
        return None;
    }
    let place = START + 262_144 * u64::from(segment % 4) + u64::from(at);
    let mut was = [0];
    device.read(place, &mut was).ok()?;
    device.poke(place, byte);
    Some(was[0])
}

/// How the log reads with one byte changed.
fn read_changed(
    device: &mut MemDevice,
    segment: u8,
    at: u16,
    byte: u8,
    alloc: Global,
) -> Option<Result<usize, LogFault>> {
    let was = change(device, segment, at, byte)?;
    let answer = read(device, 2, alloc);
    change(device, segment, at, was)?;
    answer
}

#[test]
fn appended_records_are_read(rt: HostRuntime) -> Result<(), Fail> {
    let alloc = rt.alloc();
    let Some(mut device) = three_records(alloc) else {
        panic!(rt; "no log");
    };
    let mut bytes = [0; 29];
    assert!(rt; device.read(36_928, &mut bytes).is_ok());
    assert_eq!(rt;
        &bytes[..],
        b"\xa5\x01\x00\x01\0\0\0\0\0\0\0\x01\0\0\0\0\0\0\0\x07\0\x03\0\x04\0\0\0\0a".as_slice()
    );
    assert_eq!(rt; read(&mut device, 2, alloc), Some(Ok(3)));
    assert_eq!(rt; read(&mut device, 0, alloc), Some(Ok(3)));
    assert_eq!(rt; read(&mut device, 1, alloc), Some(Err(LogFault::BadLog(1))));
    Ok(())
}

#[test]
fn each_rule_names_its_segment(rt: HostRuntime) -> Result<(), Fail> {
    let alloc = rt.alloc();
    let Some(mut device) = three_records(alloc) else {
        panic!(rt; "no log");
    };
    // segment, place in it, byte, the segment that is named
    for (segment, at, byte, bad) in [
        (1, 8, 2, 1), // a generation that belongs elsewhere
        (1, 20, 1, 1), // a reserved byte of a header
        (1, 16, 4, 1), // a first number that doesn't follow
        (0, 16, 2, 0), // generation 0 that doesn't begin with 1
        (2, 0, 165, 2), // an open header of zeros
        (0, 65, 3, 0), // no kind of record
        (0, 66, 2, 0), // no flag
        (0, 67, 65, 0), // a note too long
        (0, 92, 32, 0), // a blank in a note
        (0, 93, 1, 0), // a byte behind the note
        (0, 159, 1, 0), // a reserved byte of a record
        (0, 171, 3, 0), // the number of the second record
        (0, 164, 64, 0), // a number of 2^62 and more
        (0, 162, 0, 0), // a delete without an old point
        (0, 180, 1, 0), // a delete with a point
        (1, 92, 45, 1), // a note that is a single dash
        (0, 64, 0, 1), // records that are missing
        (0, 256, 165, 0), // an open gate over no record
    ] {
        assert_eq!(rt;
            read_changed(&mut device, segment, at, byte, alloc),
            Some(Err(LogFault::BadLog(bad))),
            "{segment} {at}"
        );
    }
    assert_eq!(rt; read(&mut device, 2, alloc), Some(Ok(3)));
    Ok(())
}

#[test]
fn no_open_segment_is_bad(rt: HostRuntime) -> Result<(), Fail> {
    let alloc = rt.alloc();
    let Some(mut device) = fresh(alloc) else {
        panic!(rt; "no device");
    };
    assert_eq!(rt; read(&mut device, 0, alloc), Some(Ok(0)));
    assert_eq!(rt; change(&mut device, 0, 0, 0), Some(165));
    assert_eq!(rt; read(&mut device, 0, alloc), Some(Err(LogFault::BadLog(0))));
    Ok(())
}

/// Puts bytes without meaning, many of them open gates, over the first records of all segments.
fn scatter(device: &mut MemDevice, seed: u32) -> Option<()> {
    let mut state = seed;
    for at in 0..400 {
        for segment in 0..4 {
            state = state.wrapping_mul(1_664_525).wrapping_add(1_013_904_223);
            let byte = if state >> 30 == 0 {
                165
            } else {
                (state >> 20 & 3) as u8
            };
            change(device, segment, at, byte)?;
        }
    }
    Some(())
}

#[test]
fn any_bytes_are_read_or_refused(rt: HostRuntime) -> Result<(), Fail> {
    let alloc = rt.alloc();
    for seed in 0..5 {
        let Some(mut device) = fresh(alloc) else {
            panic!(rt; "no device");
        };
        assert!(rt; scatter(&mut device, seed).is_some());
        assert!(rt; matches!(&read(&mut device, 0, alloc), Some(Err(LogFault::BadLog(_)))));
    }
    Ok(())
}

/// How the log reads after a crash.
fn read_image(
    device: &MemDevice,
    moment: u64,
    torn: Torn,
    alloc: Global,
) -> Option<Result<usize, LogFault>> {
    let mut image = device.image_at(moment, torn).ok()?;
    read(&mut image, 0, alloc)
}

/// How many records each crash leaves at least, after all calls. None where one leaves a log that can't be read, more
/// records than this, or fewer than were there before.
fn least_left(device: &MemDevice, most: usize, alloc: Global) -> Option<usize> {
    let mut least = 0;
    for moment in 0..100 {
        if moment > device.clock() {
            return Some(least);
        }
        for torn in [Torn::Old, Torn::New, Torn::Fill(165), Torn::Front(40)] {
            let count = read_image(device, moment, torn, alloc)?.ok()?;
            if count < least || count > most {
                return None;
            }
            if matches!(&torn, Torn::Old) {
                least = count;
            }
        }
    }
    None
}

#[test]
fn each_crash_leaves_whole_records(rt: HostRuntime) -> Result<(), Fail> {
    let alloc = rt.alloc();
    let Some(device) = three_records(alloc) else {
        panic!(rt; "no log");
    };
    assert_eq!(rt; least_left(&device, 3, alloc), Some(3));
    Ok(())
}

/// Reads an empty log and adds a record. Tells whether the record stands.
fn add_first(device: &mut MemDevice, alloc: Global) -> Option<bool>
    requires pages { device.old.pages ≡ 265 }
{
    let (mut log, _) = Log::read_all(device, START, &[0], alloc).ok()?;
    let first = put(7)?;
    Some(add(&mut log, device, first, None).is_some())
}

#[test]
fn failed_calls_are_answered(rt: HostRuntime) -> Result<(), Fail> {
    let alloc = rt.alloc();
    // an opening reads four gates, a header and a window of records
    for failing in 1..7 {
        let Some(mut device) = fresh_failing(failing, 100, 1000, alloc) else {
            panic!(rt; "no device");
        };
        assert_eq!(rt;
            read(&mut device, 0, alloc),
            Some(Err(LogFault::Failed)),
            "{failing}"
        );
    }
    // then an append writes and syncs the record, and writes and syncs its gate
    for (failing, stands, read_back, left) in [
        (7, false, 0, 0),
        (8, false, 0, 0),
        (9, false, 0, 0),
        (10, false, 1, 0),
        (11, true, 1, 1),
    ] {
        let Some(mut device) = fresh_failing(failing, 100, 1000, alloc) else {
            panic!(rt; "no device");
        };
        assert_eq!(rt; add_first(&mut device, alloc), Some(stands), "{failing}");
        assert_eq!(rt; least_left(&device, 1, alloc), Some(left), "{failing}");
        if failing < 11 {
            assert_eq!(rt;
                read(&mut device, 0, alloc),
                Some(Ok(read_back)),
                "{failing}"
            );
        }
    }
    Ok(())
}

/// A log whose segment 0 has as many records as it may.
fn full(alloc: Global) -> Option<MemDevice>
    ensures { IfSome result (λ device. device.pages ≡ 265) }
{
    let mut device = fresh_failing(0, 9000, 300_000, alloc)?;
    let (mut log, _) = Log::read_all(&mut device, START, &[0], alloc).ok()?;
    for _ in 0..MOST_RECORDS {
        let row = put(7)?;
        add(&mut log, &mut device, row, None)?;
    }
    Some(device)
}

/// Lays a delete of key 0, which was at the origin, at a place of segment 0, with the number that belongs there.
fn lay_delete(device: &mut MemDevice, place: u16) -> Option<()> {
    if device.pages() < PAGES || place > 2048 {
        return None;
    }
    let gate = 36_928 + 96 * u64::from(place);
    let [high, low] = (place + 1).to_be_bytes();
    for at in 0..96 {
        let byte = match at {
            0 => 165,
            1 => 2,
            2 => 1,
            10 => high,
            11 => low,
            _ => 0,
        };
        device.poke(gate + at, byte);
    }
    Some(())
}

#[test]
fn a_full_segment_is_read(rt: HostRuntime) -> Result<(), Fail> {
    let alloc = rt.alloc();
    let Some(mut device) = full(alloc) else {
        panic!(rt; "no log");
    };
    assert_eq!(rt; read(&mut device, 0, alloc), Some(Ok(2048)));
    assert!(rt; lay_delete(&mut device, 2047).is_some());
    assert_eq!(rt; read(&mut device, 0, alloc), Some(Ok(2048)));
    // a sound record too many
    assert!(rt; lay_delete(&mut device, 2048).is_some());
    assert_eq!(rt; read(&mut device, 0, alloc), Some(Err(LogFault::BadLog(0))));
    Ok(())
}

/// Starts a log at this place, and adds three records.
fn start_log(device: &mut MemDevice, start: u64, alloc: Global) -> Option<()>
    requires pages { EndsOnDevice start device.old.pages }
    ensures pages { device.new.pages ≡ device.old.pages }
{
    start_segment(device, start, 0, 0, 1).ok()?;
    add_three(device, start, alloc)
}

/// The front of the first record in segment 1, and how the log reads.
fn found_at(device: &mut MemDevice, start: u64, alloc: Global) -> Option<([u8; 20], usize)>
    requires pages { EndsOnDevice start device.old.pages }
    ensures pages { device.new.pages ≡ device.old.pages }
{
    let mut record = [0; 20];
    device.read(segment_start(start, 1) + 64, &mut record).ok()?;
    Some((record, read_at(device, start, 2, alloc).ok()?))
}

#[test]
fn a_log_may_begin_anywhere(rt: HostRuntime) -> Result<(), Fail> {
    let alloc = rt.alloc();
    let Ok(mut device) = MemDevice::new(alloc, 520, 200, 2000, Vec::new(alloc)) else {
        panic!(rt; "no device");
    };
    let second = 100 + LOG_BYTES;
    assert_eq!(rt; start_log(&mut device, 100, alloc), Some(()));
    assert_eq!(rt; start_log(&mut device, second, alloc), Some(()));
    let third = *b"\xa5\x01\x00\x01\0\0\0\0\0\0\0\x03\0\0\0\0\0\0\0\x08";
    assert_eq!(rt; found_at(&mut device, 100, alloc), Some((third, 3)));
    assert_eq!(rt; found_at(&mut device, second, alloc), Some((third, 3)));
    // no log begins between these places
    assert_eq!(rt;
        read_at(&mut device, START, 0, alloc),
        Err(LogFault::BadLog(0))
    );
    Ok(())
}
