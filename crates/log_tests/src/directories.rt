// What no proof sees: that the definitions say what was meant. Expected answers are worked out by hand.
ghost use Rattle.std.specs.Prelude.{◌≡◌, IfSome};

use comp_dir::{
    DirFault, LSN_LIMIT, MOST_LIVE, SLOTS, Slot, chosen, close_gate, install_slot, open_gate,
    read_dir, write_slot,
};
use dev_model::Device;
use geo_base::IndexSet;
use mem_device::{MemDevice, Torn};
use std::alloc::Global;
use std::test::Fail;

/// A device of zeros, of which one call fails, counted from 1.
fn fresh(failing: u64, alloc: Global) -> Option<MemDevice>
    ensures { IfSome result (λ device. device.pages ≡ 300) }
{
    let mut fail = Vec::new(alloc);
    fail.push(failing).ok()?;
    MemDevice::new(alloc, 300, 100, 1000, fail).ok()
}

/// A component of the R-tree on 4 pages: 2 leaves of points, their root, and a page of deleted keys.
fn component(first: u32, first_lsn: u64, last_lsn: u64) -> Slot {
    Slot {
        index: 1,
        first,
        pages: 4,
        first_lsn,
        last_lsn,
        main_rows: 400,
        second_rows: 1,
        second_at: 3,
        filter_at: 0,
        filter_bits: 0,
        table_rows: 0,
    }
}

/// The open slots of a device with these declared indexes.
fn read(
    device: &mut MemDevice,
    indexes: u8,
    alloc: Global,
) -> Option<Result<Vec<(u16, Slot)>, DirFault>> {
    if device.pages() < 9 {
        return None;
    }
    let declared = IndexSet::of_bits(indexes)?;
    Some(read_dir(device, declared, alloc))
}

/// How many open slots there are, or why the directory can't be read.
fn count(device: &mut MemDevice, indexes: u8, alloc: Global) -> Option<Result<usize, DirFault>> {
    match read(device, indexes, alloc)? {
        Ok(found) => Some(Ok(found.len())),
        Err(fault) => Some(Err(fault)),
    }
}

/// A device on which this slot alone is installed, as slot 5.
fn installed(slot: &Slot, alloc: Global) -> Option<MemDevice>
    ensures { IfSome result (λ device. device.pages ≡ 300) }
{
    let mut device = fresh(0, alloc)?;
    if install_slot(&mut device, 5, slot).is_err() {
        return None;
    }
    Some(device)
}

/// Closes a slot and opens another one.
fn exchange(device: &mut MemDevice, closed: u16, opened: u16) -> Option<()> {
    if device.pages() < 9 || closed >= SLOTS || opened >= SLOTS {
        return None;
    }
    close_gate(device, closed).ok()?;
    open_gate(device, opened).ok()
}

/// Changes a byte of slot 5.
fn change(device: &mut MemDevice, at: u16, byte: u8) -> Option<()> {
    if device.pages() < 9 || at >= 64 {
        return None;
    }
    device.poke(4416 + u64::from(at), byte);
    Some(())
}

#[test]
fn installed_slots_are_read(rt: HostRuntime) -> Result<(), Fail> {
    let alloc = rt.alloc();
    let low = component(270, 1, 9);
    let high = component(280, 10, 12);
    let Some(mut device) = installed(&high, alloc) else {
        panic!(rt; "no device");
    };
    assert!(rt; install_slot(&mut device, 3, &low).is_ok());
    assert!(rt; write_slot(&mut device, 511, &low).is_ok());
    let Some(Ok(found)) = read(&mut device, 1, alloc) else {
        panic!(rt; "no directory");
    };
    assert_eq!(rt; found.len(), 2);
    assert_eq!(rt; found[0], (3, low));
    assert_eq!(rt; found[1], (5, high));
    assert!(rt; exchange(&mut device, 3, 511).is_some());
    let Some(Ok(found)) = read(&mut device, 1, alloc) else {
        panic!(rt; "no directory");
    };
    assert_eq!(rt; found.len(), 2);
    assert_eq!(rt; found[0], (5, high));
    assert_eq!(rt; found[1], (511, low));
    Ok(())
}

#[test]
fn each_byte_that_breaks_a_rule_is_found(rt: HostRuntime) -> Result<(), Fail> {
    let alloc = rt.alloc();
    let bad = Err(DirFault::BadSlot(5));
    // place in the slot, byte, what is read
    for (at, byte, wanted) in [
        (0, 164, Ok(0)), // a closed gate
        (1, 6, bad), // no index
        (1, 2, bad), // an index without a second part
        (2, 1, bad), // a reserved byte
        (3, 1, bad),
        (6, 0, bad), // the extent at page 14
        (7, 8, bad), // at page 264
        (7, 9, Ok(1)), // at page 265
        (7, 40, Ok(1)), // up to the end of the device
        (7, 41, bad), // past it
        (8, 255, bad), // more pages than there are
        (11, 0, bad), // no page
        (11, 3, bad), // too few pages
        (11, 5, Ok(1)), // a page more
        (19, 0, bad), // write 0
        (19, 9, Ok(1)), // one write
        (19, 10, bad), // an interval that ends before it begins
        (20, 63, Ok(1)), // the greatest numbers
        (20, 64, bad), // a number of 2^62 and more
        (30, 0, Ok(1)), // fewer rows
        (29, 1, bad), // more rows
        (35, 0, Ok(1)), // no deleted key, which takes a page still
        (34, 2, bad), // three pages of deleted keys
        (39, 2, bad), // parts that overlap
        (39, 4, bad), // a second part behind the extent
        (43, 1, bad), // a filter
        (47, 1, bad),
        (55, 1, bad), // rows of the table
        (63, 1, bad), // a reserved byte
    ] {
        let Some(mut device) = installed(&component(270, 1, 9), alloc) else {
            panic!(rt; "no device");
        };
        assert!(rt; change(&mut device, at, byte).is_some());
        assert_eq!(rt; count(&mut device, 31, alloc), Some(wanted), "{at} {byte}");
    }
    Ok(())
}

#[test]
fn parts_are_those_of_the_index(rt: HostRuntime) -> Result<(), Fail> {
    let alloc = rt.alloc();
    let bad = Err(DirFault::BadSlot(5));
    // index, declared, pages, rows of the main part, of the second part, its place, rows of the table, what is read
    for (index, indexes, pages, main_rows, second_rows, second_at, table_rows, wanted) in [
        (0, 0, 3, 53, 0, 0, 53, Ok(1)), // two leaves and a root of the primary
        (0, 0, 2, 53, 0, 0, 53, bad),
        (0, 0, 1, 52, 0, 0, 7, Ok(1)),
        (0, 0, 4, 53, 0, 3, 53, bad), // a place of no part
        (1, 30, 4, 400, 1, 3, 0, bad), // not declared
        (2, 2, 3, 314 * 2, 0, 0, 0, Ok(1)),
        (2, 2, 3, 314 * 2 + 1, 0, 0, 0, bad),
        (3, 4, 3, 314 * 2, 0, 0, 0, Ok(1)),
        (4, 8, 3, 371 * 2, 0, 0, 0, Ok(1)),
        (4, 8, 3, 371 * 2 + 1, 0, 0, 0, bad),
        (5, 16, 3, 408, 454 * 2, 1, 0, Ok(1)), // a page of the dictionary and two of postings
        (5, 16, 3, 408, 454 * 2 + 1, 1, 0, bad),
        (5, 16, 3, 408, 454, 0, 0, bad), // over the dictionary
        (5, 16, 3, 408, 0, 0, 0, Ok(1)), // no postings
        (5, 16, 3, 408, 0, 3, 0, Ok(1)),
        (5, 16, 3, 408, 0, 4, 0, bad), // behind the extent
    ] {
        let slot = Slot {
            index,
            first: 270,
            pages,
            first_lsn: 1,
            last_lsn: 9,
            main_rows,
            second_rows,
            second_at,
            filter_at: 0,
            filter_bits: 0,
            table_rows,
        };
        let Some(mut device) = installed(&slot, alloc) else {
            panic!(rt; "no device");
        };
        assert_eq!(rt;
            count(&mut device, indexes, alloc),
            Some(wanted),
            "{index} {main_rows}"
        );
    }
    Ok(())
}

/// What is chosen of two components and a third one, of which each stands on 4 pages from a page on and has the writes of
/// an interval: how many are live.
fn choose(
    first: (u32, u64, u64),
    second: (u32, u64, u64),
    third: (u32, u64, u64),
    alloc: Global,
) -> Result<usize, DirFault> {
    let slots = [
        (2, component(first.0, first.1, first.2)),
        (4, component(second.0, second.1, second.2)),
        (6, component(third.0, third.1, third.2)),
    ];
    let found = chosen(&slots, alloc)?;
    Ok(found.live.len())
}

#[test]
fn slots_that_clash_are_found(rt: HostRuntime) -> Result<(), Fail> {
    let alloc = rt.alloc();
    // for each of three components its first page, its first and its last write
    for (first, second, third, wanted) in [
        ((265, 1, 5), (269, 6, 9), (273, 10, 10), Ok(3)),
        ((265, 1, 5), (269, 6, 9), (273, 1, 9), Ok(1)),
        ((265, 6, 9), (269, 1, 9), (273, 1, 3), Ok(1)),
        ((265, 1, 9), (269, 3, 4), (273, 10, 10), Ok(2)),
        (
            (265, 1, 5),
            (268, 6, 9),
            (273, 10, 10),
            Err(DirFault::BadSlot(4)),
        ), // a page of two
        (
            (265, 1, 5),
            (269, 1, 9),
            (268, 6, 9),
            Err(DirFault::BadSlot(6)),
        ), // of two that are ignored
        (
            (265, 1, 5),
            (269, 1, 5),
            (273, 1, 9),
            Err(DirFault::BadSlot(4)),
        ), // equal intervals
        (
            (265, 1, 5),
            (269, 5, 9),
            (273, 1, 9),
            Err(DirFault::BadSlot(4)),
        ), // that overlap
        (
            (265, 2, 5),
            (269, 6, 9),
            (273, 10, 10),
            Err(DirFault::BadSlot(2)),
        ), // no first write
        (
            (265, 1, 5),
            (269, 7, 9),
            (273, 10, 10),
            Err(DirFault::BadSlot(4)),
        ), // a write is missing
        (
            (265, 1, 9),
            (269, 3, 4),
            (273, 5, 12),
            Err(DirFault::BadSlot(6)),
        ),
        (
            (265, 1, u64::MAX),
            (269, 0, 0),
            (273, 1, 1),
            Err(DirFault::BadSlot(4)),
        ),
    ] {
        assert_eq!(rt; choose(first, second, third, alloc), wanted);
    }
    Ok(())
}

/// How many are live of so many components that follow one another.
fn choose_run(run: u16, alloc: Global) -> Option<Result<usize, DirFault>> {
    let mut slots = Vec::new(alloc);
    for n in 0..run {
        let write = u64::from(n) + 1;
        slots
            .push((n, component(265 + 4 * u32::from(n), write, write)))
            .ok()?;
    }
    match chosen(slots.as_slice(), alloc) {
        Ok(found) => Some(Ok(found.live.len())),
        Err(fault) => Some(Err(fault)),
    }
}

#[test]
fn an_index_has_sixteen_live_slots(rt: HostRuntime) {
    let alloc = rt.alloc();
    assert_eq!(rt; choose_run(0, alloc), Some(Ok(0)));
    assert_eq!(rt; choose_run(16, alloc), Some(Ok(MOST_LIVE)));
    assert_eq!(rt; choose_run(18, alloc), Some(Err(DirFault::BadSlot(16))));
    assert_eq!(rt; LSN_LIMIT, 1 << 62);
}

/// How many slots each crash leaves at least after the calls, None where one leaves a directory that can't be read or more.
fn least_left(device: &MemDevice, alloc: Global) -> Option<usize> {
    let mut least = 0;
    for moment in 0..5 {
        if moment > device.clock() {
            return Some(least);
        }
        for torn in [Torn::Old, Torn::New, Torn::Fill(165)] {
            let mut image = device.image_at(moment, torn).ok()?;
            let left = count(&mut image, 1, alloc)?.ok()?;
            if left < least || left > 1 {
                return None;
            }
            if matches!(&torn, Torn::Old) {
                least = left;
            }
        }
    }
    Some(least)
}

#[test]
fn each_crash_leaves_whole_slots(rt: HostRuntime) -> Result<(), Fail> {
    let alloc = rt.alloc();
    // the call that fails, how many slots each crash leaves in the end, whether the install succeeds
    for (failing, left, stands) in [(2, 0, false), (3, 0, false), (5, 1, true)] {
        let Some(mut device) = fresh(failing, alloc) else {
            panic!(rt; "no device");
        };
        let answer = install_slot(&mut device, 9, &component(265, 1, 9));
        assert_eq!(rt; answer.is_ok(), stands, "{failing}");
        assert_eq!(rt; least_left(&device, alloc), Some(left), "{failing}");
    }
    Ok(())
}

#[test]
fn failed_reads_are_answered(rt: HostRuntime) -> Result<(), Fail> {
    let alloc = rt.alloc();
    for failing in 1..9 {
        let Some(mut device) = fresh(failing, alloc) else {
            panic!(rt; "no device");
        };
        assert_eq!(rt;
            count(&mut device, 31, alloc),
            Some(Err(DirFault::Failed)),
            "{failing}"
        );
    }
    let Some(mut device) = fresh(9, alloc) else {
        panic!(rt; "no device");
    };
    assert_eq!(rt; count(&mut device, 31, alloc), Some(Ok(0)));
    Ok(())
}
