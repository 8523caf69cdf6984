// The log as it is found on a device.
ghost use Rattle.std.specs.Prelude.{◌≡◌, ◌+◌, ◌*◌, ◌%◌, ◌<◌, ◌≤◌, ◌++◌, [], ◌∷◌, Some, IfOk, IfErr, OnOk, OnErr, ℕ, length, map, slice_index};
ghost use Rattle.dev_model.specs.Counts.{HasCause, Rose};
ghost use Rattle.dev_model.specs.Story.{WhereTold, bytes_of};
ghost use Rattle.dev_model.specs.Answers.{IsReadFrom};
ghost use Rattle.wal_log.specs.Places.{record_start};
ghost use Rattle.wal_log.specs.Reads.{EndsOnDevice, OnlyReadsLog};
ghost use Rattle.wal_log.specs.Records.{record_of, IsRecord};
ghost use Rattle.wal_log.specs.Segments.{segment_records, segments_of};
ghost use Rattle.wal_log.specs.Rules.{HasRecords};
ghost use Rattle.wal_log.specs.Found.{HoldsPlaces, IsFoundIn, window_start, IsPlaceStill, IsFound, HasReadAll, HasCauseOfFault, HasNumber, AreFew, WhereBad, WhereOpenStill};

use crate::Record;
use crate::parsing::parse;
use crate::places::{MOST_RECORDS, RECORD_BYTES, record_start};
use dev_model::{Device, Failed};
use gate::OPEN;

/// What is read at once: a page's bytes from a record's place on.
pub const WINDOW_BYTES: usize = 4096;

/// How many whole records these are.
pub const WINDOW_RECORDS: u64 = 42;

/// Why a log can't be read.
#[derive(Clone, Copy, Debug, PartialEq, Eq)]
pub enum LogFault {
    /// A call of the device failed.
    Failed,
    /// This segment is the first, in the order of generations, that breaks a rule. 0 where none is open.
    BadLog(u8),
    /// Memory was refused.
    OutOfMemory,
}

/// What stands at a record's place.
pub enum Found {
    Closed,
    Bad,
    Sound(Record),
}

/// Fills the window where a place is the first in it.
fn fill_window<D: Device>(
    device: &mut D,
    log_start: u64,
    segment: u8,
    place: u64,
    window: &mut [u8],
) -> Result<(), Failed>
    requires below { segment < 4 }
    requires place { place ≤ MOST_RECORDS }
    requires pages { EndsOnDevice log_start (D.seen device.old).pages }
    requires width { length window.old ≡ WINDOW_BYTES }
    ensures here { OnOk result (WhereTold (D.seen device.old).story (λ s. HoldsPlaces log_start segment place window.old s → IsReadFrom (window_start log_start segment place) window.new s)) }
    ensures holds { OnOk result (WhereTold (D.seen device.old).story (HoldsPlaces log_start segment place window.old) → WhereTold (D.seen device.new).story (IsReadFrom (window_start log_start segment place) window.new)) }
    ensures reads { OnlyReadsLog log_start (D.seen device.old) (D.seen device.new) }
    ensures same_pages { (D.seen device.new).pages ≡ (D.seen device.old).pages }
    ensures cause { HasCause (D.seen device.old).faults (D.seen device.new).faults result }
{
    if place % WINDOW_RECORDS != 0 {
        return Ok(());
    }
    device.read(record_start(log_start, segment, place), window)?;
    Ok(())
}

/// What stands at a place of the window.
fn find_place(window: &[u8], place: u64, first_lsn: u64) -> Found
    requires { length window.now ≡ WINDOW_BYTES }
    ensures found { IsFoundIn (RECORD_BYTES * (place % WINDOW_RECORDS)) (first_lsn + place) window.now result }
    ensures number { HasNumber (first_lsn + place) result }
{
    let at = RECORD_BYTES as usize * (place % WINDOW_RECORDS) as usize;
    if window[at] != OPEN {
        return Found::Closed;
    }
    match parse(
        &window[at + 1..at + RECORD_BYTES as usize],
        first_lsn,
        place,
    ) {
        Some(record) => Found::Sound(record),
        None => Found::Bad,
    }
}

/// Reads the place of a record, with those behind it where the window doesn't hold it yet.
fn read_place<D: Device>(
    device: &mut D,
    log_start: u64,
    segment: u8,
    place: u64,
    first_lsn: u64,
    window: &mut [u8],
) -> Result<Found, Failed>
    requires below { segment < 4 }
    requires place { place ≤ MOST_RECORDS }
    requires pages { EndsOnDevice log_start (D.seen device.old).pages }
    requires width { length window.old ≡ WINDOW_BYTES }
    ensures found { IfOk result (λ found. WhereTold (D.seen device.old).story (λ s. HoldsPlaces log_start segment place window.old s → IsPlaceStill (record_start log_start segment place) s → IsFound (record_start log_start segment place) (first_lsn + place) (bytes_of s) found)) }
    ensures holds { OnOk result (WhereTold (D.seen device.old).story (HoldsPlaces log_start segment place window.old) → WhereTold (D.seen device.new).story (HoldsPlaces log_start segment (place + 1) window.new)) }
    ensures number { IfOk result (HasNumber (first_lsn + place)) }
    ensures reads { OnlyReadsLog log_start (D.seen device.old) (D.seen device.new) }
    ensures same_pages { (D.seen device.new).pages ≡ (D.seen device.old).pages }
    ensures cause { HasCause (D.seen device.old).faults (D.seen device.new).faults result }
{
    fill_window(device, log_start, segment, place, window)?;
    Ok(find_place(window, place, first_lsn))
}

/// Reads the records of a segment to the end of a list, and answers how many there were.
pub fn read_records<D: Device>(
    device: &mut D,
    log_start: u64,
    segment: u8,
    first_lsn: u64,
    records: &mut Vec<Record>,
) -> Result<u64, LogFault>
    requires below { segment < 4 }
    requires pages { EndsOnDevice log_start (D.seen device.old).pages }
    ensures read { IfOk result (λ count. WhereOpenStill log_start segment (D.seen device.old) (λ bytes.
        HasReadAll first_lsn count (segment_records log_start segment bytes) records.old.items records.new.items)) }
    ensures few { IfOk result (AreFew first_lsn) }
    ensures bad { IfErr result (λ fault. WhereBad fault (λ number.
        (number ≡ segment) × WhereOpenStill log_start segment (D.seen device.old) (λ bytes. HasRecords first_lsn (segment_records log_start segment bytes) → ⊥))) }
    ensures reads { OnlyReadsLog log_start (D.seen device.old) (D.seen device.new) }
    ensures same_pages { (D.seen device.new).pages ≡ (D.seen device.old).pages }
    ensures cause { HasCauseOfFault (D.seen device.old).faults (D.seen device.new).faults result }
{
    let mut window = [0; WINDOW_BYTES];
    for place in 0..MOST_RECORDS + 1 {
        let found = match read_place(device, log_start, segment, place, first_lsn, &mut window) {
            Ok(found) => found,
            Err(_) => return Err(LogFault::Failed),
        };
        match found {
            Found::Closed => return Ok(place),
            Found::Bad => return Err(LogFault::BadLog(segment)),
            Found::Sound(record) => {
                if records.push(record).is_err() {
                    return Err(LogFault::OutOfMemory);
                }
            }
        }
    }
    Err(LogFault::BadLog(segment))
}
