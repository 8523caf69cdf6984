// The walk over the segments, from the oldest to the newest.
ghost use Rattle.std.specs.Prelude.{◌==◌, get_or, false, ◌≡◌, ◌+◌, ◌<◌, ◌≤◌, ◌^◌, ◌++◌, [], ◌∷◌, Some, None, IfOk, IfErr, OnOk, ℕ, length, drop, replicate, All, take};
ghost use Rattle.std.specs.Bool.{OnTrue, OnFalse};
ghost use Rattle.wal_log.specs.Places.{segment_start};
ghost use Rattle.wal_log.specs.Reads.{EndsOnDevice, OnlyReadsLog, WhereStill};
ghost use Rattle.wal_log.specs.Segments.{segments_of};
ghost use Rattle.wal_log.specs.Rules.{Opens, records_of};
ghost use Rattle.wal_log.specs.Bad.{IsBad};
ghost use Rattle.wal_log.specs.Found.{WhereBad, HasCauseOfFault, WhereOpenStill};
ghost use Rattle.wal_log.specs.Walk.{GoesOn, StartsAfter, EndsThere, HasReadSegment, IsUnsound, IsNewest, IsEndOf, IsCountedEnd};

use crate::heads::{Head, read_heads};
use crate::places::{LSN_LIMIT, RESERVED_AT, RESERVED_BYTES};
use crate::reading::read_records;
use crate::{LogFault, Record};
use dev_model::Device;
use gate::OPEN;
use std::alloc::Global;

/// What the segments gave: the end of the newest, which headers are open, and all records in order.
#[derive(Drop)]
pub struct Gathered {
    pub ended: Ended,
    pub open_headers: [bool; 4],
    pub records: Vec<Record>,
}

/// The end of a segment that was read.
#[derive(Clone, Copy)]
pub struct Ended {
    pub generation: u64,
    pub first_lsn: u64,
    pub records: u64,
}

fn is_after(number: u64, before: u64, distance: u64) -> bool
    ensures yes { OnTrue result (number ≡ before + distance) }
    ensures no { OnFalse result (number ≡ before + distance → ⊥) }
{
    before <= number && number - before == distance
}

fn zeros() -> [u8; RESERVED_BYTES]
    ensures { result ≡ replicate RESERVED_BYTES 0 }
{
    [0; RESERVED_BYTES]
}

fn is_reserved(head: &Head) -> bool
    ensures yes { OnTrue result (drop RESERVED_AT head.now.bytes ≡ replicate RESERVED_BYTES 0) }
    ensures no { OnFalse result (drop RESERVED_AT head.now.bytes ≡ replicate RESERVED_BYTES 0 → ⊥) }
{
    &head.bytes[RESERVED_AT..] == &zeros()[..]
}

fn goes_on(before: Option<Ended>, head: &Head) -> bool
    ensures yes { OnTrue result (GoesOn before head.now) }
    ensures no { OnFalse result (GoesOn before head.now → ⊥) }
{
    match before {
        None => head.first_lsn() >= 1 && (head.generation() != 0 || head.first_lsn() == 1),
        Some(ended) => {
            is_after(head.generation(), ended.generation, 1)
                && is_after(head.first_lsn(), ended.first_lsn, ended.records)
        }
    }
}

/// Tests all that is asked of a header.
pub fn starts_after(before: Option<Ended>, head: &Head) -> bool
    ensures yes { OnTrue result (StartsAfter before head.now) }
    ensures no { OnFalse result (StartsAfter before head.now → ⊥) }
{
    head.generation() % 4 == u64::from(head.number)
        && is_reserved(head)
        && goes_on(before, head)
        && head.generation() <= head.first_lsn()
}

fn ends_there(before: Option<Ended>, head: &Head, last: u64) -> bool
    ensures yes { OnTrue result (EndsThere before head.now last) }
    ensures no { OnFalse result (EndsThere before head.now last → ⊥) }
{
    match before {
        None => is_after(head.first_lsn(), last, 1),
        Some(ended) => is_after(head.first_lsn(), last, 1) || is_after(ended.first_lsn, last, 1),
    }
}

/// Tests that each index ends right before the newest segment, or right before the one before it.
pub fn all_end_there(before: Option<Ended>, head: &Head, ends: &[u64]) -> bool
    ensures yes { OnTrue result (All (EndsThere before head.now) ends.now) }
    ensures no { OnFalse result (All (EndsThere before head.now) ends.now → ⊥) }
{
    for last in ends {
        if !ends_there(before, head, *last) {
            return false;
        }
    }
    true
}

/// Reads a segment that comes after another one, to the end of a list of records.
fn read_segment<D: Device>(
    device: &mut D,
    log_start: u64,
    before: Option<Ended>,
    head: &Head,
    records: &mut Vec<Record>,
) -> Result<Ended, LogFault>
    requires pages { EndsOnDevice log_start (D.seen device.old).pages }
    ensures read { IfOk result (λ ended. WhereOpenStill log_start head.now.number (D.seen device.old) (λ bytes.
        HasReadSegment log_start bytes before head.now records.old.items ended records.new.items)) }
    ensures ended { IfOk result (IsEndOf before head.now) }
    ensures bad { IfErr result (λ fault. WhereBad fault (λ number.
        (number ≡ head.now.number) × WhereOpenStill log_start head.now.number (D.seen device.old) (λ bytes. IsUnsound log_start bytes before head.now))) }
    ensures reads { OnlyReadsLog log_start (D.seen device.old) (D.seen device.new) }
    ensures same_pages { (D.seen device.new).pages ≡ (D.seen device.old).pages }
    ensures cause { HasCauseOfFault (D.seen device.old).faults (D.seen device.new).faults result }
{
    if !starts_after(before, head) {
        return Err(LogFault::BadLog(head.number));
    }
    let generation = head.generation();
    let first_lsn = head.first_lsn();
    match read_records(device, log_start, head.number, first_lsn, records) {
        Ok(count) => Ok(Ended {
            generation,
            first_lsn,
            records: count,
        }),
        Err(fault) => Err(fault),
    }
}

/// Reads all segments of the log.
pub fn read_segments<D: Device>(
    device: &mut D,
    log_start: u64,
    ends: &[u64],
    alloc: Global,
) -> Result<Gathered, LogFault>
    requires pages { EndsOnDevice log_start (D.seen device.old).pages }
    requires some { 1 ≤ length ends.now }
    requires below { All (λ last. last < LSN_LIMIT) ends.now }
    ensures opens { IfOk result (λ read. WhereStill log_start (D.seen device.old) (λ bytes. Opens ends.now (segments_of log_start bytes))) }
    ensures records { IfOk result (λ read. WhereStill log_start (D.seen device.old) (λ bytes. read.records.items ≡ records_of (segments_of log_start bytes))) }
    ensures counted { IfOk result (λ read. IsCountedEnd read.ended) }
    ensures behind { IfOk result (λ read. All (λ last. last + 1 ≤ read.ended.first_lsn) ends.now) }
    ensures newest { IfOk result (λ read. WhereStill log_start (D.seen device.old) (λ bytes. IsNewest log_start bytes read.ended)) }
    ensures told { IfOk result (λ read. WhereStill log_start (D.seen device.old) (λ bytes.
        (k : ℕ) → k < 4 → get_or read.open_headers k false ≡ (bytes (segment_start log_start k) == OPEN))) }
    ensures bad { IfErr result (λ fault. WhereBad fault (λ number.
        WhereStill log_start (D.seen device.old) (λ bytes. IsBad ends.now (segments_of log_start bytes) number))) }
    ensures reads { OnlyReadsLog log_start (D.seen device.old) (D.seen device.new) }
    ensures same_pages { (D.seen device.new).pages ≡ (D.seen device.old).pages }
    ensures cause { HasCauseOfFault (D.seen device.old).faults (D.seen device.new).faults result }
{
    let heads = match read_heads(device, log_start, alloc) {
        Ok(heads) => heads,
        Err(fault) => return Err(fault),
    };
    let mut records = Vec::new(alloc);
    let mut before = None;
    for i in 0..heads.in_order.len() {
        let head = heads.in_order[i];
        let ended = match read_segment(device, log_start, before, &head, &mut records) {
            Ok(ended) => ended,
            Err(fault) => return Err(fault),
        };
        if i + 1 == heads.in_order.len() {
            if !all_end_there(before, &head, ends) {
                return Err(LogFault::BadLog(head.number));
            }
            let open_headers = heads.open_headers;
            return Ok(Gathered {
                ended,
                open_headers,
                records,
            });
        }
        before = Some(ended);
    }
    Err(LogFault::BadLog(0))
}
