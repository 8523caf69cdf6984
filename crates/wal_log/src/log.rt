// The log: its end, where it grows, and the turn to the next segment.
ghost use Rattle.std.specs.Prelude.{◌≡◌, ◌+◌, ◌-◌, ◌++◌, ◌∷◌, [], ◌<◌, ◌≤◌, ◌^◌, false, IfOk, OnErr, OnOk, get_or, length};
ghost use Rattle.dev_model.specs.Story.{WhereTold};
ghost use Rattle.dev_model.specs.Doing.{Made};
ghost use Rattle.dev_model.specs.Writes.{WritesWithin};
ghost use Rattle.gate.specs.Calls.{close_calls};
ghost use Rattle.wal_log.specs.Places.{segment_start, record_start};
ghost use Rattle.wal_log.specs.Reads.{EndsOnDevice};
ghost use Rattle.wal_log.specs.Records.{record_bytes, HasOld};
ghost use Rattle.wal_log.specs.State.{IsAtRest, IsLogOf, newest, following, close_calls_if, start_calls, turn_calls};
ghost use Rattle.wal_log.specs.Counted.{IsCounted};
ghost use Rattle.wal_log.specs.Changes.{append_calls, appended, turned, segments_in, Appends, Turns, KeepsLater};

use crate::Record;
use crate::places::{
    LSN_LIMIT, MOST_RECORDS, RECORD_BYTES, SEGMENT_BYTES, record_start, segment_start,
};
use crate::spelling::{header_with_closed_gate, with_closed_gate};
use dev_model::{Device, Failed};
use gate::{close_gate, write_gated};

/// A log: its place, its newest generation with the records there, the next number, and which headers are open.
#[derive(Clone, Copy)]
pub struct Log {
    /// The byte of the device where the log begins, the log's place.
    pub start: u64,
    /// The newest generation. Its segment is the remainder by 4.
    pub generation: u64,
    /// The number of the next record.
    pub next_lsn: u64,
    /// How many records the newest segment has.
    pub records: u64,
    /// Which segments have an open header.
    pub open_headers: [bool; 4],
}

impl Log {
    fn newest(&self) -> u8
        ensures is { result ≡ newest self.now }
        ensures below { result < 4 }
    {
        (self.generation % 4) as u8
    }

    /// Adds a record, by a write, a sync, a write and a sync. It answers the clock after the last sync; from then on each
    /// crash leaves the record. After `Failed` the log is not used again.
    pub fn append<D: Device>(&mut self, device: &mut D, logged: &Record) -> Result<u64, Failed>
        requires room { self.old.records < MOST_RECORDS }
        requires next { logged.now.lsn ≡ self.old.next_lsn }
        requires below { logged.now.lsn < LSN_LIMIT }
        requires has_old { HasOld logged.now.op logged.now.old_point }
        requires pages { EndsOnDevice self.old.start (D.seen device.old).pages }
        requires counted { IsCounted self.old }

        ensures made { Made (append_calls self.old logged.now) (D.seen device.old) (D.seen device.new) result }
        ensures ack { IfOk result (λ ack. ack ≡ (D.seen device.new).clock) }
        ensures within { WhereTold (D.seen device.old).story (λ s. WritesWithin (record_start self.old.start (newest self.old) self.old.records) (RECORD_BYTES + 1) s (D.seen device.new).story) }
        ensures appends { WhereTold (D.seen device.old).story (λ s. IsAtRest self.old s → Appends self.old self.new logged.now result s (D.seen device.new).story) }
        ensures log { OnOk result (self.new ≡ appended self.old) }
        ensures unchanged { OnErr result (self.new ≡ self.old) }
        ensures counted { IsCounted self.new }
        ensures width { length (record_bytes logged.now) ≡ RECORD_BYTES - 1 }
    {
        let gate = record_start(self.start, self.newest(), self.records);
        let spelled = with_closed_gate(logged);
        write_gated(device, gate, spelled.bytes())?;
        self.records += 1;
        self.next_lsn += 1;
        Ok(device.clock())
    }

    /// Goes on in the next segment, which takes the records after the last. Where its header is open, that is closed first.
    /// After `Failed` the log is not used again.
    pub fn next_segment<D: Device>(&mut self, device: &mut D) -> Result<(), Failed>
        requires some { 1 ≤ self.old.records }
        requires pages { EndsOnDevice self.old.start (D.seen device.old).pages }
        requires counted { IsCounted self.old }

        ensures made { Made (turn_calls self.old) (D.seen device.old) (D.seen device.new) result }
        ensures within { WhereTold (D.seen device.old).story (λ s. WritesWithin (segment_start self.old.start (following self.old)) SEGMENT_BYTES s (D.seen device.new).story) }
        ensures turns { WhereTold (D.seen device.old).story (λ s. IsAtRest self.old s → Turns self.old self.new result s (D.seen device.new).story) }
        ensures later { WhereTold (D.seen device.old).story (λ s. IsLogOf self.old (segments_in self.old s) → KeepsLater self.old (segments_in self.old s)) }
        ensures log { OnOk result (self.new ≡ turned self.old) }
        ensures unchanged { OnErr result (self.new ≡ self.old) }
        ensures counted { IsCounted self.new }
    {
        let generation = self.generation + 1;
        let next = (generation % 4) as u8;
        let is_open = self.open_headers[usize::from(next)];
        turn(device, self, next, is_open)?;
        self.generation = generation;
        self.records = 0;
        self.open_headers[usize::from(next)] = true;
        Ok(())
    }
}

/// Starts the segment behind a log's newest one, which is closed first where its header is open.
fn turn<D: Device>(device: &mut D, log: &Log, k: u8, is_open: bool) -> Result<(), Failed>
    requires below { k < 4 }
    requires next { log.now.generation + 1 < 2 ^ 64 }
    requires pages { EndsOnDevice log.now.start (D.seen device.old).pages }
    ensures { Made (close_calls_if log.now.start is_open k ++ start_calls log.now.start k (log.now.generation + 1) log.now.next_lsn) (D.seen device.old) (D.seen device.new) result }
{
    close_if_open(device, log.start, k, is_open)?;
    start_segment(device, log.start, k, log.generation + 1, log.next_lsn)
}

/// Closes the gate of a segment's header where it is open.
fn close_if_open<D: Device>(
    device: &mut D,
    log_start: u64,
    k: u8,
    is_open: bool,
) -> Result<(), Failed>
    requires below { k < 4 }
    requires pages { EndsOnDevice log_start (D.seen device.old).pages }
    ensures { Made (close_calls_if log_start is_open k) (D.seen device.old) (D.seen device.new) result }
{
    if is_open {
        return close_gate(device, segment_start(log_start, k));
    }
    Ok(())
}

/// Starts a segment whose header is closed, without a record, in the log that begins at `log_start`: writes the header with
/// the closed gate of the segment's first record, syncs, opens the header's gate and syncs. It stops at the call that fails.
pub fn start_segment<D: Device>(
    device: &mut D,
    log_start: u64,
    k: u8,
    generation: u64,
    first_lsn: u64,
) -> Result<(), Failed>
    requires below { k < 4 }
    requires pages { EndsOnDevice log_start (D.seen device.old).pages }
    ensures { Made (start_calls log_start k generation first_lsn) (D.seen device.old) (D.seen device.new) result }
{
    let spelled = header_with_closed_gate(generation, first_lsn);
    write_gated(device, segment_start(log_start, k), spelled.bytes())
}
