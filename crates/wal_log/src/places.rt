// Where the segments and their records stand, counted from the byte where the log begins, and the fields of a record.
// Definitions and code take the numbers from here.
ghost use Rattle.std.specs.Prelude.{◌≡◌, ◌+◌, ◌<◌, ◌≤◌, ◌^◌};
ghost use Rattle.wal_log.specs.Places.{segment_start, record_start};

/// The bytes of a segment.
pub const SEGMENT_BYTES: u64 = 262_144;

/// The bytes of the log, which are those of its four segments.
pub const LOG_BYTES: u64 = 4 * SEGMENT_BYTES;

/// The bytes of a segment's header with its gate.
pub const HEADER_BYTES: u64 = 64;

/// The bytes of a record with its gate.
pub const RECORD_BYTES: u64 = 96;

/// The bytes of a header behind its gate.
pub const HEADER_BODY_BYTES: usize = 63;

/// The reserved bytes of a header, counted from behind its gate.
pub const RESERVED_AT: usize = 16;

/// How many these are. Each is zero.
pub const RESERVED_BYTES: usize = 47;

/// The bytes of a record behind its gate.
pub const RECORD_BODY_BYTES: usize = 95;

/// The number of a record, counted from behind its gate like the fields after it.
pub const LSN_AT: usize = 3;

/// The key.
pub const KEY_AT: usize = 11;

/// The point.
pub const POINT_AT: usize = 19;

/// The point that the key had before.
pub const OLD_POINT_AT: usize = 23;

/// The note, and zeros to the end of the record.
pub const NOTE_AT: usize = 27;

/// The bytes of the note and these zeros.
pub const NOTE_FIELD: usize = 68;

/// Each number of a record is below this one.
pub const LSN_LIMIT: u64 = 0x4000_0000_0000_0000;

/// How many records a segment may have.
pub const MOST_RECORDS: u64 = 2048;

/// The byte where a segment begins, which is the gate of its header.
pub fn segment_start(log_start: u64, segment: u8) -> u64
    requires segment { segment < 4 }
    requires fits { log_start + LOG_BYTES < 2 ^ 64 }
    ensures { result ≡ segment_start log_start segment }
{
    log_start + SEGMENT_BYTES * u64::from(segment)
}

/// The byte where a record begins, which is its gate.
pub fn record_start(log_start: u64, segment: u8, place: u64) -> u64
    requires segment { segment < 4 }
    requires fits { log_start + LOG_BYTES < 2 ^ 64 }
    requires place { place ≤ MOST_RECORDS }
    ensures { result ≡ record_start log_start segment place }
{
    segment_start(log_start, segment) + HEADER_BYTES + RECORD_BYTES * place
}
