// The log as a value, from the device.
ghost use Rattle.std.specs.Prelude.{◌≡◌, ◌==◌, ◌+◌, ◌<◌, ◌≤◌, ◌^◌, length, All, IfOk, IfErr, ℕ, false, get_or};
ghost use Rattle.dev_model.specs.Counts.{HasCause};
ghost use Rattle.dev_model.specs.Story.{WhereTold};
ghost use Rattle.wal_log.specs.Reads.{EndsOnDevice, OnlyReadsLog, WhereStill};
ghost use Rattle.wal_log.specs.Segments.{segments_of};
ghost use Rattle.wal_log.specs.Rules.{Opens, records_of};
ghost use Rattle.wal_log.specs.Bad.{IsBad};
ghost use Rattle.wal_log.specs.Found.{WhereBad, HasCauseOfFault};
ghost use Rattle.wal_log.specs.State.{IsAtRest, IsLogOf};
ghost use Rattle.wal_log.specs.Counted.{IsCounted};

use crate::places::LSN_LIMIT;
use crate::walk::{Gathered, read_segments};
use crate::{Log, LogFault, Record};
use dev_model::Device;
use std::alloc::Global;

impl Log {
    /// Reads the log that begins at `log_start`: its end, and all records in order. `ends` are the numbers of the last records
    /// that the indexes hold, and there is one at least.
    pub fn read_all<D: Device>(
        device: &mut D,
        log_start: u64,
        ends: &[u64],
        alloc: Global,
    ) -> Result<(Log, Vec<Record>), LogFault>
        requires pages { EndsOnDevice log_start (D.seen device.old).pages }
        requires some { 1 ≤ length ends.now }
        requires below { All (λ last. last < LSN_LIMIT) ends.now }
        ensures opens { IfOk result (λ read. WhereStill log_start (D.seen device.old) (λ bytes. Opens ends.now (segments_of log_start bytes))) }
        ensures records { IfOk result (λ read. WhereStill log_start (D.seen device.old) (λ bytes. read.1.items ≡ records_of (segments_of log_start bytes))) }
        ensures start { IfOk result (λ read. read.0.start ≡ log_start) }
        ensures counted { IfOk result (λ read. IsCounted read.0) }

        // No index ends behind the first record of the newest segment.
        ensures behind { IfOk result (λ read. All (λ last. last + 1 + read.0.records ≤ read.0.next_lsn) ends.now) }
        ensures log_of { IfOk result (λ read. WhereStill log_start (D.seen device.old) (λ bytes. IsLogOf read.0 (segments_of log_start bytes))) }
        ensures at_rest { IfOk result (λ read. WhereStill log_start (D.seen device.old) (λ bytes. WhereTold (D.seen device.new).story (IsAtRest read.0))) }
        ensures bad { IfErr result (λ fault. WhereBad fault (λ number.
            WhereStill log_start (D.seen device.old) (λ bytes. IsBad ends.now (segments_of log_start bytes) number))) }
        ensures reads { OnlyReadsLog log_start (D.seen device.old) (D.seen device.new) }
        ensures same_pages { (D.seen device.new).pages ≡ (D.seen device.old).pages }
        ensures cause { HasCauseOfFault (D.seen device.old).faults (D.seen device.new).faults result }
    {
        match read_segments(device, log_start, ends, alloc) {
            Ok(read) => {
                let Gathered {
                    ended,
                    open_headers,
                    records,
                } = read;
                let log = Log {
                    start: log_start,
                    generation: ended.generation,
                    next_lsn: ended.first_lsn + ended.records,
                    records: ended.records,
                    open_headers,
                };
                Ok((log, records))
            }
            Err(fault) => Err(fault),
        }
    }
}
