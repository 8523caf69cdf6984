// Laws of the log, each as the contract of a function that does nothing.
ghost use Rattle.std.specs.Prelude.{◌≡◌, ◌⊎◌, ◌+◌, ◌<◌, ◌≤◌, ℕ, List, length, map, Option, Some};
ghost use Rattle.dev_model.specs.Story.{Story, Calls, bytes_of, after, clock_of};
ghost use Rattle.dev_model.specs.Moments.{EachMoment};
ghost use Rattle.dev_model.specs.Writes.{AreSpared, WritesWithin};
ghost use Rattle.wal_log.specs.Records.{record_bytes, record_of};
ghost use Rattle.wal_log.specs.Rules.{AreRecords, Opens, records_of};
ghost use Rattle.wal_log.specs.Segments.{Segment, segment_at, segments_of};
ghost use Rattle.wal_log.specs.Growing.{IsRecorded, StartsWith};
ghost use Rattle.wal_log.specs.State.{IsSegmentStill, IsAtRest, IsLogOf};
ghost use Rattle.wal_log.specs.Changes.{HasRecordsOrAll, append_all_calls};
ghost use Rattle.wal_log.specs.declared.log.Log.{Log};
ghost use Rattle.wal_log.specs.declared.records.Record.{Record};

use crate::places::{LOG_BYTES, MOST_RECORDS};

/// A law: what a segment has on the disk is in each image of each later moment, until something is written over it. More
/// records may come behind it.
pub fn logged_records_stay()
    ensures { (log_start k : ℕ) (s : Story) (calls : Calls) (segment : Segment)
        → segment_at log_start k (bytes_of s) ≡ Some segment → IsSegmentStill log_start k s
        → ((i : ℕ) → IsRecorded log_start k segment i → AreSpared calls i)
        → EachMoment (clock_of s) (after s calls) (λ _ image. StartsWith segment (segment_at log_start k image)) }
{}

/// A law: records that one write puts behind one another, and of which the gate of the first alone is opened after the
/// sync, are all there after a crash, or none of them is.
pub fn records_stand_together()
    ensures { (log : Log) (s : Story) (rs : List Record)
        → IsAtRest log s → IsLogOf log (segments_of log.start (bytes_of s))
        → 0 < length rs → log.records + length rs ≤ MOST_RECORDS
        → AreRecords log.next_lsn (map record_bytes rs) → map record_of (map record_bytes rs) ≡ rs
        → (ends : List ℕ) → Opens ends (segments_of log.start (bytes_of s))
        → EachMoment (clock_of s) (after s (append_all_calls log rs))
        (λ _ image. HasRecordsOrAll ends (records_of (segments_of log.start (bytes_of s))) rs (segments_of log.start image)) }
{}

/// A law: what a call writes before or behind a log leaves it at rest, and each crash at each moment of the call leaves its
/// segments. So logs whose places don't overlap may stand on one device.
pub fn logs_stand_apart()
    ensures { (log : Log) (s t : Story) (at count : ℕ) (now : Option Story)
        → IsAtRest log s → WritesWithin at count s now → now ≡ Some t
        → (at + count ≤ log.start) ⊎ (log.start + LOG_BYTES ≤ at)
        → IsAtRest log t × EachMoment (clock_of s) t (λ _ image. segments_of log.start image ≡ segments_of log.start (bytes_of s)) }
{}
