// Writes and freezes: each goes to the log first, and to the lists once it stands there.
ghost use Rattle.std.specs.Prelude.{◌≡◌, ◌+◌, ◌-◌, ◌<◌, ◌≤◌, IfOk, OnErr, OnOk, None, true, length, is_some, set};
ghost use Rattle.dev_model.specs.Doing.{Made};
ghost use Rattle.wal_log.specs.Records.{HasOld, record_bytes};
ghost use Rattle.wal_log.specs.State.{turn_calls, following};
ghost use Rattle.wal_log.specs.Changes.{append_calls};
ghost use Rattle.component_image.specs.Replayed.{write_of};
ghost use Rattle.primary_ix.specs.Wanted.{written_row};
ghost use Rattle.store_state.specs.Steps.{added, frozen_at};
ghost use Rattle.store_state.specs.Stepping.{AreInOrder, KeepsTable, LogsWrite};
ghost use Rattle.kept_state.specs.Writing.{next_record};

use dev_model::{Device, Failed};
use format_numbers::FIRST_DATA_PAGE;
use geo_base::{Note, Point};
use store_state::State;
use wal_log::{LSN_LIMIT, Log, LogOp, MOST_RECORDS, Record};

/// Logs a write, and then lays its row in memory, where there has to be room. It answers the device's clock from which on each
/// crash leaves the write. Where a call of the device fails, nothing is laid, and lists and log are as before.
pub fn log_write<D: Device>(
    device: &mut D,
    log: &mut Log,
    state: &mut State,
    op: &LogOp,
    old_point: Option<Point>,
) -> Result<u64, Failed>
    requires room { log.old.records < MOST_RECORDS }
    requires room_in_memory { 1 ≤ state.old.1 }
    requires below { log.old.next_lsn < LSN_LIMIT }
    requires has_old { HasOld op.now old_point }
    requires pages { FIRST_DATA_PAGE ≤ (D.seen device.old).pages }
    requires in_order { AreInOrder log.old state.old.0 }

    ensures made { Made (append_calls log.old (next_record log.old op.now old_point)) (D.seen device.old) (D.seen device.new) result }
    ensures ack { IfOk result (λ ack. ack ≡ (D.seen device.new).clock) }
    ensures width { length (record_bytes (next_record log.old op.now old_point)) ≡ 95 }

    // After `Ok` the log has the record and the lists have its row, and after a failure both are as before.
    ensures log { OnOk result (log.new ≡ record log.old { records = log.old.records + 1; next_lsn = log.old.next_lsn + 1 }) }
    ensures lists { OnOk result (state.new.0 ≡ added (written_row (write_of op.now)) (is_some old_point) state.old.0) }
    ensures unchanged { OnErr result ((log.new ≡ log.old) × (state.new ≡ state.old)) }
    ensures room { state.old.1 ≤ state.new.1 + 1 }
    ensures in_order { AreInOrder log.new state.new.0 }
    ensures table { LogsWrite (next_record log.old op.now old_point) (D.seen device.old) (D.seen device.new) log.old log.new state.old.0 state.new.0 result }
{
    let logged = Record {
        lsn: log.next_lsn,
        op: *op,
        old_point,
    };
    let ack = log.append(device, &logged)?;
    let (key, matter) = row_of(op);
    state.lay(key, matter, old_point.is_some());
    Ok(ack)
}

/// The key of a write's row, and what the row says of it.
fn row_of(op: &LogOp) -> (u64, Option<(Point, Note)>)
    ensures { record { key = result.0; matter = result.1 } ≡ written_row (write_of op.now) }
{
    match op {
        LogOp::Put(row) => (row.key, Some((row.point, row.note))),
        LogOp::Del(key) => (*key, None),
    }
}

/// Freezes the active list, so that a component may be made of it. The log goes on in its next segment, and so its records so
/// far are those of the components and of the frozen list. Where a call of the device fails, lists and log are as before.
pub fn freeze<D: Device>(device: &mut D, log: &mut Log, state: &mut State) -> Result<(), Failed>
    requires none_frozen { state.old.0.frozen ≡ None }
    requires some { 1 ≤ log.old.records }
    requires pages { FIRST_DATA_PAGE ≤ (D.seen device.old).pages }
    requires in_order { AreInOrder log.old state.old.0 }

    ensures made { Made (turn_calls log.old) (D.seen device.old) (D.seen device.new) result }

    // After `Ok` the log has a new segment and the active list waits, up to the last record; after a failure both are as before.
    ensures turned { OnOk result (log.new ≡ record log.old { generation = log.old.generation + 1; records = 0; open_headers = set log.old.open_headers (following log.old) true }) }
    ensures lists { OnOk result (state.new.0 ≡ frozen_at (log.old.next_lsn - 1) state.old.0) }
    ensures unchanged { OnErr result ((log.new ≡ log.old) × (state.new ≡ state.old)) }
    ensures in_order { AreInOrder log.new state.new.0 }
    ensures table { KeepsTable (λ disk. disk) (D.seen device.old) (D.seen device.new) log.old log.new state.old.0 state.new.0 result }
{
    let last = log.next_lsn - 1;
    log.next_segment(device)?;
    state.freeze(last);
    Ok(())
}
