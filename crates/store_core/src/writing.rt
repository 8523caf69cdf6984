// Writes: each is logged before it is answered.
ghost use Rattle.std.specs.Prelude.{◌≡◌, ◌<◌, ◌≤◌, IfOk, IfErr, OnOk, OnErr, ℕ, List, None, true, is_some};
ghost use Rattle.std.specs.Option.{option_map};
ghost use Rattle.dev_model.specs.Counts.{next_count};
ghost use Rattle.dev_model.specs.Story.{WhereTold};
ghost use Rattle.table_model.specs.Table.{Table};
ghost use Rattle.wal_log.specs.Records.{key_of};
ghost use Rattle.primary_ix.specs.declared.rows.PrimRow.{PrimRow};
ghost use Rattle.component_image.specs.Told.{SaysOld};
ghost use Rattle.store_state.specs.Reading.{IsLegible};
ghost use Rattle.kept_state.specs.Writing.{next_record};
ghost use Rattle.store_machine.specs.Calls.{IsReady, Makes};
ghost use Rattle.store_machine.specs.Standing.{StoreState};
ghost use Rattle.store_machine.specs.declared.events.Action.{Action};
ghost use Rattle.store_machine.specs.declared.events.Refusal.{Refusal};
ghost use Rattle.store_core.specs.Stores.{state_of};
ghost use Rattle.store_core.specs.Tested.{TestsPages};
ghost use Rattle.store_core.specs.Writing.{CanWrite, HasAppended, RefusesNow, Logged, IsNotLogged, WasRead, has_to_log, matter_of, old_point};

use crate::reading::refused;
use crate::store::Store;
use dev_model::{Device, Failed};
use geo_base::{Note, Point, Row};
use kept_state::{log_write, read_row};
use std::alloc::AllocError;
use store_machine::{Refusal, WriteOp, Wrote};
use wal_log::{LogOp, MOST_RECORDS};

// The numbers of writes end below it.
const LSN_END: u64 = 1 << 62;

// The key of a write.
fn key_of(op: &WriteOp) -> u64
    ensures { result ≡ key_of op.now }
{
    match op {
        LogOp::Put(row) => row.key,
        LogOp::Del(key) => *key,
    }
}

// The point of a row.
fn old_point(row: &Option<Row>) -> Option<Point>
    ensures { result ≡ old_point row.now }
{
    match row {
        Some(row) => Some(row.point),
        None => None,
    }
}

// A row without its key.
fn matter_of(row: &Option<Row>) -> Option<(Point, Note)>
    ensures { result ≡ option_map matter_of row.now }
{
    match row {
        Some(row) => Some((row.point, row.note)),
        None => None,
    }
}

// Whether a write has something to log: a delete of a key where nothing stands has nothing.
fn has_to_log(op: &WriteOp, row: &Option<Row>) -> bool
    ensures { result ≡ has_to_log op.now (is_some row.now) }
{
    match op {
        LogOp::Put(_) => true,
        LogOp::Del(_) => row.is_some(),
    }
}

impl<D: Device> Store<D> {
    // Why a write is refused before anything is done.
    fn check_write(&self) -> Result<(), Refusal>
        requires ready { IsReady (state_of D.seen self.now) }
        ensures can { OnOk result (CanWrite (state_of D.seen self.now)) }
        ensures refused { IfErr result (RefusesNow (state_of D.seen self.now)) }
    {
        if let Some(faults) = self.stopped {
            return Err(Refusal::Stopped { faults });
        }
        if self.log.next_lsn >= LSN_END {
            return Err(Refusal::Full {
                need: 0,
                longest: 0,
            });
        }
        if self.log.records >= MOST_RECORDS {
            return Err(Refusal::Again {
                ops: self.log.records as u32,
            });
        }
        Ok(())
    }

    // Takes all memory of a write: there is room for its row and for its ack.
    fn make_room(&mut self) -> Result<(), AllocError>
        ensures same { state_of D.seen self.new ≡ state_of D.seen self.old }
        ensures acks { OnOk result (0 < self.new.acks.spare) }
        ensures rows { OnOk result (1 ≤ self.new.state.1) }
    {
        self.acks.reserve(1)?;
        self.state.reserve()
    }

    // Logs a write of a key where this row stood, and lays its row in memory. Where the device fails, the store is stopped.
    fn log_op(&mut self, op: &WriteOp, row: &Option<Row>) -> Result<u64, Failed>
        requires ready { IsReady (state_of D.seen self.old) }
        requires can { CanWrite (state_of D.seen self.old) }
        requires room { 0 < self.old.acks.spare }
        requires room_in_memory { 1 ≤ self.old.state.1 }
        requires logs { has_to_log op.now (is_some row.now) ≡ true }
        requires says { (table : Table) (disk : List (List PrimRow)) → WhereTold (D.seen self.old.device).story (λ s. IsLegible table disk self.old.state.0 s → SaysOld table (next_record self.old.log op.now (old_point row.now))) }
        ensures logged { IfOk result (Logged (state_of D.seen self.old) (state_of D.seen self.new) op.now row.now) }
        ensures fails { OnErr result (IsNotLogged (state_of D.seen self.old) (state_of D.seen self.new) op.now row.now) }
        ensures ready { IsReady (state_of D.seen self.new) }
    {
        match log_write(
            &mut self.device,
            &mut self.log,
            &mut self.state,
            op,
            old_point(row),
        ) {
            Ok(ack) => {
                self.acks.add(ack);
                Ok(ack)
            }
            Err(failed) => {
                self.stopped = Some(self.device.faults());
                Err(failed)
            }
        }
    }

    // What a delete tells where nothing stood at the key.
    fn nothing_there(&mut self) -> Wrote
        requires ready { IsReady (state_of D.seen self.old) }
        ensures wrote { result ≡ record { seq = self.old.seq; old = None; ops = self.old.log.records; ack = 0 } }
        ensures rest { self.new ≡ record self.old { seq = next_count self.old.seq } }
    {
        Wrote {
            seq: self.draw(),
            old: None,
            ops: self.log.records as u32,
            ack: 0,
        }
    }

    // Logs and answers a write of a key where this row stood.
    fn write_over(&mut self, op: &WriteOp, row: &Option<Row>) -> Result<Wrote, Refusal>
        requires ready { IsReady (state_of D.seen self.old) }
        requires can { CanWrite (state_of D.seen self.old) }
        requires room { 0 < self.old.acks.spare }
        requires room_in_memory { 1 ≤ self.old.state.1 }
        requires logs { has_to_log op.now (is_some row.now) ≡ true }
        requires says { (table : Table) (disk : List (List PrimRow)) → WhereTold (D.seen self.old.device).story (λ s. IsLegible table disk self.old.state.0 s → SaysOld table (next_record self.old.log op.now (old_point row.now))) }
        ensures event { (before : StoreState) (owner : ℕ) → WasRead before (state_of D.seen self.old) (key_of op.now) row.now
            → Makes before (state_of D.seen self.new) owner (Action.Write op.now result) }
        ensures logged { OnOk result (HasAppended (state_of D.seen self.old) (state_of D.seen self.new).device op.now row.now) }
        ensures fault { IfErr result (λ refusal. refusal ≡ Refusal.Fault) }
        ensures ready { IsReady (state_of D.seen self.new) }
    {
        match self.log_op(op, row) {
            Ok(ack) => {
                let seq = self.draw();
                let old = matter_of(row);
                let ops = self.log.records as u32;
                Ok(Wrote { seq, old, ops, ack })
            }
            Err(_) => Err(Refusal::Fault),
        }
    }

    /// Lays a row at its key, or takes away what is there.
    ///
    /// An answered write is in each image of each crash from its ack on. A delete of a key where nothing stands is answered
    /// without the log, with the ack 0. The refusals, in this order: `Stopped` exactly where a write or a sync of the device
    /// failed earlier; `Full` exactly where the numbers of writes are used up; `Again` exactly where 2,048 writes wait to be
    /// flushed; `OutOfMemory`, before any call of the device; `Fault` where the row at the key could not be read, and
    /// `Damaged` where the page that was read last for it is none for its place (which doesn't come where the store was opened
    /// from what was on the disk), both before anything is written; and `Fault` where the device failed while the write was logged:
    /// the table is as before, the store is stopped, and the write may stand on the device.
    pub fn write(&mut self, owner: u64, op: &WriteOp) -> Result<Wrote, Refusal>
        requires ready { IsReady (state_of D.seen self.old) }
        ensures event { Makes (state_of D.seen self.old) (state_of D.seen self.new) owner (Action.Write op.now result) }
        ensures pages { TestsPages (state_of D.seen self.old) (state_of D.seen self.new).device result }
        ensures ready { IsReady (state_of D.seen self.new) }
    {
        if let Err(refusal) = self.check_write() {
            return Err(refusal);
        }
        if self.make_room().is_err() {
            return Err(Refusal::OutOfMemory);
        }
        let row = match read_row(&mut self.device, &self.state, key_of(op)) {
            Ok(row) => row,
            Err(fault) => return Err(refused(fault)),
        };
        if has_to_log(op, &row) {
            self.write_over(op, &row)
        } else {
            Ok(self.nothing_there())
        }
    }
}
