// The lists of a store, made again of the records of its log.
ghost use Rattle.std.specs.Prelude.{◌≡◌, ◌+◌, ◌≤◌, ◌∷◌, [], None, IfOk, OnOk};
ghost use Rattle.wal_log.specs.Later.{later};
ghost use Rattle.wal_log.specs.UpTo.{up_to};
ghost use Rattle.store_state.specs.Lists.{placed_up_to};
ghost use Rattle.store_state.specs.EveryList.{IsLists};
ghost use Rattle.store_state.specs.Opened.{opened};
ghost use Rattle.store_opening.specs.Read.{AreLawfulSlots};
ghost use Rattle.store_opening.specs.Restored.{with_records, set_aside, last_before, restored};

use crate::slots::OpenSlots;
use space_map::{LEAST_PAGES, MOST_PAGES};
use std::alloc::{AllocError, Global};
use store_state::State;
use wal_log::{Log, LogOp, Record};

// Lays the row of a record.
fn lay_record(state: &mut State, logged: &Record) -> Result<(), AllocError>
    ensures lists { OnOk result (state.new.0 ≡ with_records (logged.now ∷ []) state.old.0) }
    ensures sound { OnOk result (IsLists state.new.0) }
{
    state.reserve()?;
    let had = logged.old_point.is_some();
    match logged.op {
        LogOp::Put(row) => state.lay(row.key, Some((row.point, row.note)), had),
        LogOp::Del(key) => state.lay(key, None, had),
    }
    Ok(())
}

// Lays the row of a record whose number lies behind one and is at most the other, and of no other record.
fn lay_between(state: &mut State, logged: &Record, after: u64, last: u64) -> Result<(), AllocError>
    ensures lists { OnOk result (state.new.0 ≡ with_records (up_to last (later after (logged.now ∷ []))) state.old.0) }
    ensures sound { OnOk result (IsLists state.old.0 → IsLists state.new.0) }
{
    if logged.lsn <= after || last < logged.lsn {
        return Ok(());
    }
    lay_record(state, logged)
}

// Lays the rows of the records whose numbers lie behind one and are at most the other.
fn lay_all(state: &mut State, records: &[Record], after: u64, last: u64) -> Result<(), AllocError>
    ensures lists { OnOk result (state.new.0 ≡ with_records (up_to last (later after records.now)) state.old.0) }
    ensures sound { OnOk result (IsLists state.old.0 → IsLists state.new.0) }
{
    for logged in records {
        lay_between(state, logged, after, last)?;
    }
    Ok(())
}

// Sets aside what was laid where the log's newest segment begins behind it.
fn set_aside(state: &mut State, last: u64)
    requires { state.old.0.frozen ≡ None }
    ensures lists { state.new.0 ≡ set_aside last state.old.0 }
    ensures sound { IsLists state.old.0 → IsLists state.new.0 }
{
    if state.cut() < last {
        state.freeze(last);
    }
}

// Lays the records behind the components. Those before the newest segment of the log wait for their component.
fn restore(state: &mut State, log: &Log, records: &[Record]) -> Result<(), AllocError>
    requires none { state.old.0.frozen ≡ None }
    requires behind { state.old.0.cut + 1 + log.now.records ≤ log.now.next_lsn }
    ensures lists { OnOk result (state.new.0 ≡ restored log.now records.now state.old.0) }
    ensures sound { OnOk result (IsLists state.old.0 → IsLists state.new.0) }
{
    let last = log.next_lsn - (log.records + 1);
    let placed = state.cut();
    lay_all(state, records, placed, last)?;
    set_aside(state, last);
    lay_all(state, records, last, log.next_lsn)
}

/// The lists of a store on a device of so many pages with these open slots, this log and its records.
pub(crate) fn state_of(
    alloc: Global,
    pages: u32,
    slots: OpenSlots,
    log: &Log,
    records: &[Record],
) -> Result<State, AllocError>
    requires least { LEAST_PAGES ≤ pages }
    requires most { pages ≤ MOST_PAGES }
    requires lawful { AreLawfulSlots pages slots.components.items slots.ignored.items }
    requires behind { placed_up_to slots.components.items + 1 + log.now.records ≤ log.now.next_lsn }
    ensures lists { IfOk result (λ state. state.0 ≡ restored log.now records.now (opened slots.components.items slots.ignored.items state.0.space)) }
    ensures pages { IfOk result (λ state. state.0.space.pages ≡ pages) }
    ensures sound { IfOk result (λ state. IsLists state.0) }
{
    let mut state = State::of_slots(alloc, pages, slots.components, slots.ignored)?;
    restore(&mut state, log, records)?;
    Ok(state)
}
