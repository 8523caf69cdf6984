// The lists of a store without its device: a change of them, and what it leaves.

ghost use Rattle.std.specs.Prelude.{◌≡◌, IfSome};
ghost use Rattle.build_job.specs.Jobs.{described};
ghost use Rattle.store_state.specs.Lists.{job_of};

use comp_dir::{LSN_LIMIT, PRIMARY, Slot};
use geo_base::{Note, Point};
use std::alloc::Global;
use store_state::{BeginFault, JobRow, State};

#[derive(Clone, Copy, Debug)]
pub enum Change {
    Put(u64),
    Del(u64),
    /// Two writes behind the last freeze.
    Freeze,
    /// Begins a job.
    Begin,
    /// Notes that a page of the job is written.
    Write,
    Install,
}

/// The rows of the table, the last write before the active list, the last one that the components have, and how many components
/// there are.
pub fn numbers(state: &State) -> (u64, u64, u64, usize) {
    (
        state.rows(),
        state.cut(),
        state.placed(),
        state.components().len(),
    )
}

/// Where the job's component is to stand: its slot, its first page, its pages, and how many are written.
pub fn job(state: &State) -> Option<(u16, u32, u32, u32)> {
    let row = state.job()?;
    Some((
        row.plan.slot,
        row.plan.extent.first,
        row.plan.extent.pages,
        row.written,
    ))
}

/// The lists of an empty store.
pub fn empty(alloc: Global) -> Option<State> {
    State::of_slots(alloc, 1024, Vec::new(alloc), Vec::new(alloc)).ok()
}

fn matter() -> Option<(Point, Note)> {
    let note = Note::new(b"note").ok()?;
    Some((Point { x: 1, y: 2 }, note))
}

fn lay(state: &mut State, key: u64, matter: Option<(Point, Note)>) -> Option<()> {
    let had = match state.in_memory(key) {
        Some(row) => row.matter.is_some(),
        None => false,
    };
    state.reserve().ok()?;
    state.lay(key, matter, had);
    Some(())
}

fn freeze(state: &mut State) {
    let cut = state.cut();
    let last = cut.saturating_add(2);
    if !state.is_frozen() && cut < last {
        state.freeze(last);
    }
}

fn write(state: &mut State) {
    if let Some(row) = state.job() {
        if row.written < row.plan.extent.pages {
            state.wrote();
        }
    }
}

/// The slot of this job's component, by what the lists say.
fn slot_of(state: &State, row: &JobRow) -> Option<Slot>
    ensures { IfSome result (λ slot. slot ≡ described (job_of state.now.0 row.now)) }
{
    let rows = match state.frozen() {
        Some(list) => list.len(),
        None => 0,
    };
    Some(Slot {
        index: PRIMARY,
        first: row.plan.extent.first,
        pages: row.plan.extent.pages,
        first_lsn: state.placed().checked_add(1)?,
        last_lsn: state.cut(),
        main_rows: u32::try_from(rows).ok()?,
        second_rows: 0,
        second_at: 0,
        filter_at: 0,
        filter_bits: 0,
        table_rows: state.cut_rows(),
    })
}

fn install(state: &mut State) {
    let Some(row) = state.job() else {
        return;
    };
    if state.cut() >= LSN_LIMIT || row.written != row.plan.extent.pages {
        return;
    }
    if let Some(slot) = slot_of(state, &row) {
        state.install(slot);
    }
}

/// Makes a change where it may be made, and says whether a job was begun.
pub fn make(alloc: Global, state: &mut State, change: Change) -> Option<Result<bool, BeginFault>> {
    match change {
        Change::Put(key) => lay(state, key, matter())?,
        Change::Del(key) => lay(state, key, None)?,
        Change::Freeze => freeze(state),
        Change::Begin => match state.begin(alloc, 7) {
            Ok(job) => return Some(Ok(job.is_some())),
            Err(fault) => return Some(Err(fault)),
        },
        Change::Write => write(state),
        Change::Install => install(state),
    }
    Some(Ok(false))
}

/// The list of one row becomes a component, where there is room.
pub fn flush(alloc: Global, state: &mut State, key: u64) -> Option<()> {
    for change in [
        Change::Put(key),
        Change::Freeze,
        Change::Begin,
        Change::Write,
        Change::Install,
    ] {
        let _ = make(alloc, state, change)?;
    }
    Some(())
}
