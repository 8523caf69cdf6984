// Upkeep: what is only in memory and in the log goes into components on the device.
ghost use Rattle.std.specs.Prelude.{◌≡◌, ◌-◌, ◌≤◌, None, Some, Ok};
ghost use Rattle.table_model.specs.Commands.{flush};
ghost use Rattle.store_state.specs.Lists.{placed_up_to};
ghost use Rattle.store_state.specs.OwnJob.{IsJobOf};
ghost use Rattle.store_core.specs.Stores.{state_of};
ghost use Rattle.store_machine.specs.Commands.{word_of};
ghost use Rattle.store_machine.specs.Calls.{IsReady, IsStanding};
ghost use Rattle.store_commands.specs.declared.upkeep.TheConstants.{FLUSH_AT};
ghost use Rattle.store_commands.specs.Commands.{IsServing, HasDone, OnlyLooks, IsFinal, flush_outcome};
ghost use Rattle.store_commands.specs.Upkeep.{KeepsUp, HasWritten, HasNoFrozen, HasFlushed};

use build_job::{BuildJob, JobStep};
use dev_model::Device;
use std::alloc::Global;
use store_core::Store;
use store_machine::Refusal;
use table_model::Why;

/// When so many writes are only in memory and in the log, they are flushed.
pub const FLUSH_AT: u32 = 1_024;

/// A law: upkeep is due once 1,024 writes are only in memory and in the log.
pub fn upkeep_is_due_at_1024()
    ensures { FLUSH_AT ≡ 1024 }
{}

/// The word of a refusal after which the call isn't made again.
pub(crate) fn word_of(refusal: Refusal) -> Why
    requires last { IsFinal refusal }
    ensures word { word_of refusal ≡ Some result }
{
    match refusal {
        Refusal::Fault => Why::Fault,
        Refusal::Stopped { .. } => Why::Stopped,
        // A call that could be made again has no word; it doesn't come here.
        Refusal::Full { .. } | Refusal::Again { .. } => Why::Full,
        Refusal::NoIndex => Why::NoIndex,
        Refusal::Damaged { .. } => Why::Damaged,
        Refusal::OutOfMemory => Why::Memory,
    }
}

// Writes the pages that are left of the owner's job.
fn write_pages<D: Device>(
    store: &mut Store<D>,
    owner: u64,
    job: &mut BuildJob,
) -> Result<(), Refusal>
    requires ready { IsReady (state_of D.seen store.old) }
    requires standing { IsStanding (state_of D.seen store.old) }
    requires begun { IsJobOf store.old.state.0 owner job.old }
    ensures ready { IsReady (state_of D.seen store.new) }
    ensures upkeep { KeepsUp (state_of D.seen store.old) (state_of D.seen store.new) owner result }
    ensures written { HasWritten (state_of D.seen store.old) (state_of D.seen store.new) owner job.new result }
{
    while let JobStep::Write(_) = job.step() {
        if let Err(refusal) = store.job_write(owner, job) {
            return Err(refusal);
        }
    }
    Ok(())
}

// Writes the component of a job that was just begun, and installs it.
fn write_component<D: Device>(
    store: &mut Store<D>,
    owner: u64,
    job: BuildJob,
) -> Result<(), Refusal>
    requires ready { IsReady (state_of D.seen store.old) }
    requires standing { IsStanding (state_of D.seen store.old) }
    requires begun { IsJobOf store.old.state.0 owner job }
    ensures serving { IsServing (state_of D.seen store.new) }
    ensures upkeep { KeepsUp (state_of D.seen store.old) (state_of D.seen store.new) owner result }
    ensures flushed { HasNoFrozen (state_of D.seen store.old) (state_of D.seen store.new) result }
{
    let mut job = job;
    if let Err(refusal) = write_pages(store, owner, &mut job) {
        return Err(refusal);
    }
    store.install(owner, &job)
}

// Flushes the list that waits, if one does.
fn flush_frozen<D: Device>(alloc: Global, store: &mut Store<D>, owner: u64) -> Result<(), Refusal>
    requires serving { IsServing (state_of D.seen store.old) }
    ensures serving { IsServing (state_of D.seen store.new) }
    ensures upkeep { KeepsUp (state_of D.seen store.old) (state_of D.seen store.new) owner result }
    ensures flushed { HasNoFrozen (state_of D.seen store.old) (state_of D.seen store.new) result }
{
    match store.begin_job(alloc, owner) {
        Ok(Some(job)) => write_component(store, owner, job),
        Ok(None) => Ok(()),
        Err(refusal) => Err(refusal),
    }
}

// Freezes the active list where it has at least so many writes, and flushes it.
fn flush_active<D: Device>(
    alloc: Global,
    store: &mut Store<D>,
    owner: u64,
    least: u32,
) -> Result<(), Refusal>
    requires serving { IsServing (state_of D.seen store.old) }
    requires least { 1 ≤ least }
    requires none_waits { store.old.state.0.frozen ≡ None }
    ensures serving { IsServing (state_of D.seen store.new) }
    ensures upkeep { KeepsUp (state_of D.seen store.old) (state_of D.seen store.new) owner result }
    ensures flushed { HasFlushed (state_of D.seen store.old) (state_of D.seen store.new) least result }
{
    match store.freeze(owner, least) {
        Ok(true) => flush_frozen(alloc, store, owner),
        Ok(false) => Ok(()),
        Err(refusal) => Err(refusal),
    }
}

/// Flushes the list that waits, if one does, and then the active list where it has at least so many writes. The first
/// refusal ends it.
pub(crate) fn keep_up<D: Device>(
    alloc: Global,
    store: &mut Store<D>,
    owner: u64,
    least: u32,
) -> Result<(), Refusal>
    requires serving { IsServing (state_of D.seen store.old) }
    requires least { 1 ≤ least }
    ensures serving { IsServing (state_of D.seen store.new) }
    ensures upkeep { KeepsUp (state_of D.seen store.old) (state_of D.seen store.new) owner result }
    ensures flushed { HasFlushed (state_of D.seen store.old) (state_of D.seen store.new) least result }
{
    if let Err(refusal) = flush_frozen(alloc, store, owner) {
        return Err(refusal);
    }
    flush_active(alloc, store, owner, least)
}

/// Puts all that was written before into components on the device.
///
/// Where the components have it all already, nothing is done, also where the store is stopped. The refusals are those of its
/// steps: `Stopped`, `Full` where there is no room for a component, `Memory`, and `Fault` where a write or a sync of the device
/// fails, which stops the store.
pub fn flush<D: Device>(alloc: Global, store: &mut Store<D>, owner: u64) -> Result<(), Why>
    requires serving { IsServing (state_of D.seen store.old) }
    ensures done { HasDone (state_of D.seen store.old) (state_of D.seen store.new) owner flush (flush_outcome result) None }
    ensures idle { store.old.log.next_lsn - 1 ≤ placed_up_to store.old.state.0.components → (result ≡ Ok tt) × OnlyLooks (state_of D.seen store.old) (state_of D.seen store.new) owner }
    ensures serving { IsServing (state_of D.seen store.new) }
{
    let before = store.look(owner);
    if before.placed >= before.lsn {
        return Ok(());
    }
    if let Err(refusal) = keep_up(alloc, store, owner, 1) {
        return Err(word_of(refusal));
    }
    let behind = store.look(owner);
    prove!(behind.placed >= before.lsn);
    Ok(())
}
