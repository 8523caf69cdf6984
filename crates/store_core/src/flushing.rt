// Freezes, the jobs that write what is frozen, and the installs of their components.
ghost use Rattle.std.specs.Prelude.{◌≡◌, ◌+◌, ◌<◌, ◌≤◌, IfOk, IfSome, OnErr, OnOk, None, Some};
ghost use Rattle.build_job.specs.Steps.{steps_left};
ghost use Rattle.store_machine.specs.Calls.{IsReady, Makes};
ghost use Rattle.store_machine.specs.declared.events.Action.{Action};
ghost use Rattle.store_core.specs.Begun.{begin_of};
ghost use Rattle.store_core.specs.Refusals.{refusal_of_begin};
ghost use Rattle.store_core.specs.Stores.{state_of};
ghost use Rattle.store_state.specs.OwnJob.{IsJobOf};

use crate::store::Store;
use build_job::BuildJob;
use dev_model::Device;
use kept_state::{freeze, install_job, write_job_page};
use std::alloc::Global;
use store_machine::Refusal;
use store_state::BeginFault;

// The refusal of a begin, where so many writes wait.
fn refused_begin(fault: BeginFault, ops: u32) -> Refusal
    ensures { result ≡ refusal_of_begin ops fault }
{
    match fault {
        BeginFault::Held => Refusal::Again { ops },
        BeginFault::Full { need, longest } => Refusal::Full { need, longest },
        BeginFault::OutOfMemory => Refusal::OutOfMemory,
    }
}

impl<D: Device> Store<D> {
    // Stops the store, since a write or a sync of its device failed. It answers what the call then answers.
    fn stop(&mut self) -> Refusal
        ensures fault { result ≡ Refusal.Fault }
        ensures stopped { self.new ≡ record self.old { stopped = Some (D.seen self.old.device).faults } }
    {
        self.stopped = Some(self.device.faults());
        Refusal::Fault
    }

    /// Freezes the active list, where it has at least so many writes and no other list is frozen; it answers whether it did.
    /// The log goes on in its next segment. It takes no memory.
    ///
    /// `Stopped` where a write or a sync of the device failed earlier, and `Fault` where one fails now, which stops the store.
    pub fn freeze(&mut self, owner: u64, least: u32) -> Result<bool, Refusal>
        requires ready { IsReady (state_of D.seen self.old) }
        requires least { 1 ≤ least }
        ensures event { Makes (state_of D.seen self.old) (state_of D.seen self.new) owner (Action.Freeze least result) }
        ensures ready { IsReady (state_of D.seen self.new) }
    {
        if let Some(faults) = self.stopped {
            return Err(Refusal::Stopped { faults });
        }
        if self.log.records < u64::from(least) {
            return Ok(false);
        }
        if self.state.is_frozen() {
            return Ok(false);
        }
        match freeze(&mut self.device, &mut self.log, &mut self.state) {
            Ok(()) => Ok(true),
            Err(_) => Err(self.stop()),
        }
    }

    /// Begins the job that writes the frozen list, for this owner, who writes its pages and then installs it. `None` where
    /// nothing is frozen.
    ///
    /// `Stopped` where a write or a sync of the device failed earlier. `Again` where a job was begun before; it tells how many
    /// writes the active list has. `Full` where there is no room: so many pages side by side are needed, and the longest free
    /// run has so many; where there are as many components as there may be, or no slot is closed, 1 is needed and there are 0.
    pub fn begin_job(&mut self, alloc: Global, owner: u64) -> Result<Option<BuildJob>, Refusal>
        requires ready { IsReady (state_of D.seen self.old) }
        ensures event { Makes (state_of D.seen self.old) (state_of D.seen self.new) owner (begin_of owner result) }
        ensures job { IfOk result (λ begun. IfSome begun (λ job. IsJobOf self.new.state.0 owner job)) }
        ensures ready { IsReady (state_of D.seen self.new) }
    {
        if let Some(faults) = self.stopped {
            return Err(Refusal::Stopped { faults });
        }
        let ops = self.log.records as u32;
        match self.state.begin(alloc, owner) {
            Ok(job) => Ok(job),
            Err(fault) => Err(refused_begin(fault, ops)),
        }
    }

    /// Writes the next page of the owner's job, which has one left. It isn't synced. It takes no memory.
    ///
    /// `Stopped` where a write or a sync of the device failed earlier, and `Fault` where this write fails, which stops the store.
    pub fn job_write(&mut self, owner: u64, job: &mut BuildJob) -> Result<(), Refusal>
        requires ready { IsReady (state_of D.seen self.old) }
        requires begun { IsJobOf self.old.state.0 owner job.old }
        requires left { 0 < steps_left job.old }
        ensures event { Makes (state_of D.seen self.old) (state_of D.seen self.new) owner (Action.JobWrite (record { owner = owner; job = job.old }) result) }
        ensures begun { IsJobOf self.new.state.0 owner job.new }
        ensures next { OnOk result (job.new ≡ record job.old { written = job.old.written + 1 }) }
        ensures unchanged { OnErr result (job.new ≡ job.old) }
        ensures ready { IsReady (state_of D.seen self.new) }
    {
        if let Some(faults) = self.stopped {
            return Err(Refusal::Stopped { faults });
        }
        match write_job_page(&mut self.device, &mut self.state, job) {
            Ok(()) => Ok(()),
            Err(_) => Err(self.stop()),
        }
    }

    /// Installs the component of the owner's job, all of whose pages are written. From then on it stands in the place of the
    /// frozen list, on the disk too. It takes no memory.
    ///
    /// `Stopped` where a write or a sync of the device failed earlier, and `Fault` where one fails now, which stops the store.
    pub fn install(&mut self, owner: u64, job: &BuildJob) -> Result<(), Refusal>
        requires ready { IsReady (state_of D.seen self.old) }
        requires begun { IsJobOf self.old.state.0 owner job.now }
        requires written { steps_left job.now ≡ 0 }
        ensures event { Makes (state_of D.seen self.old) (state_of D.seen self.new) owner (Action.Install (record { owner = owner; job = job.now }) result) }
        ensures ready { IsReady (state_of D.seen self.new) }
    {
        if let Some(faults) = self.stopped {
            return Err(Refusal::Stopped { faults });
        }
        match install_job(&mut self.device, &mut self.state, job) {
            Ok(()) => Ok(()),
            Err(_) => Err(self.stop()),
        }
    }
}
