// The pages of a flush, one after the other, and the install of the component that they make.
ghost use Rattle.std.specs.Prelude.{◌≡◌, ◌+◌, ◌*◌, ◌<◌, ◌≤◌, ℕ, List, [], ◌∷◌, length, Some, OnErr, OnOk};
ghost use Rattle.dev_model.specs.Story.{Write};
ghost use Rattle.dev_model.specs.Doing.{Made};
ghost use Rattle.wal_log.specs.declared.log.Log.{Log};
ghost use Rattle.comp_dir.specs.Resting.{install_calls};
ghost use Rattle.build_job.specs.Jobs.{described};
ghost use Rattle.build_job.specs.Steps.{steps_left};
ghost use Rattle.build_job.specs.Written.{IsPageOf};
ghost use Rattle.store_state.specs.Numbered.{IsNumbered};
ghost use Rattle.store_state.specs.OwnJob.{IsJobOf};
ghost use Rattle.store_state.specs.Steps.{installed, one_written};
ghost use Rattle.store_state.specs.Stepping.{AreInOrder, KeepsTable};
ghost use Rattle.store_state.specs.declared.jobs.JobRow.{JobRow};

use crate::laws::{jobs_have_rules, lists_have_rules};
use build_job::{BuildJob, JobStep};
use comp_dir::{LSN_LIMIT, install_slot};
use dev_model::{Device, Failed};
use page_codec::PAGE_BYTES;
use store_state::State;

/// Writes the page that the job wants next, in one write, and counts it; it isn't synced. The job has a page left, and is the
/// one that was begun. Where the write fails, lists and job are as before.
pub fn write_job_page<D: Device>(
    device: &mut D,
    state: &mut State,
    job: &mut BuildJob,
) -> Result<(), Failed>
    requires begun { (owner : ℕ) × IsJobOf state.old.0 owner job.old }
    requires left { 0 < steps_left job.old }
    requires on_device { state.old.0.space.pages ≤ (D.seen device.old).pages }

    ensures made { (bytes : List ℕ) × (length bytes ≡ PAGE_BYTES) × IsPageOf job.old.rows job.old.written bytes
        × Made (Write ((job.old.plan.extent.first + job.old.written) * PAGE_BYTES) bytes ∷ []) (D.seen device.old) (D.seen device.new) result }

    // After `Ok` the page is counted, and after a failure it isn't. The job is still the one that was begun.
    ensures lists { OnOk result (state.new.0 ≡ one_written state.old.0) }
    ensures next { OnOk result (job.new ≡ record job.old { written = job.old.written + 1 }) }
    ensures unchanged { OnErr result ((state.new ≡ state.old) × (job.new ≡ job.old)) }
    ensures begun { (owner : ℕ) → IsJobOf state.old.0 owner job.old → IsJobOf state.new.0 owner job.new }
    ensures room { state.new.1 ≡ state.old.1 }
    ensures in_order { (log : Log) → AreInOrder log state.old.0 → AreInOrder log state.new.0 }
    ensures table { (log : Log) → KeepsTable (λ disk. disk) (D.seen device.old) (D.seen device.new) log log state.old.0 state.new.0 result }
{
    lists_have_rules(state);
    let JobStep::Write(page) = job.step() else {
        unreachable!();
    };
    let mut bytes = [0; PAGE_BYTES];
    job.page(&mut bytes);
    device.write(u64::from(page) * PAGE_BYTES as u64, &bytes)?;
    job.wrote();
    state.wrote();
    Ok(())
}

/// Installs the component of a job whose pages are all written, which is the one that was begun: writes its slot, syncs, opens the
/// slot's gate and syncs. The first sync puts the pages on the disk too, so a component is open only where its pages are. It stands
/// before the others then, in the place of the frozen list. The list's writes have numbers that a slot may have. It stops at the
/// call that fails, and the lists are then as before.
pub fn install_job<D: Device>(
    device: &mut D,
    state: &mut State,
    job: &BuildJob,
) -> Result<(), Failed>
    requires begun { (owner : ℕ) × IsJobOf state.old.0 owner job.now }
    requires written { steps_left job.now ≡ 0 }
    requires below { state.old.0.cut < LSN_LIMIT }
    requires on_device { state.old.0.space.pages ≤ (D.seen device.old).pages }

    ensures made { Made (install_calls job.now.plan.slot (described job.now)) (D.seen device.old) (D.seen device.new) result }

    // After `Ok` the component stands in its slot and the frozen list waits no more; after a failure the lists are as before.
    ensures lists { OnOk result ((row : JobRow) → state.old.0.job ≡ Some row → state.new.0 ≡ installed row state.old.0) }
    ensures unchanged { OnErr result (state.new ≡ state.old) }
    ensures room { state.new.1 ≡ state.old.1 }
    ensures in_order { (log : Log) → AreInOrder log state.old.0 → AreInOrder log state.new.0 }
    ensures table { (log : Log) → IsNumbered log state.old.0 → KeepsTable (λ disk. job.now.rows ∷ disk) (D.seen device.old) (D.seen device.new) log log state.old.0 state.new.0 result }
{
    lists_have_rules(state);
    jobs_have_rules(job);
    let slot = job.slot();
    install_slot(device, job.plan().slot, &slot)?;
    state.install(slot);
    Ok(())
}
