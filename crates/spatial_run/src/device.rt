// A task on a device: a format, and a script on the store that is there.
ghost use Rattle.std.specs.Prelude.{◌≡◌, ◌≤◌, [], Some, Ok, Err, IfOk, IfErr};
ghost use Rattle.std.specs.Option.{option_map};
ghost use Rattle.space_map.specs.declared.space.TheConstants.{LEAST_PAGES, MOST_PAGES};
ghost use Rattle.script_lang.specs.CommandViews.{phases_of};
ghost use Rattle.dev_model.specs.Story.{DeviceState};
ghost use Rattle.store_commands.specs.Commands.{IsServing};
ghost use Rattle.store_core.specs.Stores.{state_of};
ghost use Rattle.spatial_run.specs.Tasks as tasks;
ghost use Rattle.spatial_run.specs.Endings as model;
ghost use Rattle.spatial_run.specs.Views.{outcomes_of};
ghost use Rattle.spatial_run.specs.EndingViews.{task_as, ending_of};
ghost use Rattle.spatial_run.specs.Steps.{IsPlain, IsSetupAlone, OpenedOn};
ghost use Rattle.spatial_run.specs.Parts.{Cause, IsFormatEnd, IsFreshEnd, IsRunEnd, IsStoreEnd, IsReadEnd};

use crate::ending::Ending;
use crate::record::{LaneOutcomes, OutcomeList, RunRecord};
use crate::running::{RanCommands, run_commands};
use crate::task::Task;
use dev_model::{Device, Source};
use device_format::format_dev;
use geo_base::{IndexSet, ItemList};
use script_lang::{Script, ScriptFault, read_script};
use std::alloc::Global;
use store_core::Store;

/// What a task leaves: how it ended, the device, and the acks.
#[derive(Drop)]
pub(crate) struct Run<D: Device> {
    pub ending: Ending,
    pub device: D,
    pub acks: ItemList<u64>,
}

// A run in which no command ran.
fn without_commands<D: Device>(alloc: Global, ending: Ending, device: D) -> Run<D>
    ensures ending { result.ending ≡ ending }
    ensures device { result.device ≡ device }
    ensures acks { result.acks.items ≡ [] }
{
    Run {
        ending,
        device,
        acks: ItemList::new(alloc),
    }
}

// The ending of a script whose commands are all in the setup.
fn ran(alloc: Global, script: Script, ran: RanCommands) -> Ending
    ensures { ending_of result ≡ model.ran (phases_of script) (record { setup = outcomes_of ran.outcomes.items; lanes = []; after = [] }) ran.refusals }
{
    Ending::Ran(
        script,
        RunRecord {
            setup: ran.outcomes,
            lanes: LaneOutcomes::new(alloc),
            after: OutcomeList::new(alloc),
        },
        ran.refusals,
    )
}

// The script on a store that was opened.
fn run_on<D: Device>(alloc: Global, script: Script, store: Store<D>) -> Run<D>
    requires serving { IsServing (state_of D.seen store) }
    requires opened { (from : DeviceState) × OpenedOn from (state_of D.seen store) }
    requires alone { IsSetupAlone (phases_of script) }
    ensures end { IsStoreEnd (phases_of script) (state_of D.seen store) (D.seen result.device) result.acks.items (ending_of result.ending) }
    ensures plain { IsPlain (ending_of result.ending) }
{
    let mut store = store;
    match run_commands(alloc, &mut store, script.setup.as_slice()) {
        Ok(commands) => {
            let (device, acks) = store.into_dev();
            Run {
                ending: ran(alloc, script, commands),
                device,
                acks,
            }
        }
        Err(_) => {
            let (device, acks) = store.into_dev();
            Run {
                ending: Ending::NoMemory,
                device,
                acks,
            }
        }
    }
}

// Opens the store that is on the device, and runs the script on it.
fn run_script<D: Device>(alloc: Global, script: Script, device: D) -> Run<D>
    requires least { LEAST_PAGES ≤ (D.seen device).pages }
    requires most { (D.seen device).pages ≤ MOST_PAGES }
    requires alone { IsSetupAlone (phases_of script) }
    ensures end { IsRunEnd (phases_of script) (D.seen device) (D.seen result.device) result.acks.items (ending_of result.ending) }
    ensures plain { IsPlain (ending_of result.ending) }
{
    match Store::open(alloc, device) {
        Ok(store) => run_on(alloc, script, store),
        Err((device, fault)) => without_commands(alloc, Ending::NotOpened(fault), device),
    }
}

// Makes the device an empty store.
fn format<D: Device>(alloc: Global, indexes: IndexSet, device: D) -> Run<D>
    requires least { LEAST_PAGES ≤ (D.seen device).pages }
    requires most { (D.seen device).pages ≤ MOST_PAGES }
    ensures end { IsFormatEnd indexes (D.seen device) (D.seen result.device) result.acks.items (ending_of result.ending) }
    ensures plain { IsPlain (ending_of result.ending) }
{
    let mut device = device;
    match format_dev(&mut device, indexes) {
        Ok(()) => {
            let pages = device.pages();
            without_commands(alloc, Ending::Formatted(pages), device)
        }
        Err(_) => without_commands(alloc, Ending::FormatFailed, device),
    }
}

// Makes the device an empty store, and runs the script on it.
fn run_formatted<D: Device>(alloc: Global, indexes: IndexSet, script: Script, device: D) -> Run<D>
    requires least { LEAST_PAGES ≤ (D.seen device).pages }
    requires most { (D.seen device).pages ≤ MOST_PAGES }
    requires alone { IsSetupAlone (phases_of script) }
    ensures end { IsFreshEnd indexes (phases_of script) (D.seen device) (D.seen result.device) result.acks.items (ending_of result.ending) }
    ensures plain { IsPlain (ending_of result.ending) }
{
    let mut device = device;
    match format_dev(&mut device, indexes) {
        Ok(()) => run_script(alloc, script, device),
        Err(_) => without_commands(alloc, Ending::FormatFailed, device),
    }
}

// Reads the script to its end.
fn read<R: Source>(alloc: Global, source: &mut R) -> Result<Script, Ending>
    ensures script { IfOk result (λ script. IsReadEnd (R.fault_count source.old) (R.fault_count source.new) (R.left source.old) (Ok (phases_of script))) }
    ensures alone { IfOk result (λ script. IsSetupAlone (phases_of script)) }
    ensures ending { IfErr result (λ ending. IsReadEnd (R.fault_count source.old) (R.fault_count source.new) (R.left source.old) (Err (ending_of ending))) }
    ensures plain { IfErr result (λ ending. IsPlain (ending_of ending)) }
{
    match read_script(alloc, source) {
        Ok(script) => Ok(script),
        Err(ScriptFault::Source) => Err(Ending::SourceFault),
        Err(ScriptFault::BadLine(line)) => Err(Ending::BadLine(line)),
        Err(ScriptFault::TooLong) => Err(Ending::TooLong),
        Err(ScriptFault::OutOfMemory) => Err(Ending::NoMemory),
    }
}

// Runs a script on the store that is there.
fn run_serial<R: Source, D: Device>(alloc: Global, source: &mut R, device: D) -> Run<D>
    requires least { LEAST_PAGES ≤ (D.seen device).pages }
    requires most { (D.seen device).pages ≤ MOST_PAGES }
    ensures cause { Cause (Some tasks.serial) (R.fault_count source.old) (R.fault_count source.new) (R.left source.old) (D.seen device) (D.seen result.device) result.acks.items (ending_of result.ending) }
    ensures plain { IsPlain (ending_of result.ending) }
{
    match read(alloc, source) {
        Ok(script) => run_script(alloc, script, device),
        Err(ending) => without_commands(alloc, ending, device),
    }
}

// Makes the device an empty store, and runs a script on it.
fn run_fresh<R: Source, D: Device>(
    alloc: Global,
    indexes: IndexSet,
    source: &mut R,
    device: D,
) -> Run<D>
    requires least { LEAST_PAGES ≤ (D.seen device).pages }
    requires most { (D.seen device).pages ≤ MOST_PAGES }
    ensures cause { Cause (Some (tasks.fresh indexes)) (R.fault_count source.old) (R.fault_count source.new) (R.left source.old) (D.seen device) (D.seen result.device) result.acks.items (ending_of result.ending) }
    ensures plain { IsPlain (ending_of result.ending) }
{
    match read(alloc, source) {
        Ok(script) => run_formatted(alloc, indexes, script, device),
        Err(ending) => without_commands(alloc, ending, device),
    }
}

// Does a task that there is.
fn run_one<R: Source, D: Device>(alloc: Global, task: Task, source: &mut R, device: D) -> Run<D>
    requires least { LEAST_PAGES ≤ (D.seen device).pages }
    requires most { (D.seen device).pages ≤ MOST_PAGES }
    ensures cause { Cause (Some (task_as task)) (R.fault_count source.old) (R.fault_count source.new) (R.left source.old) (D.seen device) (D.seen result.device) result.acks.items (ending_of result.ending) }
    ensures plain { IsPlain (ending_of result.ending) }
{
    match task {
        Task::Format(indexes) => format(alloc, indexes, device),
        Task::Serial => run_serial(alloc, source, device),
        Task::Fresh(indexes) => run_fresh(alloc, indexes, source, device),
    }
}

/// Does the task, and prints nothing.
pub(crate) fn run_task<R: Source, D: Device>(
    alloc: Global,
    task: Option<Task>,
    source: &mut R,
    device: D,
) -> Run<D>
    requires least { LEAST_PAGES ≤ (D.seen device).pages }
    requires most { (D.seen device).pages ≤ MOST_PAGES }
    ensures cause { Cause (option_map task_as task) (R.fault_count source.old) (R.fault_count source.new) (R.left source.old) (D.seen device) (D.seen result.device) result.acks.items (ending_of result.ending) }
    ensures plain { IsPlain (ending_of result.ending) }
{
    match task {
        None => without_commands(alloc, Ending::BadWords, device),
        Some(task) => run_one(alloc, task, source, device),
    }
}
