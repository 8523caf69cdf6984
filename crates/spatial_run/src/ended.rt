// What a call of the program leaves.
ghost use Rattle.std.specs.Prelude.{◌≡◌};
ghost use Rattle.spatial_run.specs.Endings.{record_of_ending};
ghost use Rattle.spatial_run.specs.Views.{record_of};
ghost use Rattle.spatial_run.specs.EndingViews.{ending_of};
ghost use Rattle.spatial_run.specs.Steps.{IsPlain};
ghost use Rattle.spatial_run.specs.Parts.{IsFinished};

use crate::device::Run;
use crate::ending::{Ending, print_ending, status};
use crate::record::{LaneOutcomes, OutcomeList, RunRecord};
use dev_model::{Device, Sink};
use geo_base::ItemList;
use std::alloc::Global;

/// What a call leaves: the program's status, the device, the clock of each write that was logged from which on each crash leaves
/// it, and what became of the commands of the script, if they ran.
#[derive(Drop)]
pub struct Ended<D: Device> {
    pub status: u8,
    pub device: D,
    pub acks: ItemList<u64>,
    pub outcomes: RunRecord,
}

// The record of an ending.
fn record_of(alloc: Global, ending: Ending) -> RunRecord
    ensures { record_of result ≡ record_of_ending (ending_of ending) }
{
    match ending {
        Ending::Ran(_, record, _) => record,
        _ => RunRecord {
            setup: OutcomeList::new(alloc),
            lanes: LaneOutcomes::new(alloc),
            after: OutcomeList::new(alloc),
        },
    }
}

/// Prints how a task ended, and gives what the call leaves.
pub(crate) fn finish<K: Sink, D: Device>(alloc: Global, run: Run<D>, out: &mut K) -> Ended<D>
    requires plain { IsPlain (ending_of run.ending) }
    ensures finished { IsFinished (ending_of run.ending) (K.fault_count out.old) (K.fault_count out.new) (K.taken out.old) (K.taken out.new) result.status (record_of result.outcomes) }
    ensures device { result.device ≡ run.device }
    ensures acks { result.acks ≡ run.acks }
{
    let Run {
        ending,
        device,
        acks,
    } = run;
    let sent = print_ending(out, &ending);
    let status = status(&ending, sent);
    Ended {
        status,
        device,
        acks,
        outcomes: record_of(alloc, ending),
    }
}
