// What a store answers of its rows.
ghost use Rattle.std.specs.Prelude.{◌≡◌};
ghost use Rattle.store_machine.specs.Calls.{IsReady, Makes};
ghost use Rattle.store_machine.specs.declared.events.Action.{Action};
ghost use Rattle.store_core.specs.Refusals.{refusal_of};
ghost use Rattle.store_core.specs.Stores.{state_of};
ghost use Rattle.store_core.specs.Tested.{TestsPages};

use crate::store::Store;
use dev_model::{Device, PageFault};
use kept_state::read_row;
use store_machine::{Got, Refusal};

// The refusal of a call where reading pages was refused.
pub(crate) fn refused(fault: PageFault) -> Refusal
    ensures { result ≡ refusal_of fault }
{
    match fault {
        PageFault::Failed => Refusal::Fault,
        PageFault::Damaged { page } => Refusal::Damaged { page },
        PageFault::OutOfMemory => Refusal::OutOfMemory,
    }
}

impl<D: Device> Store<D> {
    /// The row of a key. It takes no memory. `Fault` where a page could not be read, and `Damaged` where the page that was read
    /// last is none for its place, which doesn't come where the store was opened from what was on the disk. After an answer
    /// each page that was read has the header of its place.
    pub fn get(&mut self, owner: u64, key: u64) -> Result<Got, Refusal>
        requires ready { IsReady (state_of D.seen self.old) }
        ensures event { Makes (state_of D.seen self.old) (state_of D.seen self.new) owner (Action.Get key result) }
        ensures pages { TestsPages (state_of D.seen self.old) (state_of D.seen self.new).device result }
        ensures ready { IsReady (state_of D.seen self.new) }
    {
        match read_row(&mut self.device, &self.state, key) {
            Ok(row) => {
                let seq = self.draw();
                Ok(Got { seq, row })
            }
            Err(fault) => Err(refused(fault)),
        }
    }
}
