// A store: its parts, and what it answers without its device.
ghost use Rattle.std.specs.Prelude.{◌≡◌};
ghost use Rattle.dev_model.specs.Counts.{next_count};
ghost use Rattle.store_machine.specs.Calls.{IsReady, Makes};
ghost use Rattle.store_machine.specs.declared.events.Action.{Action};
ghost use Rattle.store_core.specs.Stores.{state_of};

use dev_model::Device;
use geo_base::{IndexSet, ItemList};
use store_machine::Look;
use store_state::State;
use wal_log::Log;

/// A store on a device. Each call makes one event: whatever list of events the store stood for, it then stands for that
/// list and this event. What a crash leaves at any moment is part of that.
#[derive(Drop)]
pub struct Store<D: Device> {
    pub(crate) device: D,
    pub(crate) indexes: IndexSet,
    pub(crate) state: State,
    pub(crate) log: Log,
    pub(crate) seq: u64,
    pub(crate) stopped: Option<u64>,
    pub(crate) acks: ItemList<u64>,
    pub(crate) opened_at: u64,
    pub(crate) opened_faults: u64,
}

impl<D: Device> Store<D> {
    // Draws the number of an answer. The greatest u64 stands.
    pub(crate) fn draw(&mut self) -> u64
        ensures seq { result ≡ self.old.seq }
        ensures rest { self.new ≡ record self.old { seq = next_count self.old.seq } }
    {
        let seq = self.seq;
        if seq < u64::MAX {
            self.seq = seq + 1;
        }
        seq
    }

    /// The number of the answer, and the number of rows of the table. It takes no memory.
    pub fn count(&mut self, owner: u64) -> (u64, u64)
        ensures event { Makes (state_of D.seen self.old) (state_of D.seen self.new) owner (Action.Count result.0 result.1) }
        ensures ready { IsReady (state_of D.seen self.old) → IsReady (state_of D.seen self.new) }
    {
        let rows = self.state.rows();
        (self.draw(), rows)
    }

    /// What the store tells about itself. It takes no memory.
    pub fn look(&self, owner: u64) -> Look
        requires ready { IsReady (state_of D.seen self.now) }
        ensures event { Makes (state_of D.seen self.now) (state_of D.seen self.now) owner (Action.Look result) }
    {
        Look {
            ops: self.log.records as u32,
            frozen: self.state.is_frozen(),
            lanes: 0,
            placed: self.state.placed(),
            lsn: self.log.next_lsn.saturating_sub(1),
        }
    }

    /// The declared indexes.
    pub fn declared(&self) -> IndexSet
        ensures { result ≡ (state_of D.seen self.now).declared }
    {
        self.indexes
    }

    /// For each write that was logged since the opening, in the order of the writes, the clock from which on each crash leaves it.
    pub fn acks(&self) -> &[u64]
        ensures { result.now ≡ (state_of D.seen self.now).acks }
    {
        self.acks.as_slice()
    }

    /// The device, to look at.
    pub fn device(&self) -> &D
        ensures { D.seen result.now ≡ (state_of D.seen self.now).device }
    {
        &self.device
    }

    /// Gives the device back, with the acks. It takes no memory.
    pub fn into_dev(self) -> (D, ItemList<u64>)
        ensures device { D.seen result.0 ≡ (state_of D.seen self).device }
        ensures acks { result.1.items ≡ (state_of D.seen self).acks }
    {
        let Store { device, acks, .. } = self;
        (device, acks)
    }
}
