// The opening of a store.
ghost use Rattle.std.specs.Prelude.{◌≡◌, ◌≤◌, [], None, IfOk, IfErr};
ghost use Rattle.dev_model.specs.Story.{WhereTold, bytes_of, IsCalmAt};
ghost use Rattle.dev_model.specs.Moments.{ReadsWithin};
ghost use Rattle.component_image.specs.Recovered.{IsLookedAt, IsOpeningRange};
ghost use Rattle.store_opening.specs.Openings.{IsRefusal, HasFaulted};
ghost use Rattle.store_machine.specs.Calls.{IsReady};
ghost use Rattle.store_machine.specs.Standing.{StandsSince};
ghost use Rattle.store_machine.specs.Laws.Opening.{opened_state};
ghost use Rattle.store_core.specs.Stores.{state_of};

use crate::store::Store;
use dev_model::Device;
use geo_base::ItemList;
use space_map::{LEAST_PAGES, MOST_PAGES};
use std::alloc::Global;
use store_opening::{OpenFault, OpenedState, open_state};

impl<D: Device> Store<D> {
    /// Opens the store that is on the device, or gives the device back.
    ///
    /// The opening is the moment at which this returns. It reads the superblock, the directory and the log, and nothing else,
    /// no page of a component either, and writes nothing. The refusals, in this order: `NotFormatted`, `BadSlot` of the lowest
    /// slot that can't be, and `BadLog` of the first segment in the order of the generations that can't be, exactly where they
    /// hold of the bytes; `Fault` where a call of the device failed, which ends the opening; `OutOfMemory`.
    pub fn open(alloc: Global, device: D) -> Result<Store<D>, (D, OpenFault)>
        requires least { LEAST_PAGES ≤ (D.seen device).pages }
        requires most { (D.seen device).pages ≤ MOST_PAGES }
        ensures stands { IfOk result (λ store. StandsSince (D.seen device) (state_of D.seen store) []) }
        ensures ready { IfOk result (λ store. IsReady (state_of D.seen store)) }
        ensures idle { IfOk result (λ store. (state_of D.seen store).lists.job ≡ None) }
        ensures refused { IfErr result (λ refused. WhereTold (D.seen device).story (λ s. IsCalmAt (IsLookedAt (bytes_of s)) s → IsRefusal (D.seen device).pages refused.1 (bytes_of s))) }
        ensures faulted { IfErr result (λ refused. HasFaulted (D.seen device).faults (D.seen refused.0).faults refused.1) }
        ensures reads { IfOk result (λ store. WhereTold (D.seen device).story (λ s. ReadsWithin IsOpeningRange s (state_of D.seen store).device.story)) }
        ensures reads_refused { IfErr result (λ refused. WhereTold (D.seen device).story (λ s. ReadsWithin IsOpeningRange s (D.seen refused.0).story)) }
        ensures same_pages { IfErr result (λ refused. (D.seen refused.0).pages ≡ (D.seen device).pages) }
        ensures pages { IfOk result (λ store. (state_of D.seen store).device.pages ≡ (D.seen device).pages) }
    {
        let mut device = device;
        match open_state(alloc, &mut device) {
            Ok(opened) => Ok(Store::of_opened(alloc, device, opened)),
            Err(fault) => Err((device, fault)),
        }
    }

    // The store when nothing has happened yet.
    fn of_opened(alloc: Global, device: D, opened: OpenedState) -> Store<D>
        ensures { state_of D.seen result ≡ opened_state (D.seen device) opened.indexes opened.log opened.state.0 }
    {
        let opened_at = device.clock();
        let opened_faults = device.faults();
        let OpenedState {
            indexes,
            log,
            state,
        } = opened;
        Store {
            device,
            indexes,
            state,
            log,
            seq: 0,
            stopped: None,
            acks: ItemList::new(alloc),
            opened_at,
            opened_faults,
        }
    }
}
