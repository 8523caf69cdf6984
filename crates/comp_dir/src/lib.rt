//! The directory of components: 512 slots, each behind a gate of its own.
#![tactic(auto)]

mod choosing;
mod faults;
mod gates;
mod laws;
mod parsing;
mod places;
mod reading;
mod slots;
mod spelling;

pub use choosing::{ChosenSlots, chosen};
pub use faults::DirFault;
pub use gates::{close_gate, install_slot, open_gate, write_slot};
pub use laws::{
    directory_stays, ignored_slot_may_be_closed, slot_is_read_back, slot_may_be_added, tests_mean,
    worked_additions, worked_directories, written_slot_stays,
};
pub use places::{
    DIRECTORY_START, FIRST_DATA_PAGE, LSN_LIMIT, MOST_LIVE, PRIMARY, SLOT_BYTES, SLOTS, slot_start,
};
pub use reading::read_dir;
pub use slots::Slot;
