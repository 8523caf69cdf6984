// A run of a script on a store: its commands are answered, and the record of the run is printed.
#![tactic(auto)]

mod device;
mod ended;
mod ending;
mod laws;
mod outcomes;
mod record;
mod running;
mod task;
mod top;

pub use ended::Ended;
pub use laws::{a_crash_can_be_reopened, a_crash_leaves_a_store};
pub use record::{LaneOutcomes, Outcome, OutcomeList, RunRecord};
pub use top::{run_serial, run_top};
