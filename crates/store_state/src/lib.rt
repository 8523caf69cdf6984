//! What a store has in memory of its rows: the lists that writes go to, the components that stand on its device, and the
//! space that these take. It is plain data, and no device is called here.
#![tactic(auto)]

mod components;
mod faults;
mod jobs;
mod laws;
mod planning;
mod space;
mod state;

pub use faults::BeginFault;
pub use jobs::JobRow;
pub use laws::begun_jobs_may_be_installed;
pub use state::State;
