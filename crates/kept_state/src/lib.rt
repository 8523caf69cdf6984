//! A store's lists, kept on its device: each step that changes both, and what a crash leaves of it.
#![tactic(auto)]

mod flushing;
mod laws;
mod reading;
mod writing;

pub use flushing::{install_job, write_job_page};
pub use reading::{read_row, read_rows};
pub use writing::{freeze, log_write};
