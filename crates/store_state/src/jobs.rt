// What is kept of a job while its owner writes its pages.

use build_job::JobPlan;

/// A job that was begun: whose it is, where its component is to stand, and how many of its pages are written.
#[derive(Clone, Copy, Debug, PartialEq, Eq)]
pub struct JobRow {
    /// Who writes the pages.
    pub owner: u64,
    /// Where the component is to stand.
    pub plan: JobPlan,
    /// How many pages are written.
    pub written: u32,
}
