// Laws that bring in what is true of each struct of a kind. Each is the contract of a function that does nothing.
ghost use Rattle.build_job.specs.Steps.{IsJob};
ghost use Rattle.store_state.specs.EveryList.{IsLists};

use build_job::BuildJob;
use store_state::State;

/// A law: the lists of a store have their rules.
pub(crate) fn lists_have_rules(state: &State)
    ensures { IsLists state.now.0 }
{
    let _ = state.components();
}

/// A law: a job has its rules.
pub(crate) fn jobs_have_rules(job: &BuildJob)
    ensures { IsJob job.now }
{
    let _ = job.step();
}
