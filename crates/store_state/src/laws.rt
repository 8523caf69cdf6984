//! Laws of a store's lists. Each is the contract of a function that does nothing.

ghost use Rattle.std.specs.Prelude.{◌≡◌, ◌≢◌, ℕ, ◌<◌, Some, All, false};
ghost use Rattle.comp_dir.specs.Choosing.{shares_page};
ghost use Rattle.comp_dir.specs.Rules.{IsSound};
ghost use Rattle.build_job.specs.Jobs.{described};
ghost use Rattle.build_job.specs.Steps.{IsJob, IsPlaceable};
ghost use Rattle.store_state.specs.Lists.{Lists, job_of, open_of};
ghost use Rattle.store_state.specs.EveryList.{IsLists};

use crate::jobs::JobRow;
use comp_dir::{LSN_LIMIT, SLOTS};

/// A law: the component of a job that was begun may be installed. Its slot is sound whatever indexes are declared, where the
/// numbers of its writes fit; it is closed, and shares no page with an open one.
pub fn begun_jobs_may_be_installed()
    ensures job { (l : Lists) (row : JobRow) → IsLists l → l.job ≡ Some row → IsJob (job_of l row) }
    ensures placeable { (l : Lists) (row : JobRow) → IsLists l → l.job ≡ Some row → l.cut < LSN_LIMIT → IsPlaceable l.space.pages (job_of l row) }
    ensures sound { (l : Lists) (row : JobRow) (declared : ℕ) → IsLists l → l.job ≡ Some row → l.cut < LSN_LIMIT
        → IsSound l.space.pages declared (described (job_of l row)) }
    ensures inside { (l : Lists) (row : JobRow) → IsLists l → l.job ≡ Some row → row.plan.slot < SLOTS }
    ensures closed { (l : Lists) (row : JobRow) → IsLists l → l.job ≡ Some row → All (λ e. e.0 ≢ row.plan.slot) (open_of l) }
    ensures apart { (l : Lists) (row : JobRow) → IsLists l → l.job ≡ Some row → All (λ e. shares_page e.1 (described (job_of l row)) ≡ false) (open_of l) }
{}
