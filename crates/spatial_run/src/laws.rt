// Laws over calls of the program, each as the contract of a function that does nothing.
ghost use Rattle.std.specs.Prelude.{◌⊎◌, ℕ, List, Option, Some, Result};
ghost use Rattle.std.specs.FinMap.{empty};
ghost use Rattle.dev_model.specs.Story.{Story, WhereTold, place};
ghost use Rattle.dev_model.specs.Moments.{LeavesOnly};
ghost use Rattle.dev_model.specs.declared.streams.Failed.{Failed};
ghost use Rattle.table_model.specs.Table.{Table};
ghost use Rattle.table_model.specs.Commands as model;
ghost use Rattle.table_model.specs.Phases.{Phases};
ghost use Rattle.table_model.specs.Record.{RunRecord};
ghost use Rattle.component_image.specs.Recovered.{Recovers};
ghost use Rattle.device_format.specs.Formatting.{IsEmptyStore, IsUnformatted};
ghost use Rattle.store_machine.specs.Crash.{attempted};
ghost use Rattle.dev_model.specs.Story.{DeviceState};
ghost use Rattle.store_machine.specs.Devices.{HoldsTable};
ghost use Rattle.store_machine.specs.Outcomes.{Group, logged_groups};
ghost use Rattle.spatial_run.specs.Tasks.{Task, serial};
ghost use Rattle.spatial_run.specs.Endings.{Edges, Ends};
ghost use Rattle.spatial_run.specs.OnDevice.{LeavesOver, Formatting, RanFrom, RanOn};
ghost use Rattle.spatial_run.specs.Reopening.{begun_with, HoldsFirst, Leaves, LeavesWritten};
ghost use Rattle.spatial_run.specs.declared.outcomes.Refusals.{Refusals};

/// A law: a crash at any moment of a run on a device that held a table leaves an image that recovers to the table after the first
/// of the writes, with each write that was acknowledged by then; and a crash at any moment of a format leaves one that recovers
/// to the old table or to the empty one, or no store.
pub fn a_crash_leaves_a_store()
    ensures served { (table : Table) (before : Story) (unfinished : Option Group) (new : DeviceState) (acks : List ℕ) (s : Phases model.Command) (r : RunRecord) (f : Refusals) → RanFrom table before unfinished new acks s r f →
        LeavesOver before new.story (HoldsFirst new.pages table (attempted (logged_groups s.setup r.setup) unfinished) acks) }
    ensures formatted { (indexes : ℕ) (old new : DeviceState) (result : Result (Unit {0}) Failed) (table : Table) → Formatting indexes old new result →
        WhereTold old.story (λ s. HoldsTable old.pages table s → LeavesOnly s new.story (λ image. Recovers old.pages table image ⊎ (IsUnformatted image ⊎ Recovers old.pages empty image))) }
{}

/// A law: whatever the task was and however the call ended, a crash at any moment since it began, on a device that held a table,
/// leaves what `Leaves` says of that table; where the word was serial, always the table after the
/// first of the writes, with each that was acknowledged by then.
pub fn a_crash_in_any_call_leaves_a_store()
    ensures served { (edges : Edges) (status : ℕ) (acks : List ℕ) (r : RunRecord) (table : Table) (end : Ends Formatting RanOn (Some serial) edges status acks r) →
        WhereTold edges.device_old.story (λ s. HoldsTable edges.device_old.pages table s → LeavesWritten end.ending edges.device_old.pages table s edges.device_new.story acks) }
    ensures any_task { (task : Option Task) (edges : Edges) (status : ℕ) (acks : List ℕ) (r : RunRecord) (table : Table) (end : Ends Formatting RanOn task edges status acks r) →
        WhereTold edges.device_old.story (λ s. HoldsTable edges.device_old.pages table s → Leaves task end.ending edges.device_old.pages table s edges.device_new.story acks) }
{}

/// A law: a device that begins with an image which recovers to a table holds it, so that the next call may begin with what a
/// crash left.
pub fn a_crash_can_be_reopened()
    ensures table { (pages : ℕ) (table : Table) (bytes : List ℕ) → Recovers pages table (place bytes) → HoldsTable pages table (begun_with bytes) }
    ensures empty { (pages indexes : ℕ) (bytes : List ℕ) → IsEmptyStore pages indexes (place bytes) → HoldsTable pages empty (begun_with bytes) }
{}
