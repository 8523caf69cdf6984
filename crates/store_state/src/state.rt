//! The lists of a store.

ghost use Rattle.std.specs.Prelude.{◌≡◌, ◌+◌, ◌<◌, ◌≤◌, ◌++◌, length, vec_len, false, Some, None, All, AllPairs, IsOk, IfOk, OnOk, is_some};
ghost use Rattle.comp_dir.specs.Choosing.{shares_page};
ghost use Rattle.primary_ix.specs.Pages.{AreAllLent};
ghost use Rattle.primary_ix.specs.Lookups.{in_memory};
ghost use Rattle.space_map.specs.Space.{end_of, is_reserved};
ghost use Rattle.build_job.specs.Jobs.{described};
ghost use Rattle.store_state.specs.Lists.{trees_of, extents_of, frozen_rows, job_of, placed_up_to};
ghost use Rattle.store_state.specs.EveryList.{IsLists, IsOpenSlot};
ghost use Rattle.store_state.specs.NextPage.{HasPageLeft, IsAllWritten};
ghost use Rattle.store_state.specs.Opened.{placed_rows, opened};
ghost use Rattle.store_state.specs.Begun.{Begins};
ghost use Rattle.store_state.specs.Steps.{rows_with, added, frozen_at, one_written, installed};

use crate::components::Components;
use crate::faults::BeginFault;
use crate::jobs::JobRow;
use crate::planning::{copied, image_pages, slot_for};
use crate::space::space_of;
use build_job::{BuildJob, Interval, JobPlan};
use comp_dir::{LSN_LIMIT, MOST_LIVE, PRIMARY, Slot};
use geo_base::{Note, Point};
use mem_comp::{MemComp, MemView};
use primary_ix::{PrimComp, PrimRow, change};
use space_map::{Extent, LEAST_PAGES, MOST_PAGES, SpaceMap};
use std::alloc::{AllocError, Global};
use std::marker::Model;

/// What a store has in memory of its rows: the list that writes go to, the list that waits for its component, the
/// components and the other open slots of its directory, the space that these take, and the job that writes the waiting
/// list. It is seen as these lists, and the number of rows that may be laid before the active list has to grow.
#[derive(Drop)]
pub struct State {
    active: MemComp<PrimRow>,
    frozen: Option<MemView<PrimRow>>,
    cut: u64,
    cut_rows: u64,
    components: Components,
    ignored: Vec<(u16, Slot)>,
    space: SpaceMap,
    job: Option<JobRow>,
    rows: u64,
}

impl Model for State {
    ghost use Rattle.std.specs.Prelude.{ℕ};
    ghost use Rattle.store_state.specs.Lists.{Lists};
    ghost use Rattle.store_state.specs.EveryList.{IsLists};

    ghost Value = { Lists × ℕ };

    ghost view = { λ s. (
      record {
        active = s.active.0;
        frozen = s.frozen;
        cut = s.cut;
        cut_rows = s.cut_rows;
        components = s.components;
        ignored = s.ignored.items;
        space = s.space;
        job = s.job;
        rows = s.rows;
      },
      s.active.1,
    ) };

    ghost invariant = { λ s. IsLists (record {
      active = s.active.0;
      frozen = s.frozen;
      cut = s.cut;
      cut_rows = s.cut_rows;
      components = s.components;
      ignored = s.ignored.items;
      space = s.space;
      job = s.job;
      rows = s.rows;
    }) };
}

// The row of a key in the one list, or else in the other.
fn row_in(active: &MemComp<PrimRow>, frozen: &Option<MemView<PrimRow>>, key: u64) -> Option<PrimRow>
    ensures { result ≡ in_memory active.now.0 frozen.now key }
{
    if let Some(row) = active.get(&key) {
        return Some(row);
    }
    match frozen {
        Some(frozen) => frozen.get(&key),
        None => None,
    }
}

// The number of the last write that components have.
fn placed_up_to(components: &[(u16, Slot)]) -> u64
    ensures { result ≡ placed_up_to components.now }
{
    match components.first() {
        Some((_, slot)) => slot.last_lsn,
        None => 0,
    }
}

// The rows of the table after that write.
fn placed_rows(components: &[(u16, Slot)]) -> u64
    ensures { result ≡ placed_rows components.now }
{
    match components.first() {
        Some((_, slot)) => slot.table_rows,
        None => 0,
    }
}

// The rows of the table after a write.
fn rows_with(lays: bool, had: bool, rows: u64) -> u64
    ensures { result ≡ rows_with lays had rows }
{
    match (lays, had) {
        (true, false) => rows.saturating_add(1),
        (false, true) => rows.saturating_sub(1),
        _ => rows,
    }
}

impl State {
    /// The lists of a store that is opened on a device of so many pages, with these components, the newest first, and these
    /// other open slots: nothing is in memory yet. Their extents share no page.
    pub fn of_slots(
        alloc: Global,
        pages: u32,
        components: Vec<(u16, Slot)>,
        ignored: Vec<(u16, Slot)>,
    ) -> Result<State, AllocError>
        requires least { LEAST_PAGES ≤ pages }
        requires most { pages ≤ MOST_PAGES }
        requires few { vec_len components ≤ MOST_LIVE }
        requires slots { All (IsOpenSlot pages) (components.items ++ ignored.items) }
        requires apart { AllPairs (λ e f. shares_page e.1 f.1 ≡ false) (components.items ++ ignored.items) }
        ensures lists { IfOk result (λ state. state.0 ≡ opened components.items ignored.items state.0.space) }
        ensures pages { IfOk result (λ state. state.0.space.pages ≡ pages) }
        ensures sound { IfOk result (λ state. IsLists state.0) }
    {
        let space = space_of(alloc, pages, &components, &ignored)?;
        let cut = placed_up_to(&components);
        let rows = placed_rows(&components);
        Ok(State {
            active: MemComp::new(alloc),
            frozen: None,
            cut,
            cut_rows: rows,
            components: Components::of_slots(alloc, components)?,
            ignored,
            space,
            job: None,
            rows,
        })
    }

    /// Makes room for one row. Where memory is refused, the room is as before.
    pub fn reserve(&mut self) -> Result<(), AllocError>
        ensures lists { self.new.0 ≡ self.old.0 }
        ensures room { OnOk result (1 ≤ self.new.1) }
        ensures kept { self.old.1 ≤ self.new.1 }
        ensures had_room { 1 ≤ self.old.1 → IsOk result }
    {
        self.active.reserve(1)
    }

    /// Lays the row of a write into the active list, `None` for a del. A record of its key was there before, or not. There is
    /// room for the row, so it takes no memory.
    pub fn lay(&mut self, key: u64, matter: Option<(Point, Note)>, had: bool)
        requires { 1 ≤ self.old.1 }
        ensures lists { self.new.0 ≡ added (record { key = key; matter = matter }) had self.old.0 }
        ensures room { self.old.1 ≤ self.new.1 + 1 }
        ensures sound { IsLists self.new.0 }
    {
        self.rows = rows_with(matter.is_some(), had, self.rows);
        self.active.add(change(key, matter));
    }

    /// Sets the active list aside to wait for its component. It has the writes up to `last`. It takes no memory.
    pub fn freeze(&mut self, last: u64)
        requires none { self.old.0.frozen ≡ None }
        requires later { self.old.0.cut < last }
        ensures lists { self.new.0 ≡ frozen_at last self.old.0 }
        ensures sound { IsLists self.new.0 }
    {
        self.frozen = Some(self.active.set_aside());
        self.cut = last;
        self.cut_rows = self.rows;
    }

    /// Begins the job that writes the frozen list, for this owner, who writes its pages. `None` where nothing is frozen.
    ///
    /// `Held` where a job was begun before. `Full` where there is no room: of components, then of pages, then of slots. The
    /// component is to stand in the first run of free pages that has its image, and in the lowest closed slot.
    pub fn begin(&mut self, alloc: Global, owner: u64) -> Result<Option<BuildJob>, BeginFault>
        ensures begins { Begins owner self.old.0 self.new.0 result }
        ensures room { self.new.1 ≡ self.old.1 }
        ensures sound { IsLists self.new.0 }
    {
        if self.frozen.is_none() {
            return Ok(None);
        }
        if self.job.is_some() {
            return Err(BeginFault::Held);
        }
        let pages = image_pages(&self.frozen);
        let slot = match slot_for(self.components.slots(), &self.ignored, &self.space, pages) {
            Ok(slot) => slot,
            Err(fault) => return Err(fault),
        };
        let Ok(rows) = copied(alloc, &self.frozen) else {
            return Err(BeginFault::OutOfMemory);
        };
        let Ok(extent) = self.space.reserve(pages) else {
            return Err(BeginFault::OutOfMemory);
        };
        let plan = JobPlan {
            index: PRIMARY,
            extent,
            slot,
        };
        self.job = Some(JobRow {
            owner,
            plan,
            written: 0,
        });
        let interval = Interval {
            first_lsn: placed_up_to(self.components.slots()) + 1,
            last_lsn: self.cut,
        };
        Ok(Some(BuildJob::flush(rows, plan, interval, self.cut_rows)))
    }

    /// Counts a page of the job that was written.
    pub fn wrote(&mut self)
        requires { HasPageLeft self.old.0.job }
        ensures lists { self.new.0 ≡ one_written self.old.0 }
        ensures room { self.new.1 ≡ self.old.1 }
        ensures sound { IsLists self.new.0 }
    {
        if let Some(row) = self.job {
            self.job = Some(JobRow {
                written: row.written + 1,
                ..row
            });
        }
    }

    /// Puts the job's component before the others, in the place of the frozen list, by the slot that the job has of it. All of
    /// its pages are written. It takes no memory.
    pub fn install(&mut self, slot: Slot)
        requires written { IsAllWritten self.old.0.job }
        requires below { self.old.0.cut < LSN_LIMIT }
        requires described { (row : JobRow) → self.old.0.job ≡ Some row → slot ≡ described (job_of self.old.0 row) }
        ensures lists { (row : JobRow) → self.old.0.job ≡ Some row → self.new.0 ≡ installed row self.old.0 }
        ensures room { self.new.1 ≡ self.old.1 }
        ensures sound { IsLists self.new.0 }
    {
        if let Some(row) = self.job {
            self.components.add(row.plan.slot, slot);
            self.frozen = None;
            self.job = None;
        }
    }

    /// The components, the newest first. Each page of each of them lies in their extents.
    pub fn components(&self) -> &[PrimComp]
        ensures trees { result.now ≡ trees_of self.now.0.components }
        ensures lent { AreAllLent (is_reserved (extents_of self.now.0.components)) (trees_of self.now.0.components) }
        ensures lists { IsLists self.now.0 }
    {
        self.components.trees()
    }

    /// The extents of the components, the newest first.
    pub fn extents(&self) -> &[Extent]
        ensures extents { result.now ≡ extents_of self.now.0.components }
        ensures lent { AreAllLent (is_reserved (extents_of self.now.0.components)) (trees_of self.now.0.components) }
        ensures on_device { All (λ e. end_of e ≤ self.now.0.space.pages) (extents_of self.now.0.components) }
    {
        self.components.extents()
    }

    /// The row of a key in memory: in the active list, or else in the frozen one.
    pub fn in_memory(&self, key: u64) -> Option<PrimRow>
        ensures { result ≡ in_memory self.now.0.active self.now.0.frozen key }
    {
        row_in(&self.active, &self.frozen, key)
    }

    /// The active list as it is now. What is laid afterwards isn't seen there.
    pub fn share(&self) -> Result<MemView<PrimRow>, AllocError>
        ensures { IfOk result (λ view. view ≡ self.now.0.active) }
    {
        self.active.share()
    }

    /// The list that waits for its component.
    pub fn frozen(&self) -> &Option<MemView<PrimRow>>
        ensures { result.now ≡ self.now.0.frozen }
    {
        &self.frozen
    }

    /// Whether a list waits for its component.
    pub fn is_frozen(&self) -> bool
        ensures { result ≡ is_some self.now.0.frozen }
    {
        self.frozen.is_some()
    }

    /// The job that was begun.
    pub fn job(&self) -> Option<JobRow>
        ensures { result ≡ self.now.0.job }
    {
        self.job
    }

    /// Whether a job was begun.
    pub fn has_job(&self) -> bool
        ensures { result ≡ is_some self.now.0.job }
    {
        self.job.is_some()
    }

    /// The rows of the table.
    pub fn rows(&self) -> u64
        ensures { result ≡ self.now.0.rows }
    {
        self.rows
    }

    /// The number of the last write before those of the active list.
    pub fn cut(&self) -> u64
        ensures { result ≡ self.now.0.cut }
    {
        self.cut
    }

    /// The rows that the table had after that write.
    pub fn cut_rows(&self) -> u64
        ensures { result ≡ self.now.0.cut_rows }
    {
        self.cut_rows
    }

    /// The number of the last write that the components have, 0 where there are none.
    pub fn placed(&self) -> u64
        ensures { result ≡ placed_up_to self.now.0.components }
    {
        placed_up_to(self.components.slots())
    }

    /// The pages of the device.
    pub fn pages(&self) -> u32
        ensures { result ≡ self.now.0.space.pages }
    {
        self.space.pages()
    }
}
