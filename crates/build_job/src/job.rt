//! A job: a list that goes to an extent of the device page by page.

ghost use Rattle.std.specs.Prelude.{◌≡◌, ℕ, ◌+◌, ◌^◌, ◌<◌, ◌≤◌, vec_len};
ghost use Rattle.comp_dir.specs.declared.places.TheConstants.{PRIMARY};
ghost use Rattle.comp_dir.specs.Parts.{HasPages};
ghost use Rattle.comp_dir.specs.Rules.{IsSound};
ghost use Rattle.btree_image.specs.Image.{shape_of};
ghost use Rattle.primary_ix.specs.Rows.{prim_layout};
ghost use Rattle.build_job.specs.Jobs.{described};
ghost use Rattle.build_job.specs.Steps.{IsJob, steps_left, next_step, IsPlaceable};
ghost use Rattle.build_job.specs.Written.{IsPageOf};

use crate::plan::{Interval, JobPlan};
use comp_dir::Slot;
use page_codec::PAGE_BYTES;
use primary_ix::{PrimRow, image_page};
use std::marker::Model;

/// What a job asks of the device next.
#[derive(Clone, Copy, Debug, PartialEq, Eq)]
pub enum JobStep {
    /// The job's page has to be written to this page of the device.
    Write(u32),
    /// All pages are written.
    Done,
}

/// A flush of the primary between two of its pages. Its owner holds it; it takes no memory but its list's. It is seen as
/// its list, its plan, the writes that the list has, the rows of the table after them, and how many pages are written.
#[derive(Drop)]
pub struct BuildJob {
    rows: Vec<PrimRow>,
    plan: JobPlan,
    interval: Interval,
    table_rows: u64,
    written: u32,
}

impl Model for BuildJob {
    ghost use Rattle.build_job.specs.Jobs.{Job};
    ghost use Rattle.build_job.specs.Steps.{IsJob};

    ghost Value = { Job };

    ghost view = { λ j. record { rows = j.rows.items; plan = j.plan; interval = j.interval; table_rows = j.table_rows; written = j.written } };

    ghost invariant = { λ j. IsJob (record { rows = j.rows.items; plan = j.plan; interval = j.interval; table_rows = j.table_rows; written = j.written }) };
}

impl BuildJob {
    /// A job that writes this list of the primary, after which the table has so many rows. The extent has the pages that
    /// the list's image needs, and their numbers fit.
    pub fn flush(rows: Vec<PrimRow>, plan: JobPlan, interval: Interval, table_rows: u64) -> BuildJob
        requires count { vec_len rows < 2 ^ 32 }
        requires index { plan.index ≡ PRIMARY }
        requires pages { HasPages (shape_of prim_layout (vec_len rows)) plan.extent.pages }
        requires fits { plan.extent.first + plan.extent.pages ≤ 2 ^ 32 }
        ensures job { result ≡ record { rows = rows.items; plan = plan; interval = interval; table_rows = table_rows; written = 0 } }
        ensures sound { IsJob result }
    {
        BuildJob {
            rows,
            plan,
            interval,
            table_rows,
            written: 0,
        }
    }

    /// What is to be done next: the pages of the extent are written in their order.
    pub fn step(&self) -> JobStep
        ensures step { result ≡ next_step self.now }
        ensures writes { (page : ℕ) → result ≡ JobStep.Write page → (page ≡ self.now.plan.extent.first + self.now.written) × (0 < steps_left self.now) }
        ensures done { result ≡ JobStep.Done → steps_left self.now ≡ 0 }
        ensures sound { IsJob self.now }
    {
        if self.written < self.plan.extent.pages {
            JobStep::Write(self.plan.extent.first + self.written)
        } else {
            JobStep::Done
        }
    }

    /// Fills the buffer with the page that is to be written next.
    pub fn page(&self, buf: &mut [u8; PAGE_BYTES])
        requires { 0 < steps_left self.now }
        ensures { IsPageOf self.now.rows self.now.written buf.new }
    {
        image_page(&self.rows, self.written, buf);
    }

    /// Goes on to the next page.
    pub fn wrote(&mut self)
        requires { 0 < steps_left self.old }
        ensures job { self.new ≡ record self.old { written = self.old.written + 1 } }
        ensures left { steps_left self.old ≡ steps_left self.new + 1 }
        ensures sound { IsJob self.new }
    {
        self.written += 1;
    }

    /// What the slot of the component has to say. It keeps the rule of a slot wherever the extent may stand on the device.
    pub fn slot(&self) -> Slot
        requires { steps_left self.now ≡ 0 }
        ensures slot { result ≡ described self.now }
        ensures sound { (pages declared : ℕ) → IsPlaceable pages self.now → IsSound pages declared result }
    {
        Slot {
            index: self.plan.index,
            first: self.plan.extent.first,
            pages: self.plan.extent.pages,
            first_lsn: self.interval.first_lsn,
            last_lsn: self.interval.last_lsn,
            main_rows: self.rows.len() as u32,
            second_rows: 0,
            second_at: 0,
            filter_at: 0,
            filter_bits: 0,
            table_rows: self.table_rows,
        }
    }

    /// Where the component is to stand.
    pub fn plan(&self) -> JobPlan
        ensures { result ≡ self.now.plan }
    {
        self.plan
    }
}
