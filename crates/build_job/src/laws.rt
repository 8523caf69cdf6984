//! Laws of jobs. Each is the contract of a function that does nothing.

ghost use Rattle.std.specs.Prelude.{◌≡◌, ◌≢◌, ℕ, ◌+◌, ◌<◌, List, length, All, Some};
ghost use Rattle.order_merge.specs.Ascending.{Ascends};
ghost use Rattle.tree_shape.specs.Shape.{level_start, IsPlace};
ghost use Rattle.btree_image.specs.Rows.{IsStored};
ghost use Rattle.btree_image.specs.Image.{shape_of, ShowsTree};
ghost use Rattle.btree_image.specs.Shown.{IsShown};
ghost use Rattle.primary_ix.specs.Rows.{prim_layout};
ghost use Rattle.primary_ix.specs.Reading.{prim_reading};
ghost use Rattle.build_job.specs.Jobs.{Job};
ghost use Rattle.build_job.specs.Steps.{IsJob, steps_left};
ghost use Rattle.build_job.specs.Written.{IsPageOf, AreWritten};

/// A law: where each page of a job was written to its page of the device, and other pages of the extent stayed, the
/// extent shows the tree of the job's list in the end, so that readers find its rows.
pub fn written_pages_show_the_list()
    ensures none { (job : Job) (contents : ℕ → List ℕ) → job.written ≡ 0 → AreWritten job contents }
    ensures next { (job : Job) (old new : ℕ → List ℕ) → AreWritten job old
        → ((page : ℕ) → page ≢ job.plan.extent.first + job.written → new page ≡ old page)
        → IsPageOf job.rows job.written (new (job.plan.extent.first + job.written))
        → AreWritten (record job { written = job.written + 1 }) new }
    ensures shows { (job : Job) (contents : ℕ → List ℕ) → IsJob job → steps_left job ≡ 0 → AreWritten job contents
        → ShowsTree prim_layout job.rows job.plan.extent.first contents }
    ensures is_shown { (job : Job) (contents : ℕ → List ℕ) → IsJob job → steps_left job ≡ 0 → AreWritten job contents
        → Ascends prim_reading job.rows → All (IsStored prim_layout) job.rows
        → IsShown prim_layout (Some contents) job.plan.extent.first (length job.rows) job.rows }
{}

/// A law: each page of a job's extent has a place in the tree of its list, and each place of the tree a page.
pub fn each_page_has_a_place()
    ensures places { (job : Job) → IsJob job → (n : ℕ) → n < job.plan.extent.pages
        → (level at : ℕ) × IsPlace (shape_of prim_layout (length job.rows)) level at × (level_start (shape_of prim_layout (length job.rows)) level + at ≡ n) }
    ensures pages { (job : Job) → IsJob job → (level at : ℕ) → IsPlace (shape_of prim_layout (length job.rows)) level at
        → level_start (shape_of prim_layout (length job.rows)) level + at < job.plan.extent.pages }
{}
