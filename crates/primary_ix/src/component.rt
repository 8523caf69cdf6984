//! The components of the primary on disk, and how the list of one is made and laid out.

ghost use Rattle.std.specs.Prelude.{◌≡◌, ℕ, ◌+◌, ◌^◌, ◌<◌, ◌≤◌, map, length, All, IfOk};
ghost use Rattle.order_merge.specs.Ascending.{Ascends};
ghost use Rattle.order_merge.specs.Merged.{IsMergeOf};
ghost use Rattle.page_codec.specs.Page.{ShowsRows};
ghost use Rattle.tree_shape.specs.Shape.{level_start, IsRoot, IsPlace};
ghost use Rattle.btree_image.specs.Image.{shape_of, level_rows, level_kind};
ghost use Rattle.btree_image.specs.Pages.{level_page};
ghost use Rattle.primary_ix.specs.Rows.{prim_layout};
ghost use Rattle.primary_ix.specs.Reading.{prim_reading};

use crate::rows::PrimRow;
use btree_image::{load_page, pages_for};
use mem_comp::MemView;
use order_merge::merge_newest;
use page_codec::PAGE_BYTES;
use std::alloc::{AllocError, Global};
use tree_shape::TreeRef;

/// A component of the primary on disk.
#[derive(Clone, Copy, Debug)]
pub struct PrimComp {
    /// The tree of its rows.
    pub tree: TreeRef,
}

/// The lists of the primary as they were at one moment, the newest first: the active one, the frozen one where there is
/// one, and the components on disk.
#[derive(Drop)]
pub struct PrimView {
    /// The components on disk, the newest first.
    pub comps: Vec<PrimComp>,
    /// The list that is waiting for its component.
    pub frozen: Option<MemView<PrimRow>>,
    /// The list that writes go to.
    pub active: MemView<PrimRow>,
}

/// The list of one component in place of several that stand side by side, the newest first: the newest row of each key,
/// ascending by key. With `oldest`, where the oldest component is among them, anti rows are left out: no older row is
/// there that they hide.
pub fn merged(
    alloc: Global,
    lists: &[Vec<PrimRow>],
    oldest: bool,
) -> Result<Vec<PrimRow>, AllocError>
    requires { All (λ list. Ascends prim_reading list.items) lists.now }
    ensures { IfOk result (λ merged. IsMergeOf prim_reading (map (λ list. list.items) lists.now) oldest merged.items) }
{
    merge_newest(alloc, lists, oldest)
}

/// How many pages a component with so many rows takes. Each page of its tree has a number below it.
pub fn need(main_rows: u32) -> u32
    ensures root { (root : ℕ) × IsRoot (shape_of prim_layout main_rows) root × (result ≡ level_start (shape_of prim_layout main_rows) root + 1) }
    ensures last { (root : ℕ) → IsRoot (shape_of prim_layout main_rows) root → result ≡ level_start (shape_of prim_layout main_rows) root + 1 }
    ensures all { (level at : ℕ) → IsPlace (shape_of prim_layout main_rows) level at → level_start (shape_of prim_layout main_rows) level + at < result }
{
    pages_for::<PrimRow>(main_rows)
}

/// Writes page `n` of a component with this list.
pub fn image_page(list: &[PrimRow], n: u32, page: &mut [u8; PAGE_BYTES])
    requires count { length list.now < 2 ^ 32 }
    requires inside { (root : ℕ) → IsRoot (shape_of prim_layout (length list.now)) root → n ≤ level_start (shape_of prim_layout (length list.now)) root }
    ensures page { (level at : ℕ) → IsPlace (shape_of prim_layout (length list.now)) level at → level_start (shape_of prim_layout (length list.now)) level + at ≡ n
        → page.new ≡ level_page prim_layout list.now level at }
    ensures shows { (level at : ℕ) → IsPlace (shape_of prim_layout (length list.now)) level at → level_start (shape_of prim_layout (length list.now)) level + at ≡ n
        → ShowsRows (level_kind prim_layout level) level (level_rows prim_layout list.now level at) page.new }
{
    load_page(list, n, page);
}
