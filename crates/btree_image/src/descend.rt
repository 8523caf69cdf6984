//! A descent for one key, with one page in hand.

ghost use Rattle.std.specs.Prelude.{◌≡◌, ◌≢◌, ℕ, suc, [], ◌∷◌, ◌+◌, ◌-◌, ◌*◌, ◌^◌, ◌<◌, ◌≤◌, Some, List, is_ok, OnOk, IfOk, IfErr, IfSome, IfNone, MatchResult};
ghost use Rattle.dev_model.specs.Lending.{StaysLent};
ghost use Rattle.dev_model.specs.Story.{WhereTold};
ghost use Rattle.page_codec.specs.Page.{IsPage, ShowsRows, row_count};
ghost use Rattle.dev_model.specs.declared.page_faults.PageFault.TheVariants.{Failed, OutOfMemory};
ghost use Rattle.tree_shape.specs.Shape.{level_size, level_start, IsRoot, IsPlace};
ghost use Rattle.btree_image.specs.Given.{row_with_key};
ghost use Rattle.btree_image.specs.Image.{shape_of, level_rows, IsList};
ghost use Rattle.btree_image.specs.Pages.{page_number};
ghost use Rattle.btree_image.specs.Shown.{IsShown};
ghost use Rattle.btree_image.specs.Lent.{AreLent};
ghost use Rattle.btree_image.specs.Descent.{place_of_key, descent};
ghost use Rattle.btree_image.specs.Damage.{IsInnerPage};
ghost use Rattle.btree_image.specs.Reading.{ReadsTree};
ghost use Rattle.dev_model.specs.Asked.{fault_of, GoesBy};

use crate::TreeRow;
use crate::in_page::{child_for, row_for};
use crate::levels::{level_at, root_level};
use dev_model::{PageFault, Pages};
use page_codec::PAGE_BYTES;
use tree_shape::TreeRef;

// Reads the page at a place of a level, and gives its number.
pub(crate) fn read_place<T: TreeRow, P: Pages>(
    pages: &mut P,
    tree: TreeRef,
    level: u8,
    at: u64,
    buf: &mut [u8; PAGE_BYTES],
) -> Result<u32, dev_model::Failed>
    requires place { IsPlace (shape_of T.layout tree.rows) level at }
    requires lent { AreLent T.layout (P.lending pages.old).lent tree.first tree.rows }
    ensures stays { StaysLent (P.lending pages.old) (P.lending pages.new) result }
    ensures asked { P.asked pages.old pages.new ((page_number T.layout tree.first tree.rows level at, is_ok result) ∷ []) }
    ensures number { IfOk result (λ page. page ≡ page_number T.layout tree.first tree.rows level at) }
    ensures bytes { OnOk result (WhereTold (P.lending pages.old).contents (λ contents. buf.new ≡ contents (page_number T.layout tree.first tree.rows level at))) }
{
    let here = level_at::<T>(tree.rows, level);
    let page = (u64::from(tree.first) + (here.start + at)) as u32;
    pages.read_page(page, buf)?;
    Ok(page)
}

// The place of a child in its level, if it is a page of that level.
pub(crate) fn place_below<T: TreeRow>(rows: u32, level: u8, child: u32) -> Option<u64>
    ensures place { IfSome result (λ at. level_start (shape_of T.layout rows) level + at ≡ child) }
    ensures inside { IfSome result (λ at. at < level_size (shape_of T.layout rows) level) }
    ensures outside { IfNone result ((at : ℕ) → at < level_size (shape_of T.layout rows) level → level_start (shape_of T.layout rows) level + at ≢ child) }
{
    let below = level_at::<T>(rows, level);
    let child = u64::from(child);
    if child < below.start || child - below.start >= below.size {
        return None;
    }
    Some(child - below.start)
}

// Where a descent goes on from an inner page, in the level below it.
fn place_from<T: TreeRow>(
    page: &[u8; PAGE_BYTES],
    rows: u32,
    below: u8,
    key: &T::Key,
) -> Option<u64>
    requires level { below < 255 }
    ensures inside { IfSome result (λ at. at < level_size (shape_of T.layout rows) below) }
    ensures page { IfSome result (λ _. IsPage T.layout.inner (suc below) page.now) }
    ensures some { IfSome result (λ _. 0 < row_count page.now) }
    ensures damaged { IfNone result (IsInnerPage T.layout rows below page.now → ⊥) }
    ensures told { (list : List T) (at : ℕ) → IsList T.layout rows list → 0 < rows → at ≡ place_of_key T.layout list key.now (suc below)
        → level_start (shape_of T.layout rows) below + place_of_key T.layout list key.now below < 2 ^ 32
        → ShowsRows T.layout.inner (suc below) (level_rows T.layout list (suc below) at) page.now
        → IfSome result (λ place. place ≡ place_of_key T.layout list key.now below) }
{
    match child_for::<T>(page, below + 1, key) {
        Ok(child) => place_below::<T>(rows, below, child),
        Err(_) => None,
    }
}

// One step of a descent: reads the page at a place of a level above the leaves.
fn step<T: TreeRow, P: Pages>(
    pages: &mut P,
    tree: TreeRef,
    below: u8,
    at: u64,
    key: &T::Key,
    buf: &mut [u8; PAGE_BYTES],
) -> Result<u64, PageFault>
    requires level { below < 255 }
    requires place { IsPlace (shape_of T.layout tree.rows) (suc below) at }
    requires lent { AreLent T.layout (P.lending pages.old).lent tree.first tree.rows }
    ensures needs_no_memory { IfErr result (λ fault. fault ≢ OutOfMemory) }
    ensures reads { ReadsTree T.layout tree.first tree.rows P.lending P.asked pages.old pages.new (fault_of result) [] (page_number T.layout tree.first tree.rows (suc below) at ∷ []) }
    ensures inside { IfOk result (λ place. place < level_size (shape_of T.layout tree.rows) below) }
    ensures told { (list : List T) → IsShown T.layout (P.lending pages.old).contents tree.first tree.rows list → 0 < tree.rows → at ≡ place_of_key T.layout list key.now (suc below)
        → IfOk result (λ place. place ≡ place_of_key T.layout list key.now below) }
{
    let page = read_place::<T, P>(pages, tree, below + 1, at, buf)?;
    match place_from::<T>(buf, tree.rows, below, key) {
        Some(place) => Ok(place),
        None => Err(PageFault::Damaged { page }),
    }
}

// The end of a descent: reads a leaf.
fn leaf_row<T: TreeRow, P: Pages>(
    pages: &mut P,
    tree: TreeRef,
    at: u64,
    key: &T::Key,
    buf: &mut [u8; PAGE_BYTES],
) -> Result<Option<T>, PageFault>
    requires place { IsPlace (shape_of T.layout tree.rows) 0 at }
    requires lent { AreLent T.layout (P.lending pages.old).lent tree.first tree.rows }
    ensures needs_no_memory { IfErr result (λ fault. fault ≢ OutOfMemory) }
    ensures reads { ReadsTree T.layout tree.first tree.rows P.lending P.asked pages.old pages.new (fault_of result) [] (page_number T.layout tree.first tree.rows 0 at ∷ []) }
    ensures told { (list : List T) → IsShown T.layout (P.lending pages.old).contents tree.first tree.rows list → at ≡ place_of_key T.layout list key.now 0
        → IfOk result (λ found. found ≡ row_with_key T.layout list key.now) }
{
    let page = read_place::<T, P>(pages, tree, 0, at, buf)?;
    match row_for::<T>(buf, key) {
        Ok(found) => Ok(found),
        Err(_) => Err(PageFault::Damaged { page }),
    }
}

/// The row of a tree that has this key, if there is one: a descent from the root to one leaf.
///
/// `Failed` where a page is not given, and `Damaged` where the page that was read last is none for its place. A page's
/// header is tested, and of its rows what the descent uses: where the answer is no refusal each page that was read has the
/// header of its place, and above the leaves a row. Each page on the way is asked for once, from the root down.
pub fn find<T: TreeRow, P: Pages>(
    pages: &mut P,
    tree: TreeRef,
    key: &T::Key,
) -> Result<Option<T>, PageFault>
    requires { AreLent T.layout (P.lending pages.old).lent tree.first tree.rows }
    ensures needs_no_memory { IfErr result (λ fault. fault ≢ OutOfMemory) }
    ensures found { (list : List T) → IsShown T.layout (P.lending pages.old).contents tree.first tree.rows list
        → MatchResult result (λ found. found ≡ row_with_key T.layout list key.now) (λ fault. fault ≡ Failed) }
    ensures reads { (seen : List ℕ) × ReadsTree T.layout tree.first tree.rows P.lending P.asked pages.old pages.new (fault_of result) [] seen
        × ((list : List T) (root : ℕ) → IsShown T.layout (P.lending pages.old).contents tree.first tree.rows list → IsRoot (shape_of T.layout tree.rows) root
        → GoesBy result seen (descent T.layout tree.first list key.now root)) }
{
    let mut buf = [0; PAGE_BYTES];
    let mut level = root_level::<T>(tree.rows);
    let mut at = 0;
    while level > 0 {
        level -= 1;
        at = step::<T, P>(pages, tree, level, at, key, &mut buf)?;
    }
    leaf_row::<T, P>(pages, tree, at, key, &mut buf)
}
