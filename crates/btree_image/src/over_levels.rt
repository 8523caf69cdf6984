//! A scan of ranges of keys, level by level, with one page in hand.

ghost use Rattle.std.specs.Prelude.{◌≡◌, ◌≢◌, ℕ, [], ◌++◌, List, length, replicate, AllPairs, OnOk, OnErr, MatchResult, ◌⊎◌};
ghost use Rattle.dev_model.specs.declared.page_faults.PageFault.TheVariants.{Failed, OutOfMemory};
ghost use Rattle.tree_shape.specs.Shape.{IsRoot};
ghost use Rattle.btree_image.specs.Image.{shape_of};
ghost use Rattle.btree_image.specs.Shown.{IsShown};
ghost use Rattle.btree_image.specs.Lent.{AreLent};
ghost use Rattle.btree_image.specs.Reading.{ReadsTree};
ghost use Rattle.dev_model.specs.Asked.{fault_of, GoesAlong, GoesBy};
ghost use Rattle.btree_image.specs.Visited.{visited_pages};
ghost use Rattle.btree_image.specs.Given.{AreRanges, rows_met};
ghost use Rattle.btree_image.specs.Walks.{GoesOn};

use crate::TreeRow;
use crate::gather::gather;
use crate::hand::{InHand, reach};
use crate::levels::root_level;
use crate::narrow::narrow;
use crate::runs::Run;
use dev_model::{PageFault, Pages};
use page_codec::PAGE_BYTES;
use tree_shape::TreeRef;

// Goes down from the root with a run for each range.
fn scan_levels<T: TreeRow, P: Pages>(
    pages: &mut P,
    tree: TreeRef,
    ranges: &[(T::Key, T::Key)],
    runs: &mut [Run],
    out: &mut Vec<T>,
) -> Result<(), PageFault>
    requires lent { AreLent T.layout (P.lending pages.old).lent tree.first tree.rows }
    requires runs { runs.old ≡ replicate (length ranges.now) (record { first = 0; end = 1 }) }
    ensures way { (way : List ℕ) × GoesOn T.layout tree.first tree.rows P.lending P.asked pages.old pages.new (fault_of result) [] way × AllPairs (λ a b. a ≢ b) way
        × ((list : List T) (root : ℕ) → IsShown T.layout (P.lending pages.old).contents tree.first tree.rows list → AreRanges T.layout.order ranges.now → IsRoot (shape_of T.layout tree.rows) root
        → GoesAlong (fault_of result) way (visited_pages T.layout list ranges.now tree.first root)) }
    ensures adds { (added : List T) × (out.new.items ≡ out.old.items ++ added)
        × ((list : List T) → IsShown T.layout (P.lending pages.old).contents tree.first tree.rows list → AreRanges T.layout.order ranges.now → OnOk result (added ≡ rows_met T.layout list ranges.now)) }
{
    let mut hand = InHand {
        next: 0,
        page: 0,
        count: 0,
        buf: [0; PAGE_BYTES],
    };
    let mut level = root_level::<T>(tree.rows);
    if ranges.is_empty() {
        return reach::<T, P>(pages, tree, level, 0, &mut hand);
    }
    while level > 0 {
        level -= 1;
        narrow::<T, P>(pages, tree, level, ranges, runs, &mut hand)?;
    }
    gather(pages, tree, ranges, runs, &mut hand, out)
}

/// Appends the rows whose keys lie in the ranges, in the order of the tree's list. Ranges are closed, and each is behind the
/// one before it.
///
/// `Failed` where a page is not given, `Damaged` where the page that was read last is none for its place, and `OutOfMemory`
/// where there is no memory for the rows or for a place for each range: `out` is then as before. A page's header is tested,
/// and of its rows what is given back. The pages are asked for level by level from the root, each once: the root, and each
/// page whose span of keys meets a range.
pub fn scan<T: TreeRow, P: Pages>(
    pages: &mut P,
    tree: TreeRef,
    ranges: &[(T::Key, T::Key)],
    out: &mut Vec<T>,
) -> Result<(), PageFault>
    requires { AreLent T.layout (P.lending pages.old).lent tree.first tree.rows }
    ensures keeps { (added : List T) × (out.new.items ≡ out.old.items ++ added) }
    ensures refused { OnErr result (out.new.items ≡ out.old.items) }
    ensures rows { (list : List T) → IsShown T.layout (P.lending pages.old).contents tree.first tree.rows list → AreRanges T.layout.order ranges.now
        → MatchResult result (λ _. out.new.items ≡ out.old.items ++ rows_met T.layout list ranges.now) (λ fault. (fault ≡ Failed) ⊎ (fault ≡ OutOfMemory)) }
    ensures reads { (seen : List ℕ) × ReadsTree T.layout tree.first tree.rows P.lending P.asked pages.old pages.new (fault_of result) [] seen × AllPairs (λ a b. a ≢ b) seen
        × ((list : List T) (root : ℕ) → IsShown T.layout (P.lending pages.old).contents tree.first tree.rows list → AreRanges T.layout.order ranges.now → IsRoot (shape_of T.layout tree.rows) root
        → GoesBy result seen (visited_pages T.layout list ranges.now tree.first root)) }
{
    let mut runs = Vec::new(*out.allocator());
    if runs.resize(ranges.len(), Run { first: 0, end: 1 }).is_err() {
        return Err(PageFault::OutOfMemory);
    }
    let before = out.len();
    if let Err(fault) = scan_levels(pages, tree, ranges, &mut runs, out) {
        out.truncate(before);
        return Err(fault);
    }
    Ok(())
}
