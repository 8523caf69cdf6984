//! The page of a level that was read last. A walk over a level goes to the right, and reads no page twice.

ghost use Rattle.std.specs.Prelude.{◌≡◌, ℕ, suc, zero, [], ◌∷◌, ◌+◌, ◌-◌, ◌<◌, ◌≤◌, max, List, map, OnOk, OnErr, IfOk};
ghost use Rattle.page_codec.specs.Page.{IsPage, row_count};
ghost use Rattle.tree_shape.specs.Shape.{level_size, IsPlace};
ghost use Rattle.btree_image.specs.Image.{shape_of, level_kind};
ghost use Rattle.btree_image.specs.Pages.{page_number};
ghost use Rattle.btree_image.specs.Lent.{AreLent};
ghost use Rattle.dev_model.specs.Asked.{fault_of};
ghost use Rattle.btree_image.specs.Walks.{GoesOn, IsInHand, Holds, places_in};

use crate::TreeRow;
use crate::descend::read_place;
use dev_model::{PageFault, Pages};
use page_codec::{BadPage, PAGE_BYTES, open_page};
use tree_shape::TreeRef;

/// A page of a level, the place behind it, its number and how many rows it has. `next` is 0 while no page was read.
#[derive(Drop)]
pub(crate) struct InHand {
    pub(crate) next: u64,
    pub(crate) page: u32,
    pub(crate) count: u16,
    pub(crate) buf: [u8; PAGE_BYTES],
}

// How many rows a page has, if its header is one of that level. Above the leaves a page has a row at least.
fn count_at<T: TreeRow>(page: &[u8; PAGE_BYTES], level: u8) -> Result<u16, BadPage>
    ensures page { OnOk result (IsPage (level_kind T.layout level) level page.now) }
    ensures count { IfOk result (λ count. count ≡ row_count page.now) }
    ensures some { IfOk result (λ count. 0 < level → 0 < count) }
    ensures bad { OnErr result (IsPage (level_kind T.layout level) level page.now → (0 < level) × (row_count page.now ≡ 0)) }
{
    if level == 0 {
        return open_page(page, T::LEAF, 0);
    }
    match open_page(page, T::INNER, level) {
        Ok(count) if count > 0 => Ok(count),
        _ => Err(BadPage),
    }
}

// Takes the page at a place of a level in hand.
fn take<T: TreeRow, P: Pages>(
    pages: &mut P,
    tree: TreeRef,
    level: u8,
    at: u64,
    hand: &mut InHand,
) -> Result<(), PageFault>
    requires place { IsPlace (shape_of T.layout tree.rows) level at }
    requires lent { AreLent T.layout (P.lending pages.old).lent tree.first tree.rows }
    ensures goes { GoesOn T.layout tree.first tree.rows P.lending P.asked pages.old pages.new (fault_of result) [] (page_number T.layout tree.first tree.rows level at ∷ []) }
    ensures next { OnOk result (hand.new.next ≡ at + 1) }
    ensures in_hand { OnOk result (IsInHand T.layout tree.first tree.rows (P.lending pages.old).contents level at hand.new) }
{
    let page = read_place::<T, P>(pages, tree, level, at, &mut hand.buf)?;
    match count_at::<T>(&hand.buf, level) {
        Ok(count) => {
            hand.next = at + 1;
            hand.page = page;
            hand.count = count;
            Ok(())
        }
        Err(_) => Err(PageFault::Damaged { page }),
    }
}

// Goes on to a place of a level, unless it was passed.
pub(crate) fn reach<T: TreeRow, P: Pages>(
    pages: &mut P,
    tree: TreeRef,
    level: u8,
    at: u64,
    hand: &mut InHand,
) -> Result<(), PageFault>
    requires place { IsPlace (shape_of T.layout tree.rows) level at }
    requires lent { AreLent T.layout (P.lending pages.old).lent tree.first tree.rows }
    requires holds { Holds T.layout tree.first tree.rows (P.lending pages.old).contents level hand.old }
    ensures goes { GoesOn T.layout tree.first tree.rows P.lending P.asked pages.old pages.new (fault_of result) [] (map (page_number T.layout tree.first tree.rows level) (places_in hand.old.next at (suc at))) }
    ensures next { OnOk result (hand.new.next ≡ max hand.old.next (suc at)) }
    ensures in_hand { OnOk result (IsInHand T.layout tree.first tree.rows (P.lending pages.old).contents level (hand.new.next - 1) hand.new) }
{
    if hand.next <= at {
        return take::<T, P>(pages, tree, level, at, hand);
    }
    Ok(())
}
