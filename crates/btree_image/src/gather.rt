//! The leaves: their pages are read from left to right, and the rows of each range are copied out.

ghost use Rattle.std.specs.Prelude.{◌≡◌, ◌≢◌, ℕ, suc, zero, [], ◌++◌, ◌+◌, ◌-◌, ◌*◌, ◌<◌, ◌≤◌, min, max, List, length, map, take, drop, slice_index_or, Some, All, OnOk, IfErr, ◌⊎◌, if◌then◌else◌};
ghost use Rattle.page_codec.specs.Page.{IsPage, row_count, rows_on, most_rows};
ghost use Rattle.dev_model.specs.declared.page_faults.PageFault.TheVariants.{Damaged, OutOfMemory};
ghost use Rattle.tree_shape.specs.Shape.{level_size, IsPlace};
ghost use Rattle.btree_image.specs.Image.{shape_of, level_kind};
ghost use Rattle.btree_image.specs.Pages.{page_number};
ghost use Rattle.btree_image.specs.Shown.{IsShown};
ghost use Rattle.btree_image.specs.Lent.{AreLent};
ghost use Rattle.btree_image.specs.Descent.{rank};
ghost use Rattle.btree_image.specs.Damage.{AllReadable};
ghost use Rattle.btree_image.specs.Steps.{reaches, precedes, IsLastUpTo};
ghost use Rattle.btree_image.specs.Given.{AreRanges, rows_met};
ghost use Rattle.dev_model.specs.Asked.{fault_of};
ghost use Rattle.btree_image.specs.Walks.{GoesOn, IsInHand, Holds, in_hand, places_in, next_behind, walk, rank_below, Leads, AllLead, part, rows_of};

use crate::TreeRow;
use crate::hand::{InHand, reach};
use crate::in_page::{rows_before, rows_up_to};
use crate::runs::Run;
use dev_model::{PageFault, Pages};
use page_codec::row;
use tree_shape::TreeRef;

// Copies rows of the leaf in hand out, from one place up to another.
fn push_rows<T: TreeRow>(
    hand: &InHand,
    from: u16,
    to: u16,
    out: &mut Vec<T>,
) -> Result<(), PageFault>
    requires page { IsPage T.layout.leaf 0 hand.now.buf }
    requires inside { to ≤ row_count hand.now.buf }
    ensures fault { IfErr result (λ fault. (fault ≡ OutOfMemory) ⊎ ((fault ≡ Damaged hand.now.page) × (AllReadable T.layout (rows_on hand.now.buf) → ⊥))) }
    ensures adds { (added : List T) × (out.new.items ≡ out.old.items ++ added)
        × OnOk result (map Some added ≡ map T.layout.of_bytes (take (to - from) (drop from (rows_on hand.now.buf)))) }
{
    for i in from..to {
        match T::read(row(&hand.buf, i)) {
            Some(found) => out.push(found)?,
            None => return Err(PageFault::Damaged { page: hand.page }),
        }
    }
    Ok(())
}

// The first row of the leaf in hand that is in a range. The range begins in the first leaf of its run.
fn first_row<T: TreeRow>(hand: &InHand, run: Run, at: u64, key: &T::Key) -> u16
    requires page { IsPage T.layout.leaf 0 hand.now.buf }
    requires count { hand.now.count ≡ row_count hand.now.buf }
    ensures most { result ≤ hand.now.count }
    ensures first { at ≡ run.first → (place : ℕ) → IsLastUpTo T.layout key.now (rows_on hand.now.buf) place
        → result ≡ (if precedes T.layout key.now (slice_index_or (rows_on hand.now.buf) place []) then place + 1 else place) }
    ensures later { at ≢ run.first → result ≡ 0 }
{
    if at == run.first {
        rows_before::<T>(&hand.buf, hand.count, key)
    } else {
        0
    }
}

// The end of the rows of the leaf in hand that are in a range. The range ends in the last leaf of its run.
fn end_row<T: TreeRow>(hand: &InHand, run: Run, at: u64, key: &T::Key) -> u16
    requires page { IsPage T.layout.leaf 0 hand.now.buf }
    requires count { hand.now.count ≡ row_count hand.now.buf }
    requires in_run { at < run.end }
    ensures most { result ≤ hand.now.count }
    ensures last { run.end - at ≡ 1 → (place : ℕ) → IsLastUpTo T.layout key.now (rows_on hand.now.buf) place
        → result ≡ (if reaches T.layout key.now (slice_index_or (rows_on hand.now.buf) place []) then place + 1 else place) }
    ensures earlier { run.end - at ≢ 1 → result ≡ hand.now.count }
{
    if run.end - at == 1 {
        rows_up_to::<T>(&hand.buf, hand.count, key)
    } else {
        hand.count
    }
}

// Goes on to a leaf of a range, and copies the rows of the range out that stand there.
fn gather_page<T: TreeRow, P: Pages>(
    pages: &mut P,
    tree: TreeRef,
    range: &(T::Key, T::Key),
    run: Run,
    at: u64,
    hand: &mut InHand,
    out: &mut Vec<T>,
) -> Result<(), PageFault>
    requires place { at < level_size (shape_of T.layout tree.rows) 0 }
    requires in_run { at < run.end }
    requires lent { AreLent T.layout (P.lending pages.old).lent tree.first tree.rows }
    requires holds { Holds T.layout tree.first tree.rows (P.lending pages.old).contents 0 hand.old }
    ensures goes { GoesOn T.layout tree.first tree.rows P.lending P.asked pages.old pages.new (fault_of result)
        (in_hand T.layout tree.first tree.rows 0 hand.old.next) (map (page_number T.layout tree.first tree.rows 0) (places_in hand.old.next at (suc at))) }
    ensures next { OnOk result (hand.new.next ≡ max hand.old.next (suc at)) }
    ensures holds { OnOk result (Holds T.layout tree.first tree.rows (P.lending pages.old).contents 0 hand.new) }
    ensures adds { (added : List T) × (out.new.items ≡ out.old.items ++ added)
        × ((list : List T) → IsShown T.layout (P.lending pages.old).contents tree.first tree.rows list → Leads T.layout list 0 range.now run
        → hand.old.next ≤ suc at → run.first ≤ at → at < run.end
        → OnOk result (added ≡ part list (max (rank_below T.layout list range.now.0) (at * most_rows T.layout.leaf)) (min (rank T.layout list range.now.1) (suc at * most_rows T.layout.leaf)))) }
{
    reach::<T, P>(pages, tree, 0, at, hand)?;
    let from = first_row::<T>(hand, run, at, &range.0);
    let to = end_row::<T>(hand, run, at, &range.1);
    push_rows(hand, from, to, out)
}

// Goes on over the leaves of a range, and copies its rows out.
fn gather_run<T: TreeRow, P: Pages>(
    pages: &mut P,
    tree: TreeRef,
    range: &(T::Key, T::Key),
    run: Run,
    hand: &mut InHand,
    out: &mut Vec<T>,
) -> Result<(), PageFault>
    requires inside { run.end ≤ level_size (shape_of T.layout tree.rows) 0 }
    requires lent { AreLent T.layout (P.lending pages.old).lent tree.first tree.rows }
    requires holds { Holds T.layout tree.first tree.rows (P.lending pages.old).contents 0 hand.old }
    ensures goes { GoesOn T.layout tree.first tree.rows P.lending P.asked pages.old pages.new (fault_of result)
        (in_hand T.layout tree.first tree.rows 0 hand.old.next) (map (page_number T.layout tree.first tree.rows 0) (places_in hand.old.next run.first run.end)) }
    ensures next { OnOk result (hand.new.next ≡ next_behind hand.old.next run.first run.end) }
    ensures holds { OnOk result (Holds T.layout tree.first tree.rows (P.lending pages.old).contents 0 hand.new) }
    ensures adds { (added : List T) × (out.new.items ≡ out.old.items ++ added)
        × ((list : List T) → IsShown T.layout (P.lending pages.old).contents tree.first tree.rows list → Leads T.layout list 0 range.now run
        → hand.old.next ≤ suc run.first → OnOk result (added ≡ rows_of T.layout list range.now)) }
{
    for at in run.first..run.end {
        gather_page::<T, P>(pages, tree, range, run, at, hand, out)?;
    }
    Ok(())
}

/// Reads the leaves that the ranges meet, and copies the rows of each range out.
pub(crate) fn gather<T: TreeRow, P: Pages>(
    pages: &mut P,
    tree: TreeRef,
    ranges: &[(T::Key, T::Key)],
    runs: &[Run],
    hand: &mut InHand,
    out: &mut Vec<T>,
) -> Result<(), PageFault>
    requires same_count { length runs.now ≡ length ranges.now }
    requires inside { All (λ run. run.end ≤ level_size (shape_of T.layout tree.rows) 0) runs.now }
    requires lent { AreLent T.layout (P.lending pages.old).lent tree.first tree.rows }
    ensures goes { GoesOn T.layout tree.first tree.rows P.lending P.asked pages.old pages.new (fault_of result) [] (map (page_number T.layout tree.first tree.rows 0) (walk 0 runs.now)) }
    ensures adds { (added : List T) × (out.new.items ≡ out.old.items ++ added)
        × ((list : List T) → IsShown T.layout (P.lending pages.old).contents tree.first tree.rows list → AreRanges T.layout.order ranges.now
        → AllLead T.layout list 0 ranges.now runs.now → OnOk result (added ≡ rows_met T.layout list ranges.now)) }
{
    hand.next = 0;
    for i in 0..runs.len() {
        gather_run::<T, P>(pages, tree, &ranges[i], runs[i], hand, out)?;
    }
    Ok(())
}
