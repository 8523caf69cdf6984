//! A level above the leaves: its pages are read from left to right, and narrow down the runs of the ranges.

ghost use Rattle.std.specs.Prelude.{◌≡◌, ◌≢◌, ℕ, suc, [], ◌+◌, ◌-◌, ◌*◌, ◌^◌, ◌<◌, ◌≤◌, min, List, length, map, slice_index_or, All, OnOk, IfOk, if◌then◌else◌};
ghost use Rattle.std.specs.declared.cmp.Ordering.TheVariants.{Greater};
ghost use Rattle.page_codec.specs.Page.{IsPage, row_count, rows_on, most_rows};
ghost use Rattle.tree_shape.specs.Shape.{level_size, IsPlace};
ghost use Rattle.btree_image.specs.Image.{shape_of, level_kind};
ghost use Rattle.btree_image.specs.Pages.{page_number};
ghost use Rattle.btree_image.specs.Shown.{IsShown};
ghost use Rattle.btree_image.specs.Lent.{AreLent};
ghost use Rattle.btree_image.specs.Steps.{reaches, IsLastUpTo};
ghost use Rattle.btree_image.specs.Given.{AreRanges};
ghost use Rattle.dev_model.specs.Asked.{fault_of};
ghost use Rattle.btree_image.specs.Walks.{GoesOn, IsInHand, Holds, places_in, next_behind, walk, run_of, Leads, AllLead, AllRuns};

use crate::TreeRow;
use crate::hand::{InHand, reach};
use crate::in_page::{last_up_to, rows_up_to};
use crate::levels::{level_at, per_inner};
use crate::runs::Run;
use dev_model::{PageFault, Pages};
use tree_shape::TreeRef;

// Goes on over the pages of a run.
fn pass<T: TreeRow, P: Pages>(
    pages: &mut P,
    tree: TreeRef,
    level: u8,
    run: Run,
    hand: &mut InHand,
) -> Result<(), PageFault>
    requires up_to_root { (below : ℕ) → below < level → 1 < level_size (shape_of T.layout tree.rows) below }
    requires inside { run.end ≤ level_size (shape_of T.layout tree.rows) level }
    requires lent { AreLent T.layout (P.lending pages.old).lent tree.first tree.rows }
    requires holds { Holds T.layout tree.first tree.rows (P.lending pages.old).contents level hand.old }
    ensures goes { GoesOn T.layout tree.first tree.rows P.lending P.asked pages.old pages.new (fault_of result) [] (map (page_number T.layout tree.first tree.rows level) (places_in hand.old.next run.first run.end)) }
    ensures next { OnOk result (hand.new.next ≡ next_behind hand.old.next run.first run.end) }
    ensures holds { OnOk result (Holds T.layout tree.first tree.rows (P.lending pages.old).contents level hand.new) }
{
    for at in run.first..run.end {
        reach::<T, P>(pages, tree, level, at, hand)?;
    }
    Ok(())
}

// The first child to which a key leads in the page in hand.
fn first_below<T: TreeRow>(hand: &InHand, key: &T::Key) -> u64
    requires some { 0 < hand.now.next }
    requires few { hand.now.next ≤ 2 ^ 32 }
    requires page { (level : ℕ) × IsPage T.layout.inner level hand.now.buf }
    requires count { hand.now.count ≡ row_count hand.now.buf }
    requires rows { 0 < hand.now.count }
    ensures { (place : ℕ) → IsLastUpTo T.layout key.now (rows_on hand.now.buf) place → result ≡ (hand.now.next - 1) * most_rows T.layout.inner + place }
{
    let many = per_inner::<T>();
    (hand.next - 1) * many + u64::from(last_up_to::<T>(&hand.buf, hand.count, key))
}

// The end of the children of the page in hand whose keys are at most a key.
fn end_below<T: TreeRow>(hand: &InHand, size: u64, key: &T::Key) -> u64
    requires some { 0 < hand.now.next }
    requires few { hand.now.next ≤ 2 ^ 32 }
    requires page { (level : ℕ) × IsPage T.layout.inner level hand.now.buf }
    requires count { hand.now.count ≡ row_count hand.now.buf }
    ensures most { result ≤ size }
    ensures end { (place : ℕ) → IsLastUpTo T.layout key.now (rows_on hand.now.buf) place
        → result ≡ min ((hand.now.next - 1) * most_rows T.layout.inner
        + (if reaches T.layout key.now (slice_index_or (rows_on hand.now.buf) place []) then place + 1 else place)) size }
{
    let many = per_inner::<T>();
    let end = (hand.next - 1) * many + u64::from(rows_up_to::<T>(&hand.buf, hand.count, key));
    end.min(size)
}

// Goes on over the pages of a range, and gives its run in the level below.
fn narrow_run<T: TreeRow, P: Pages>(
    pages: &mut P,
    tree: TreeRef,
    below: u8,
    range: &(T::Key, T::Key),
    run: Run,
    hand: &mut InHand,
) -> Result<Run, PageFault>
    requires level { below < 255 }
    requires up_to_root { (j : ℕ) → j < suc below → 1 < level_size (shape_of T.layout tree.rows) j }
    requires inside { run.end ≤ level_size (shape_of T.layout tree.rows) (suc below) }
    requires lent { AreLent T.layout (P.lending pages.old).lent tree.first tree.rows }
    requires holds { Holds T.layout tree.first tree.rows (P.lending pages.old).contents (suc below) hand.old }
    ensures goes { GoesOn T.layout tree.first tree.rows P.lending P.asked pages.old pages.new (fault_of result) [] (map (page_number T.layout tree.first tree.rows (suc below)) (places_in hand.old.next run.first run.end)) }
    ensures next { OnOk result (hand.new.next ≡ next_behind hand.old.next run.first run.end) }
    ensures holds { OnOk result (Holds T.layout tree.first tree.rows (P.lending pages.old).contents (suc below) hand.new) }
    ensures inside { IfOk result (λ new. new.end ≤ level_size (shape_of T.layout tree.rows) below) }
    ensures told { (list : List T) → IsShown T.layout (P.lending pages.old).contents tree.first tree.rows list → Leads T.layout list (suc below) range.now run
        → T.layout.order range.now.0 range.now.1 ≢ Greater → hand.old.next ≤ suc run.first → IfOk result (λ new. new ≡ run_of T.layout list below range.now) }
{
    if run.first >= run.end {
        return Ok(Run { first: 0, end: 0 });
    }
    reach::<T, P>(pages, tree, below + 1, run.first, hand)?;
    let first = first_below::<T>(hand, &range.0);
    pass::<T, P>(pages, tree, below + 1, run, hand)?;
    let size = level_at::<T>(tree.rows, below).size;
    Ok(Run {
        first,
        end: end_below::<T>(hand, size, &range.1),
    })
}

/// Reads the pages of a level above the leaves that the ranges meet, and narrows each range's run down to the level below.
pub(crate) fn narrow<T: TreeRow, P: Pages>(
    pages: &mut P,
    tree: TreeRef,
    below: u8,
    ranges: &[(T::Key, T::Key)],
    runs: &mut [Run],
    hand: &mut InHand,
) -> Result<(), PageFault>
    requires level { below < 255 }
    requires up_to_root { (j : ℕ) → j < suc below → 1 < level_size (shape_of T.layout tree.rows) j }
    requires same_count { length runs.old ≡ length ranges.now }
    requires inside { All (λ run. run.end ≤ level_size (shape_of T.layout tree.rows) (suc below)) runs.old }
    requires lent { AreLent T.layout (P.lending pages.old).lent tree.first tree.rows }
    ensures goes { GoesOn T.layout tree.first tree.rows P.lending P.asked pages.old pages.new (fault_of result) [] (map (page_number T.layout tree.first tree.rows (suc below)) (walk 0 runs.old)) }
    ensures count { length runs.new ≡ length runs.old }
    ensures inside { OnOk result (All (λ run. run.end ≤ level_size (shape_of T.layout tree.rows) below) runs.new) }
    ensures told { (list : List T) → IsShown T.layout (P.lending pages.old).contents tree.first tree.rows list → AreRanges T.layout.order ranges.now
        → AllLead T.layout list (suc below) ranges.now runs.old → OnOk result (AllRuns T.layout list below ranges.now runs.new) }
{
    hand.next = 0;
    for i in 0..runs.len() {
        runs[i] = narrow_run::<T, P>(pages, tree, below, &ranges[i], runs[i], hand)?;
    }
    Ok(())
}
