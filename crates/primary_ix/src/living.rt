//! All records, in the order of their keys.

ghost use Rattle.std.specs.Prelude.{◌≡◌, ℕ, ◌⊎◌, ◌++◌, [], List, All, map, IfOk, MatchResult, true};
ghost use Rattle.dev_model.specs.declared.page_faults.PageFault.TheVariants.{Failed, OutOfMemory};
ghost use Rattle.tree_shape.specs.Shape.{IsRoot};
ghost use Rattle.dev_model.specs.Asked.{fault_of, GoesBy};
ghost use Rattle.btree_image.specs.Reading.{ReadsTree};
ghost use Rattle.btree_image.specs.Image.{shape_of};
ghost use Rattle.btree_image.specs.Shown.{IsShown};
ghost use Rattle.btree_image.specs.Lent.{AreLent};
ghost use Rattle.btree_image.specs.Visited.{visited_pages};
ghost use Rattle.order_merge.specs.Fitting.{Fits};
ghost use Rattle.order_merge.specs.Ascending.{Ascends};
ghost use Rattle.order_merge.specs.Merged.{IsMergeOf};
ghost use Rattle.order_merge.specs.Views.{lists_of};
ghost use Rattle.table_model.specs.Table.{Table};
ghost use Rattle.primary_ix.specs.Rows.{prim_layout};
ghost use Rattle.primary_ix.specs.Reading.{prim_reading};
ghost use Rattle.primary_ix.specs.Components.{AreShown};
ghost use Rattle.primary_ix.specs.Pages.{AreAllLent};
ghost use Rattle.primary_ix.specs.OnPages.{ReadsAlong};
ghost use Rattle.primary_ix.specs.AllPages.{all_pages};
ghost use Rattle.primary_ix.specs.Scans.{all_keys};
ghost use Rattle.primary_ix.specs.Wanted.{wanted_rows};
ghost use Rattle.primary_ix.specs.Records.{table_rows};

use crate::component::{PrimComp, merged};
use crate::rows::PrimRow;
use btree_image::scan;
use dev_model::{PageFault, Pages};
use geo_base::MOST_KEY;
use mem_comp::MemView;
use std::alloc::{AllocError, Global};

// All rows of a component. A row that doesn't stand above the last one kept is left out; on sound pages there is none.
fn scan_whole<P: Pages>(
    alloc: Global,
    pages: &mut P,
    comp: &PrimComp,
) -> Result<Vec<PrimRow>, PageFault>
    requires { AreLent prim_layout (P.lending pages.old).lent comp.now.tree.first comp.now.tree.rows }
    ensures ascends { IfOk result (λ rows. Ascends prim_reading rows.items) }
    ensures rows { (list : List PrimRow) → IsShown prim_layout (P.lending pages.old).contents comp.now.tree.first comp.now.tree.rows list
        → MatchResult result (λ rows. rows.items ≡ list) (λ fault. (fault ≡ Failed) ⊎ (fault ≡ OutOfMemory)) }
    ensures reads { (seen : List ℕ) × ReadsTree prim_layout comp.now.tree.first comp.now.tree.rows P.lending P.asked pages.old pages.new (fault_of result) [] seen
        × ((list : List PrimRow) (root : ℕ) → IsShown prim_layout (P.lending pages.old).contents comp.now.tree.first comp.now.tree.rows list → IsRoot (shape_of prim_layout comp.now.tree.rows) root
        → GoesBy result seen (visited_pages prim_layout list all_keys comp.now.tree.first root)) }
{
    let mut rows = Vec::new(alloc);
    scan::<PrimRow, P>(pages, comp.tree, &[(0, MOST_KEY)], &mut rows)?;
    rows.dedup_by(|next, last| next.key <= last.key);
    Ok(rows)
}

// Adds the lists of the components behind those that are there.
fn scan_all<P: Pages>(
    alloc: Global,
    pages: &mut P,
    comps: &[PrimComp],
    lists: &mut Vec<Vec<PrimRow>>,
) -> Result<(), PageFault>
    requires lent { AreAllLent (P.lending pages.old).lent comps.now }
    requires ascend { All (λ list. Ascends prim_reading list.items) lists.old.items }
    ensures ascend { All (λ list. Ascends prim_reading list.items) lists.new.items }
    ensures lists { (disk : List (List PrimRow)) → AreShown (P.lending pages.old).contents comps.now disk
        → MatchResult result (λ _. map (λ list. list.items) lists.new.items ≡ map (λ list. list.items) lists.old.items ++ disk) (λ fault. (fault ≡ Failed) ⊎ (fault ≡ OutOfMemory)) }
    ensures reads { ReadsAlong comps.now P.lending P.asked pages.old pages.new (fault_of result) (λ disk roots. all_pages comps.now roots) }
{
    for comp in comps {
        lists.push(scan_whole(alloc, pages, comp)?)?;
    }
    Ok(())
}

fn copied(alloc: Global, view: &MemView<PrimRow>) -> Result<Vec<PrimRow>, AllocError>
    ensures rows { IfOk result (λ rows. rows.items ≡ view.now) }
    ensures ascends { IfOk result (λ rows. Ascends prim_reading rows.items) }
{
    let mut rows = Vec::new(alloc);
    view.append_to(&mut rows)?;
    Ok(rows)
}

// The lists in memory, the newest first.
fn in_memory(
    alloc: Global,
    active: &MemView<PrimRow>,
    frozen: &Option<MemView<PrimRow>>,
) -> Result<Vec<Vec<PrimRow>>, AllocError>
    ensures lists { IfOk result (λ lists. map (λ list. list.items) lists.items ≡ lists_of active.now frozen.now []) }
    ensures ascend { IfOk result (λ lists. All (λ list. Ascends prim_reading list.items) lists.items) }
{
    let mut lists = Vec::new(alloc);
    lists.push(copied(alloc, active)?)?;
    if let Some(frozen) = frozen {
        lists.push(copied(alloc, frozen)?)?;
    }
    Ok(lists)
}

/// The rows that live in the primary, ascending by key: the newest row of each key, without the anti rows. The lists are
/// the active one, the frozen one where there is one, and those of the components, the newest first.
///
/// Each component is scanned from its root to its last leaf, the newest first. `Failed` where a page is not given,
/// `Damaged` where the page that was read last is none for its place, and `OutOfMemory` where there is no memory for the
/// lists.
pub fn living_rows<P: Pages>(
    alloc: Global,
    pages: &mut P,
    active: &MemView<PrimRow>,
    frozen: &Option<MemView<PrimRow>>,
    comps: &[PrimComp],
) -> Result<Vec<PrimRow>, PageFault>
    requires { AreAllLent (P.lending pages.old).lent comps.now }
    ensures ascends { IfOk result (λ rows. Ascends prim_reading rows.items) }
    ensures living { (disk : List (List PrimRow)) → AreShown (P.lending pages.old).contents comps.now disk
        → MatchResult result (λ rows. IsMergeOf prim_reading (lists_of active.now frozen.now disk) true rows.items) (λ fault. (fault ≡ Failed) ⊎ (fault ≡ OutOfMemory)) }
    ensures table { (disk : List (List PrimRow)) (table : Table) → AreShown (P.lending pages.old).contents comps.now disk
        → Fits prim_reading (lists_of active.now frozen.now disk) (wanted_rows table)
        → IfOk result (λ rows. rows.items ≡ table_rows table) }
    ensures reads { ReadsAlong comps.now P.lending P.asked pages.old pages.new (fault_of result) (λ disk roots. all_pages comps.now roots) }
{
    let mut lists = in_memory(alloc, active, frozen)?;
    scan_all(alloc, pages, comps, &mut lists)?;
    Ok(merged(alloc, &lists, true)?)
}
