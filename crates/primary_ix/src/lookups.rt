//! The lookup of a key.

ghost use Rattle.std.specs.Prelude.{◌≡◌, ◌≢◌, List, IfErr, IfSome, MatchResult, Ok};
ghost use Rattle.dev_model.specs.declared.page_faults.PageFault.TheVariants.{Failed, OutOfMemory};
ghost use Rattle.dev_model.specs.Asked.{fault_of};
ghost use Rattle.order_merge.specs.Entries.{newest_at};
ghost use Rattle.order_merge.specs.Fitting.{Fits, living_at};
ghost use Rattle.order_merge.specs.Views.{lists_of};
ghost use Rattle.table_model.specs.Table.{Table};
ghost use Rattle.primary_ix.specs.Reading.{prim_reading};
ghost use Rattle.primary_ix.specs.Components.{AreShown};
ghost use Rattle.primary_ix.specs.Pages.{AreAllLent};
ghost use Rattle.primary_ix.specs.OnPages.{ReadsAlong};
ghost use Rattle.primary_ix.specs.Lookups.{lookup_pages, view_pages, in_memory};
ghost use Rattle.primary_ix.specs.Wanted.{wanted_rows, table_row};
ghost use Rattle.primary_ix.specs.Records.{record_in, record_of};

use crate::component::{PrimComp, PrimView};
use crate::rows::PrimRow;
use btree_image::find;
use dev_model::{PageFault, Pages};
use geo_base::Row;

/// The row of a key in the newest of these components that has one, anti or not. The newest component stands first.
///
/// Its pages are those of a descent in each component, the newest first, up to the first that has the key. `Failed` where
/// a page is not given, and `Damaged` where the page that was read last is none for its place. It takes no memory.
pub fn lookup_disk<P: Pages>(
    pages: &mut P,
    comps: &[PrimComp],
    key: u64,
) -> Result<Option<PrimRow>, PageFault>
    requires { AreAllLent (P.lending pages.old).lent comps.now }
    ensures needs_no_memory { IfErr result (λ fault. fault ≢ OutOfMemory) }
    ensures found { (disk : List (List PrimRow)) → AreShown (P.lending pages.old).contents comps.now disk
        → MatchResult result (λ found. found ≡ newest_at prim_reading disk key) (λ fault. fault ≡ Failed) }
    ensures reads { ReadsAlong comps.now P.lending P.asked pages.old pages.new (fault_of result) (λ disk roots. lookup_pages key comps.now disk roots) }
{
    for comp in comps {
        let found = find::<PrimRow, P>(pages, comp.tree, &key)?;
        if found.is_some() {
            return Ok(found);
        }
    }
    Ok(None)
}

// The row of a key in the lists in memory.
fn in_memory(view: &PrimView, key: u64) -> Option<PrimRow>
    ensures { result ≡ in_memory view.now.active view.now.frozen key }
{
    if let Some(row) = view.active.get(&key) {
        return Some(row);
    }
    match &view.frozen {
        Some(frozen) => frozen.get(&key),
        None => None,
    }
}

// The record of the row that was found.
fn record_of(found: Option<PrimRow>) -> Option<Row>
    ensures { result ≡ record_of found }
{
    match found {
        Some(row) => row.row(),
        None => None,
    }
}

/// The record of a key, as a view has it: its row in the newest list that has one, unless that row is anti.
///
/// Where a list in memory has the key, no page is read; else the pages are those of `lookup_disk`. `Failed` where a page is
/// not given, and `Damaged` where the page that was read last is none for its place. It takes no memory.
pub fn lookup<P: Pages>(pages: &mut P, view: &PrimView, key: u64) -> Result<Option<Row>, PageFault>
    requires { AreAllLent (P.lending pages.old).lent view.now.comps.items }
    ensures needs_no_memory { IfErr result (λ fault. fault ≢ OutOfMemory) }
    ensures memory { IfSome (in_memory view.now.active view.now.frozen key) (λ row. result ≡ Ok (record_in row)) }
    ensures found { (disk : List (List PrimRow)) → AreShown (P.lending pages.old).contents view.now.comps.items disk
        → MatchResult result (λ row. row ≡ record_of (living_at prim_reading (lists_of view.now.active view.now.frozen disk) key)) (λ fault. fault ≡ Failed) }
    ensures table { (disk : List (List PrimRow)) (table : Table) → AreShown (P.lending pages.old).contents view.now.comps.items disk
        → Fits prim_reading (lists_of view.now.active view.now.frozen disk) (wanted_rows table)
        → MatchResult result (λ row. row ≡ table_row table key) (λ fault. fault ≡ Failed) }
    ensures reads { ReadsAlong view.now.comps.items P.lending P.asked pages.old pages.new (fault_of result) (λ disk roots. view_pages key view.now.active view.now.frozen view.now.comps.items disk roots) }
{
    if let Some(row) = in_memory(view, key) {
        return Ok(row.row());
    }
    Ok(record_of(lookup_disk(pages, &view.comps, key)?))
}
