//! The rows of a store: those in memory, and behind them those on the pages of its components.

ghost use Rattle.std.specs.Prelude.{◌≡◌, ◌≢◌, ◌≤◌, List, ◌⊎◌, IfOk, IfErr, IfSome, MatchResult, Ok, Some};
ghost use Rattle.dev_model.specs.Counts.{Rose};
ghost use Rattle.dev_model.specs.Story.{WhereTold};
ghost use Rattle.dev_model.specs.declared.page_faults.PageFault.TheVariants.{Failed, OutOfMemory};
ghost use Rattle.device_pages.specs.Lending.{contents_of};
ghost use Rattle.order_merge.specs.Entries.{newest_at};
ghost use Rattle.order_merge.specs.Ascending.{Ascends};
ghost use Rattle.order_merge.specs.Views.{lists_of};
ghost use Rattle.table_model.specs.Table.{Table};
ghost use Rattle.primary_ix.specs.Reading.{prim_reading};
ghost use Rattle.primary_ix.specs.Components.{AreShown};
ghost use Rattle.primary_ix.specs.Lookups.{in_memory, view_pages};
ghost use Rattle.primary_ix.specs.AllPages.{all_pages};
ghost use Rattle.primary_ix.specs.Wanted.{table_row};
ghost use Rattle.primary_ix.specs.Records.{record_in, record_of, table_rows};
ghost use Rattle.primary_ix.specs.declared.rows.PrimRow.{PrimRow as PrimRowModel};
ghost use Rattle.store_state.specs.Lists.{extents_of, trees_of};
ghost use Rattle.store_state.specs.EveryList.{IsLists};
ghost use Rattle.store_state.specs.Reading.{IsLegible};
ghost use Rattle.store_state.specs.OnlyRead.{HasReadAlong, IsOnlyRead};

use dev_model::{Device, PageFault};
use device_pages::DevicePages;
use geo_base::Row;
use primary_ix::{PrimRow, living_rows, lookup_disk};
use std::alloc::Global;
use store_state::State;

// The row of a key in the newest list that has one, anti or not.
fn find_row<D: Device>(
    device: &mut D,
    state: &State,
    key: u64,
) -> Result<Option<PrimRow>, PageFault>
    requires on_device { state.now.0.space.pages ≤ (D.seen device.old).pages }
    ensures lists { IsLists state.now.0 }
    ensures later { (D.seen device.old).faults ≤ (D.seen device.new).faults }
    ensures failed { IfErr result (λ fault. fault ≡ Failed → Rose (D.seen device.old).faults (D.seen device.new).faults) }
    ensures needs_no_memory { IfErr result (λ fault. fault ≢ OutOfMemory) }
    ensures found { (disk : List (List PrimRowModel)) → AreShown (contents_of (extents_of state.now.0.components) (D.seen device.old).story) (trees_of state.now.0.components) disk
        → MatchResult result (λ found. found ≡ newest_at prim_reading (lists_of state.now.0.active state.now.0.frozen disk) key) (λ fault. fault ≡ Failed) }
    ensures memory { IfSome (in_memory state.now.0.active state.now.0.frozen key) (λ row. (result ≡ Ok (Some row)) × (device.new ≡ device.old)) }
    ensures asked { HasReadAlong state.now.0 (D.seen device.old) (D.seen device.new) result (λ disk roots. view_pages key state.now.0.active state.now.0.frozen (trees_of state.now.0.components) disk roots) }
{
    let components = state.components();
    if let Some(row) = state.in_memory(key) {
        return Ok(Some(row));
    }
    let mut pages = DevicePages::new(device, state.extents());
    lookup_disk(&mut pages, components, key)
}

// The record of the row that was found.
fn record_of(found: Option<PrimRow>) -> Option<Row>
    ensures { result ≡ record_of found }
{
    match found {
        Some(row) => row.row(),
        None => None,
    }
}

/// The record of a key: its row in the newest list that has one, unless that row is anti.
///
/// Where a list in memory has the key, the device isn't touched. Else the pages are those of a descent in each component, the
/// newest first, up to the first that has the key, or after a refusal the first few of them. `Failed` where a page is not
/// given, and `Damaged` where the page that was read last is none for its place, which doesn't come where the pages show the
/// store's lists. It takes no memory.
pub fn read_row<D: Device>(
    device: &mut D,
    state: &State,
    key: u64,
) -> Result<Option<Row>, PageFault>
    requires on_device { state.now.0.space.pages ≤ (D.seen device.old).pages }

    ensures row { (table : Table) (disk : List (List PrimRowModel)) → WhereTold (D.seen device.old).story (λ s. IsLegible table disk state.now.0 s
        → MatchResult result (λ row. row ≡ table_row table key) (λ fault. fault ≡ Failed)) }
    ensures memory { IfSome (in_memory state.now.0.active state.now.0.frozen key) (λ row. (result ≡ Ok (record_in row)) × (device.new ≡ device.old)) }
    ensures failed { IfErr result (λ fault. fault ≡ Failed → Rose (D.seen device.old).faults (D.seen device.new).faults) }
    ensures later { (D.seen device.old).faults ≤ (D.seen device.new).faults }
    ensures needs_no_memory { IfErr result (λ fault. fault ≢ OutOfMemory) }
    ensures asked { HasReadAlong state.now.0 (D.seen device.old) (D.seen device.new) result (λ disk roots. view_pages key state.now.0.active state.now.0.frozen (trees_of state.now.0.components) disk roots) }

    ensures stays { WhereTold (D.seen device.old).story (λ s. IsOnlyRead (D.seen device.old).pages state.now.0 s (D.seen device.new).story) }
    ensures same_pages { (D.seen device.new).pages ≡ (D.seen device.old).pages }
{
    Ok(record_of(find_row(device, state, key)?))
}

/// The rows that live, ascending by key: the newest row of each key, without the anti rows.
///
/// Each component is scanned from its root to its last leaf, the newest first. `Failed` where a page is not given, `Damaged`
/// where the page that was read last is none for its place, which doesn't come where the pages show the store's lists, and
/// `OutOfMemory` where there is no memory for the lists.
pub fn read_rows<D: Device>(
    alloc: Global,
    device: &mut D,
    state: &State,
) -> Result<Vec<PrimRow>, PageFault>
    requires on_device { state.now.0.space.pages ≤ (D.seen device.old).pages }

    ensures rows { (table : Table) (disk : List (List PrimRowModel)) → WhereTold (D.seen device.old).story (λ s. IsLegible table disk state.now.0 s
        → MatchResult result (λ rows. rows.items ≡ table_rows table) (λ fault. (fault ≡ Failed) ⊎ (fault ≡ OutOfMemory))) }
    ensures ascends { IfOk result (λ rows. Ascends prim_reading rows.items) }
    ensures failed { IfErr result (λ fault. fault ≡ Failed → Rose (D.seen device.old).faults (D.seen device.new).faults) }
    ensures later { (D.seen device.old).faults ≤ (D.seen device.new).faults }
    ensures asked { HasReadAlong state.now.0 (D.seen device.old) (D.seen device.new) result (λ disk roots. all_pages (trees_of state.now.0.components) roots) }

    ensures stays { WhereTold (D.seen device.old).story (λ s. IsOnlyRead (D.seen device.old).pages state.now.0 s (D.seen device.new).story) }
    ensures same_pages { (D.seen device.new).pages ≡ (D.seen device.old).pages }
{
    let components = state.components();
    let Ok(active) = state.share() else {
        return Err(PageFault::OutOfMemory);
    };
    let mut lent = DevicePages::new(device, state.extents());
    living_rows(alloc, &mut lent, &active, state.frozen(), components)
}
