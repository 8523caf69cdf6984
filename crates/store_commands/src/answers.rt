// What a store answers of its rows. These commands need no upkeep.
ghost use Rattle.std.specs.Prelude.{◌≡◌, None};
ghost use Rattle.table_model.specs.Commands as model;
ghost use Rattle.table_model.specs.Commands.{on_table, answered, counted};
ghost use Rattle.store_core.specs.Stores.{state_of};
ghost use Rattle.store_machine.specs.Commands.{get_outcome, region_outcome};
ghost use Rattle.store_commands.specs.Commands.{IsServing, HasDone, IsOneEvent, rows_found};

use crate::upkeep::word_of;
use dev_model::Device;
use geo_base::{IndexKind, Rect};
use std::alloc::Global;
use store_core::{RegionRows, Store};
use store_machine::Got;
use table_model::Why;

/// The row of a key. `Fault` where a page could not be read, and `Damaged` where one that was read is none for its place.
pub fn get<D: Device>(store: &mut Store<D>, owner: u64, key: u64) -> Result<Got, Why>
    requires serving { IsServing (state_of D.seen store.old) }
    ensures done { HasDone (state_of D.seen store.old) (state_of D.seen store.new) owner (on_table (model.get key)) (get_outcome result) None }
    ensures alone { IsOneEvent (state_of D.seen store.old) (state_of D.seen store.new) owner (model.get key) (get_outcome result) }
    ensures serving { IsServing (state_of D.seen store.new) }
{
    match store.get(owner, key) {
        Ok(got) => Ok(got),
        Err(refusal) => Err(word_of(refusal)),
    }
}

/// The number of the answer, and the number of rows of the table.
pub fn count<D: Device>(store: &mut Store<D>, owner: u64) -> (u64, u64)
    requires serving { IsServing (state_of D.seen store.old) }
    ensures done { HasDone (state_of D.seen store.old) (state_of D.seen store.new) owner (on_table model.count) (answered result.0 (counted result.1)) None }
    ensures alone { IsOneEvent (state_of D.seen store.old) (state_of D.seen store.new) owner model.count (answered result.0 (counted result.1)) }
    ensures serving { IsServing (state_of D.seen store.new) }
{
    store.count(owner)
}

/// The rows whose points are in the rectangle, edges included, through an index. `NoIndex` exactly where it isn't declared;
/// `Fault` where a page could not be read, `Damaged` where one that was read is none for its place, and `Memory`.
pub fn region<D: Device>(
    alloc: Global,
    store: &mut Store<D>,
    owner: u64,
    kind: IndexKind,
    rect: &Rect,
) -> Result<RegionRows, Why>
    requires serving { IsServing (state_of D.seen store.old) }
    ensures done { HasDone (state_of D.seen store.old) (state_of D.seen store.new) owner (on_table (model.region kind rect.now)) (region_outcome (rows_found result)) None }
    ensures alone { IsOneEvent (state_of D.seen store.old) (state_of D.seen store.new) owner (model.region kind rect.now) (region_outcome (rows_found result)) }
    ensures serving { IsServing (state_of D.seen store.new) }
{
    match store.region(alloc, owner, kind, rect) {
        Ok(found) => Ok(found),
        Err(refusal) => Err(word_of(refusal)),
    }
}
