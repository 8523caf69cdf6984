// The rows inside a rectangle.
ghost use Rattle.std.specs.Prelude.{◌≡◌, ◌++◌, IfOk, OnOk};
ghost use Rattle.std.specs.Option.{option_to_list};
ghost use Rattle.table_model.specs.Table.{rows_inside};
ghost use Rattle.primary_ix.specs.Records.{record_in};
ghost use Rattle.store_machine.specs.Calls.{IsReady, Makes};
ghost use Rattle.store_machine.specs.declared.events.Action.{Action};
ghost use Rattle.store_core.specs.Regions.{records_in, found_of};
ghost use Rattle.store_core.specs.Stores.{state_of};
ghost use Rattle.store_core.specs.Tested.{TestsPages};

use crate::reading::refused;
use crate::store::Store;
use dev_model::Device;
use geo_base::{IndexKind, ItemList, Rect, Row};
use kept_state::read_rows;
use primary_ix::PrimRow;
use std::alloc::{AllocError, Global};
use store_machine::Refusal;

/// What an answered region tells.
#[derive(Drop)]
pub struct RegionRows {
    /// The number of the answer in the order of all answers.
    pub seq: u64,
    /// The rows inside, ascending by key.
    pub rows: ItemList<Row>,
}

// Adds the record of a row, if it has one that is inside.
fn add_inside(list: &mut ItemList<Row>, row: &PrimRow, rect: &Rect) -> Result<(), AllocError>
    ensures { OnOk result (list.new.items ≡ list.old.items ++ rows_inside rect.now (option_to_list (record_in row.now))) }
{
    if let Some(record) = row.row() {
        if rect.inside(record.point) {
            list.reserve(1)?;
            list.add(record);
        }
    }
    Ok(())
}

// The records of the rows that are inside.
fn inside(alloc: Global, rows: &[PrimRow], rect: &Rect) -> Result<ItemList<Row>, AllocError>
    ensures { IfOk result (λ list. list.items ≡ rows_inside rect.now (records_in rows.now)) }
{
    let mut list = ItemList::new(alloc);
    for row in rows {
        add_inside(&mut list, row, rect)?;
    }
    Ok(list)
}

impl<D: Device> Store<D> {
    /// The rows whose points are in the rectangle, edges included. `NoIndex` exactly where the index isn't declared. Until the
    /// indexes have components of their own, all rows are looked through. `Fault` where a page could not be read, and `Damaged`
    /// where the page that was read last is none for its place, which doesn't come where the store was opened from what was on
    /// the disk. After an answer each page that was read has the header of its place.
    pub fn region(
        &mut self,
        alloc: Global,
        owner: u64,
        kind: IndexKind,
        rect: &Rect,
    ) -> Result<RegionRows, Refusal>
        requires ready { IsReady (state_of D.seen self.old) }
        ensures event { Makes (state_of D.seen self.old) (state_of D.seen self.new) owner (Action.Region kind rect.now (found_of result)) }
        ensures pages { TestsPages (state_of D.seen self.old) (state_of D.seen self.new).device result }
        ensures ready { IsReady (state_of D.seen self.new) }
    {
        if !self.indexes.has(kind) {
            return Err(Refusal::NoIndex);
        }
        let rows = match read_rows(alloc, &mut self.device, &self.state) {
            Ok(rows) => rows,
            Err(fault) => return Err(refused(fault)),
        };
        match inside(alloc, &rows, rect) {
            Ok(rows) => {
                let seq = self.draw();
                Ok(RegionRows { seq, rows })
            }
            Err(_) => Err(Refusal::OutOfMemory),
        }
    }
}
