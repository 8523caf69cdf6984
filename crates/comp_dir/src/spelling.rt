// The bytes of a slot.
ghost use Rattle.std.specs.Prelude.{◌≡◌};
ghost use Rattle.comp_dir.specs.Slots.{slot_bytes};

use crate::places::{
    FILTER_BITS_AT, FILTER_PLACE_AT, FIRST_AT, FIRST_LSN_AT, INDEX_AT, LAST_LSN_AT, MAIN_ROWS_AT,
    PAGES_AT, RESERVED_AT, SECOND_PLACE_AT, SECOND_ROWS_AT, SLOT_BODY_BYTES, TABLE_ROWS_AT,
};
use crate::slots::Slot;

/// The bytes of a slot behind its gate.
pub fn spelled(slot: &Slot) -> [u8; SLOT_BODY_BYTES]
    ensures { result ≡ slot_bytes slot.now }
{
    let mut bytes = [0; SLOT_BODY_BYTES];
    bytes[INDEX_AT] = slot.index;
    bytes[FIRST_AT..PAGES_AT].copy_from_slice(&slot.first.to_be_bytes());
    bytes[PAGES_AT..FIRST_LSN_AT].copy_from_slice(&slot.pages.to_be_bytes());
    bytes[FIRST_LSN_AT..LAST_LSN_AT].copy_from_slice(&slot.first_lsn.to_be_bytes());
    bytes[LAST_LSN_AT..MAIN_ROWS_AT].copy_from_slice(&slot.last_lsn.to_be_bytes());
    bytes[MAIN_ROWS_AT..SECOND_ROWS_AT].copy_from_slice(&slot.main_rows.to_be_bytes());
    bytes[SECOND_ROWS_AT..SECOND_PLACE_AT].copy_from_slice(&slot.second_rows.to_be_bytes());
    bytes[SECOND_PLACE_AT..FILTER_PLACE_AT].copy_from_slice(&slot.second_at.to_be_bytes());
    bytes[FILTER_PLACE_AT..FILTER_BITS_AT].copy_from_slice(&slot.filter_at.to_be_bytes());
    bytes[FILTER_BITS_AT..TABLE_ROWS_AT].copy_from_slice(&slot.filter_bits.to_be_bytes());
    bytes[TABLE_ROWS_AT..RESERVED_AT].copy_from_slice(&slot.table_rows.to_be_bytes());
    bytes
}
