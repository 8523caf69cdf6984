//! The rows of the primary index.

ghost use Rattle.std.specs.Prelude.{◌≡◌, Some};
ghost use Rattle.btree_image.specs.Rows.{IsStored};
ghost use Rattle.primary_ix.specs.Rows.{prim_layout};
ghost use Rattle.primary_ix.specs.Records.{record_in};

use crate::bytes::{KEY_BYTES, key_in, read_row, write_row};
use btree_image::TreeRow;
use geo_base::{Note, Point, Row};
use order_merge::Entry;
use page_codec::{PRIMARY_INNER, PRIMARY_LEAF};
use std::cmp::Ordering;

/// What one list of the primary says of a key: where its record is and its note, or that there is none.
#[derive(Clone, Copy, Debug)]
pub struct PrimRow {
    /// The record's key.
    pub key: u64,
    /// The record's point and note, or `None` in an anti row, which only hides the older rows of its key.
    pub matter: Option<(Point, Note)>,
}

impl Entry for PrimRow {
    ghost use Rattle.primary_ix.specs.Reading.{prim_reading};
    ghost use Rattle.primary_ix.specs.Kinds.{prim_key_order};

    type Key = u64;

    ghost reading = { prim_reading };

    fn key(&self) -> u64 {
        self.key
    }

    fn anti(&self) -> bool {
        self.matter.is_none()
    }

    fn compare(a: &u64, b: &u64) -> Ordering {
        a.cmp(b)
    }

    ghost key_order = { prim_key_order };
}

impl TreeRow for PrimRow {
    ghost use Rattle.primary_ix.specs.Rows.{prim_layout};
    ghost use Rattle.primary_ix.specs.Kinds.{prim_kinds};

    type Key = u64;

    ghost layout = { prim_layout };

    ghost use Rattle.page_codec.specs.declared.kinds.TheConstants.{PRIMARY_LEAF, PRIMARY_INNER};
    ghost use Rattle.primary_ix.specs.declared.bytes.TheConstants.{KEY_BYTES};

    ghost LEAF = { PRIMARY_LEAF };

    ghost INNER = { PRIMARY_INNER };

    ghost KEY_WIDTH = { KEY_BYTES };

    const LEAF: u8 = PRIMARY_LEAF;

    const INNER: u8 = PRIMARY_INNER;

    const KEY_WIDTH: usize = KEY_BYTES;

    fn row_key(&self) -> u64 {
        self.key
    }

    fn compare_keys(a: &u64, b: &u64) -> Ordering {
        a.cmp(b)
    }

    fn write(&self, out: &mut [u8]) {
        write_row(self, out);
    }

    fn read(bytes: &[u8]) -> Option<PrimRow> {
        read_row(bytes)
    }

    fn write_key(key: &u64, out: &mut [u8]) {
        let key = *key;
        out.copy_from_slice(&key.to_be_bytes());
    }

    fn read_key(bytes: &[u8]) -> u64 {
        key_in(bytes)
    }

    ghost kinds = { prim_kinds };
}

/// The row that a write adds to the list in memory, in the place of the one with its key: what a put puts there, and an
/// anti row for a del.
pub fn change(key: u64, matter: Option<(Point, Note)>) -> PrimRow
    ensures row { result ≡ record { key = key; matter = matter } }
    ensures stored { IsStored prim_layout result }
{
    match matter {
        None => PrimRow { key, matter: None },
        Some((point, note)) => laid(key, point, note),
    }
}

// The row of a record.
fn laid(key: u64, point: Point, note: Note) -> PrimRow
    ensures row { result ≡ record { key = key; matter = Some (point, note) } }
    ensures stored { IsStored prim_layout result }
{
    // A note keeps its rule, and so fits the room of a row.
    let _ = note.bytes();
    PrimRow {
        key,
        matter: Some((point, note)),
    }
}

impl PrimRow {
    /// The record, unless the row is anti.
    pub fn row(&self) -> Option<Row>
        ensures { result ≡ record_in self.now }
    {
        let (point, note) = self.matter?;
        Some(Row {
            key: self.key,
            point,
            note,
        })
    }
}
