// Where the slots stand on the device, and the fields of a slot. Definitions and code take the numbers from here.
ghost use Rattle.std.specs.Prelude.{◌≡◌, ◌<◌};
ghost use Rattle.comp_dir.specs.Places.{slot_start};

use page_codec::{
    DELETED_INNER, DELETED_LEAF, DHB_INNER, DHB_LEAF, DHVB_INNER, DHVB_LEAF, DICTIONARY_INNER,
    DICTIONARY_LEAF, PRIMARY_INNER, PRIMARY_LEAF, RTREE_INNER, RTREE_LEAF, SHB_INNER, SHB_LEAF,
};

/// The byte where the directory begins, which is the gate of slot 0.
pub const DIRECTORY_START: u64 = 4096;

/// The bytes of a slot with its gate.
pub const SLOT_BYTES: u64 = 64;

/// How many slots the directory has.
pub const SLOTS: u16 = 512;

/// The bytes of a slot behind its gate.
pub const SLOT_BODY_BYTES: usize = 63;

/// The pages up to the end of the directory.
pub const DIRECTORY_PAGES: u32 = 9;

/// The pages of the directory.
pub const SLOT_PAGES: u16 = 8;

/// How many slots stand on a page.
pub const PAGE_SLOTS: u16 = 64;

/// The first page that an extent may have.
pub const FIRST_DATA_PAGE: u32 = 265;

/// The number of each write is below this one.
pub const LSN_LIMIT: u64 = 0x4000_0000_0000_0000;

/// How many slots of an index may be live.
pub const MOST_LIVE: usize = 16;

/// The number of the primary in a slot.
pub const PRIMARY: u8 = 0;

/// The number of the R-tree in a slot, which has deleted keys as a second part.
pub const RTREE: u8 = 1;

/// The number of dhb in a slot.
pub const DHB: u8 = 2;

/// The number of dhvb in a slot.
pub const DHVB: u8 = 3;

/// The number of shb in a slot.
pub const SHB: u8 = 4;

/// The number of the spatial inverted file in a slot, which has postings as a second part.
pub const INVERTED_FILE: u8 = 5;

/// How many numbers of indexes there are.
pub const INDEXES: u8 = 6;

/// The kind of the leaves of an index's main part, by the number of the index.
pub const MAIN_LEAVES: [u8; 6] = [
    PRIMARY_LEAF,
    RTREE_LEAF,
    DHB_LEAF,
    DHVB_LEAF,
    SHB_LEAF,
    DICTIONARY_LEAF,
];

/// The kind of the pages above these.
pub const MAIN_INNERS: [u8; 6] = [
    PRIMARY_INNER,
    RTREE_INNER,
    DHB_INNER,
    DHVB_INNER,
    SHB_INNER,
    DICTIONARY_INNER,
];

/// The index of a slot, counted from behind the gate like the fields after it. Two bytes of 0 follow.
pub const INDEX_AT: usize = 0;

/// The first page of the extent.
pub const FIRST_AT: usize = 3;

/// The pages of the extent.
pub const PAGES_AT: usize = 7;

/// The number of the first write.
pub const FIRST_LSN_AT: usize = 11;

/// The number of the last write.
pub const LAST_LSN_AT: usize = 19;

/// The rows of the main part.
pub const MAIN_ROWS_AT: usize = 27;

/// The rows of the second part.
pub const SECOND_ROWS_AT: usize = 31;

/// The place of the second part.
pub const SECOND_PLACE_AT: usize = 35;

/// The place of the filter.
pub const FILTER_PLACE_AT: usize = 39;

/// The bits of the filter.
pub const FILTER_BITS_AT: usize = 43;

/// The rows of the table.
pub const TABLE_ROWS_AT: usize = 47;

/// The bytes of 0 at the end.
pub const RESERVED_AT: usize = 55;

/// How many these are.
pub const RESERVED_BYTES: usize = 8;

/// The byte where a slot begins, which is its gate.
pub fn slot_start(slot: u16) -> u64
    requires { slot < SLOTS }
    ensures { result ≡ slot_start slot }
{
    DIRECTORY_START + SLOT_BYTES * u64::from(slot)
}
