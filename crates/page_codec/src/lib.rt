//! Pages of fixed rows: what stands at which byte, how rows are put on a page, and how they are read where they stand.
#![tactic(auto)]

mod kinds;
mod pages;

pub use kinds::{
    DELETED_INNER, DELETED_LEAF, DHB_INNER, DHB_LEAF, DHVB_INNER, DHVB_LEAF, DICTIONARY_INNER,
    DICTIONARY_LEAF, POSTINGS, PRIMARY_INNER, PRIMARY_LEAF, RTREE_INNER, RTREE_LEAF, SHB_INNER,
    SHB_LEAF, WIDTHS, is_kind, width_of,
};
pub use pages::{
    BadPage, HEADER_BYTES, PAGE_BYTES, new_page, open_page, put_row, row, rows_per_page,
};
