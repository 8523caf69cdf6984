// Slots from their bytes, and what is asked of each alone.
ghost use Rattle.std.specs.Prelude.{◌≡◌, ◌+◌, ◌<◌, ◌≤◌, length, take, drop, Some, None, IfSome, IfNone, IsTrue, ◌↔◌, ℕ, slice_index, slice_set};
ghost use Rattle.std.specs.Bool.{OnTrue, OnFalse};
ghost use Rattle.std.specs.Int.{from_be_bytes, w32, w64, div_ceil};
ghost use Rattle.page_codec.specs.Page.{most_rows};
ghost use Rattle.page_codec.specs.Adding.{IsKind};
ghost use Rattle.comp_dir.specs.Slots.{slot_of, slot_bytes, number32, number64};
ghost use Rattle.comp_dir.specs.Parts.{HasPages, HasSecond, HasParts, tree, main_tree};
ghost use Rattle.comp_dir.specs.Rules.{IsDeclared, HasExtent, HasInterval, IsSound, IsSlot, HasNoMore};

use crate::places::{
    DHB, DHVB, FILTER_BITS_AT, FILTER_PLACE_AT, FIRST_AT, FIRST_DATA_PAGE, FIRST_LSN_AT, INDEX_AT,
    INDEXES, INVERTED_FILE, LAST_LSN_AT, LSN_LIMIT, MAIN_INNERS, MAIN_LEAVES, MAIN_ROWS_AT,
    PAGES_AT, PRIMARY, RTREE, SECOND_PLACE_AT, SECOND_ROWS_AT, SHB, SLOT_BODY_BYTES, TABLE_ROWS_AT,
};
use crate::slots::Slot;
use crate::spelling::spelled;
use geo_base::{IndexKind, IndexSet};
use page_codec::{DELETED_INNER, DELETED_LEAF, POSTINGS, rows_per_page};
use tree_shape::Shape;

fn number32(body: &[u8; SLOT_BODY_BYTES], at: usize) -> u32
    requires { at + 4 ≤ SLOT_BODY_BYTES }
    ensures { result ≡ number32 at body.now }
{
    u32::from_be_bytes([body[at], body[at + 1], body[at + 2], body[at + 3]])
}

fn number64(body: &[u8; SLOT_BODY_BYTES], at: usize) -> u64
    requires { at + 8 ≤ SLOT_BODY_BYTES }
    ensures { result ≡ number64 at body.now }
{
    u64::from_be_bytes([
        body[at],
        body[at + 1],
        body[at + 2],
        body[at + 3],
        body[at + 4],
        body[at + 5],
        body[at + 6],
        body[at + 7],
    ])
}

/// The slot that these bytes give, whatever stands in the bytes that have to be 0.
fn slot_of(body: &[u8; SLOT_BODY_BYTES]) -> Slot
    ensures { result ≡ slot_of body.now }
{
    Slot {
        index: body[INDEX_AT],
        first: number32(body, FIRST_AT),
        pages: number32(body, PAGES_AT),
        first_lsn: number64(body, FIRST_LSN_AT),
        last_lsn: number64(body, LAST_LSN_AT),
        main_rows: number32(body, MAIN_ROWS_AT),
        second_rows: number32(body, SECOND_ROWS_AT),
        second_at: number32(body, SECOND_PLACE_AT),
        filter_at: number32(body, FILTER_PLACE_AT),
        filter_bits: number32(body, FILTER_BITS_AT),
        table_rows: number64(body, TABLE_ROWS_AT),
    }
}

/// Whether these are the bytes of that slot.
fn is_spelled(slot: &Slot, body: &[u8; SLOT_BODY_BYTES]) -> bool
    ensures yes { OnTrue result (slot_bytes slot.now ≡ body.now) }
    ensures no { OnFalse result (slot_bytes slot.now ≡ body.now → ⊥) }
{
    spelled(slot) == *body
}

/// Whether an index has components: the primary, or one that is declared.
fn is_declared(declared: IndexSet, index: u8) -> bool
    ensures yes { OnTrue result (IsDeclared declared index) }
    ensures no { OnFalse result (IsDeclared declared index → ⊥) }
{
    match index {
        PRIMARY => true,
        RTREE => declared.has(IndexKind::Rtree),
        DHB => declared.has(IndexKind::Dhb),
        DHVB => declared.has(IndexKind::Dhvb),
        SHB => declared.has(IndexKind::Shb),
        INVERTED_FILE => declared.has(IndexKind::Sif),
        _ => false,
    }
}

fn has_extent(slot: &Slot, pages: u32) -> bool
    ensures yes { OnTrue result (HasExtent pages slot.now) }
    ensures no { OnFalse result (HasExtent pages slot.now → ⊥) }
{
    slot.pages >= 1
        && slot.first >= FIRST_DATA_PAGE
        && u64::from(slot.first) + u64::from(slot.pages) <= u64::from(pages)
}

fn has_interval(slot: &Slot) -> bool
    ensures yes { OnTrue result (HasInterval slot.now) }
    ensures no { OnFalse result (HasInterval slot.now → ⊥) }
{
    slot.first_lsn >= 1 && slot.first_lsn <= slot.last_lsn && slot.last_lsn < LSN_LIMIT
}

/// How many pages the tree of so many rows takes.
fn tree_pages(leaf: u8, inner: u8, rows: u32) -> u64
    requires leaf { IsKind leaf }
    requires inner { IsKind inner }
    requires per_leaf { 1 ≤ most_rows leaf }
    requires per_inner { 2 ≤ most_rows inner }
    ensures is { HasPages (tree leaf inner rows) result }
    ensures only { (count : ℕ) → HasPages (tree leaf inner rows) count → count ≡ result }
{
    let per_leaf = rows_per_page(leaf);
    let per_inner = rows_per_page(inner);
    let shape = Shape {
        per_leaf,
        per_inner,
        rows,
    };
    shape.pages()
}

/// How many pages the main part takes.
fn main_pages(slot: &Slot) -> u64
    requires { slot.now.index < INDEXES }
    ensures is { HasPages (main_tree slot.now) result }
    ensures only { (count : ℕ) → HasPages (main_tree slot.now) count → count ≡ result }
{
    let index = usize::from(slot.index);
    tree_pages(MAIN_LEAVES[index], MAIN_INNERS[index], slot.main_rows)
}

/// How many pages the second part takes, None where there may be none and the slot says otherwise.
fn second_pages(slot: &Slot) -> Option<u64>
    ensures is { IfSome result (HasSecond slot.now) }
    ensures only { IfSome result (λ found. (count : ℕ) → HasSecond slot.now count → count ≡ found) }
    ensures none { IfNone result ((count : ℕ) → HasSecond slot.now count → ⊥) }
{
    if slot.index == RTREE {
        return Some(tree_pages(DELETED_LEAF, DELETED_INNER, slot.second_rows));
    }
    if slot.index == INVERTED_FILE {
        return Some(u64::from(
            slot.second_rows
                .div_ceil(u32::from(rows_per_page(POSTINGS))),
        ));
    }
    if slot.second_rows == 0 && slot.second_at == 0 {
        Some(0)
    } else {
        None
    }
}

/// Whether the parts lie in the extent and apart from one another.
fn has_parts(slot: &Slot) -> bool
    requires { slot.now.index < INDEXES }
    ensures yes { OnTrue result (HasParts slot.now) }
    ensures no { OnFalse result (HasParts slot.now → ⊥) }
{
    let main = main_pages(slot);
    let Some(second) = second_pages(slot) else {
        return false;
    };
    let pages = u64::from(slot.pages);
    let second_at = u64::from(slot.second_at);
    main <= pages
        && second <= pages
        && second_at <= pages - second
        && (second == 0 || main <= second_at)
}

/// Whether the slot says nothing of a filter, and of the table's rows only where it is the primary's.
fn has_no_more(slot: &Slot) -> bool
    ensures yes { OnTrue result (HasNoMore slot.now) }
    ensures no { OnFalse result (HasNoMore slot.now → ⊥) }
{
    slot.filter_at == 0 && slot.filter_bits == 0 && (slot.index == PRIMARY || slot.table_rows == 0)
}

fn is_sound(slot: &Slot, declared: IndexSet, pages: u32) -> bool
    ensures yes { OnTrue result (IsSound pages declared slot.now) }
    ensures no { OnFalse result (IsSound pages declared slot.now → ⊥) }
{
    is_declared(declared, slot.index)
        && slot.index < INDEXES
        && has_extent(slot, pages)
        && has_interval(slot)
        && has_no_more(slot)
        && has_parts(slot)
}

/// The sound slot that these bytes are those of.
pub fn parse(body: &[u8; SLOT_BODY_BYTES], declared: IndexSet, pages: u32) -> Option<Slot>
    ensures there { IfSome result (λ slot. (slot ≡ slot_of body.now) × IsSlot pages declared body.now) }
    ensures none { IfNone result (IsSlot pages declared body.now → ⊥) }
{
    let slot = slot_of(body);
    if is_sound(&slot, declared, pages) && is_spelled(&slot, body) {
        Some(slot)
    } else {
        None
    }
}
