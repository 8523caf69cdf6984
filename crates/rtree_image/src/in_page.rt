//! What a search takes from one page.

ghost use Rattle.std.specs.Prelude.{◌≡◌, ◌≢◌, ℕ, suc, [], ◌∷◌, ◌+◌, ◌*◌, ◌^◌, ◌<◌, ◌≤◌, ◌++◌, ◌-◌, List, length, slice_index_or, drop, map, if◌then◌else◌, IsTrue, IfErr, OnOk, OnErr};
ghost use Rattle.std.specs.List.{filter};
ghost use Rattle.std.specs.Int.{from_be_bytes, w32};
ghost use Rattle.page_codec.specs.Page.{row_count, rows_on, kind_of, most_rows};
ghost use Rattle.page_codec.specs.declared.kinds.TheConstants.{RTREE_LEAF, RTREE_INNER};
ghost use Rattle.rtree_image.specs.declared.in_page.Unusable.TheVariants.{Damaged, OutOfMemory};
ghost use Rattle.tree_shape.specs.Shape.{level_size, level_start, numbers};
ghost use Rattle.rtree_image.specs.declared.rows.RtRow.{RtRow};
ghost use Rattle.rtree_image.specs.Rows.{row_of};
ghost use Rattle.rtree_image.specs.Bounds.{bounds_in, meets};
ghost use Rattle.rtree_image.specs.Image.{tree_of};
ghost use Rattle.rtree_image.specs.Visits.{is_inside};
ghost use Rattle.rtree_image.specs.Damage.{IsInnerPage, IsInnerPageFor};

use crate::bounds::{Bounds, meets};
use crate::levels::{level_at, per_inner};
use crate::rows::{RtRow, child_in, coordinate_in, from_bytes};
use geo_base::Rect;
use page_codec::{PAGE_BYTES, RTREE_INNER, open_page, row};

/// Why the rows of a page are not taken.
#[derive(Clone, Copy)]
pub(crate) enum Unusable {
    /// It isn't a page for its place.
    Damaged,
    /// There is no memory for what was found.
    OutOfMemory,
}

// The row at a place of a leaf.
fn row_at(page: &[u8; PAGE_BYTES], i: u16) -> RtRow
    requires kind { kind_of page.now ≡ RTREE_LEAF }
    requires fits { row_count page.now ≤ most_rows RTREE_LEAF }
    requires in_rows { i < row_count page.now }
    ensures { result ≡ row_of (slice_index_or (rows_on page.now) i []) }
{
    from_bytes(row(page, i))
}

// Whether the bounds at a place of a page above the leaves meet the rectangle.
fn meets_at(page: &[u8; PAGE_BYTES], i: u16, rect: &Rect) -> bool
    requires kind { kind_of page.now ≡ RTREE_INNER }
    requires fits { row_count page.now ≤ most_rows RTREE_INNER }
    requires in_rows { i < row_count page.now }
    ensures { result ≡ meets (bounds_in (slice_index_or (rows_on page.now) i [])) rect.now }
{
    let bytes = row(page, i);
    let bounds = Bounds {
        x1: coordinate_in(&bytes[..2]),
        y1: coordinate_in(&bytes[2..4]),
        x2: coordinate_in(&bytes[4..6]),
        y2: coordinate_in(&bytes[6..8]),
    };
    meets(bounds, rect)
}

// The page to which a row above the leaves leads.
fn child_at(page: &[u8; PAGE_BYTES], i: u16) -> u32
    requires kind { kind_of page.now ≡ RTREE_INNER }
    requires fits { row_count page.now ≤ most_rows RTREE_INNER }
    requires in_rows { i < row_count page.now }
    ensures { result ≡ from_be_bytes w32 (drop 8 (slice_index_or (rows_on page.now) i [])) }
{
    child_in(&row(page, i)[8..])
}

// Adds a row if it lies in the rectangle.
fn add_row(row: RtRow, rect: &Rect, out: &mut Vec<RtRow>) -> Result<(), Unusable>
    ensures row { OnOk result (out.new.items ≡ out.old.items ++ (if is_inside rect.now row then row ∷ [] else [])) }
    ensures same { OnErr result (out.new.items ≡ out.old.items) }
    ensures refused { IfErr result (λ fault. fault ≡ OutOfMemory) }
{
    if rect.inside(row.point) && out.push(row).is_err() {
        return Err(Unusable::OutOfMemory);
    }
    Ok(())
}

// Adds the rows of a leaf that lie in the rectangle.
pub(crate) fn add_rows(
    page: &[u8; PAGE_BYTES],
    count: u16,
    rect: &Rect,
    out: &mut Vec<RtRow>,
) -> Result<(), Unusable>
    requires kind { kind_of page.now ≡ RTREE_LEAF }
    requires fits { row_count page.now ≤ most_rows RTREE_LEAF }
    requires all { count ≡ row_count page.now }
    ensures rows { OnOk result (out.new.items ≡ out.old.items ++ filter (is_inside rect.now) (map row_of (rows_on page.now))) }
    ensures keeps { (more : List RtRow) × (out.new.items ≡ out.old.items ++ more) }
    ensures refused { IfErr result (λ fault. fault ≡ OutOfMemory) }
{
    for i in 0..count {
        if let Err(fault) = add_row(row_at(page, i), rect, out) {
            return Err(fault);
        }
    }
    Ok(())
}

// Adds a child's place if the bounds in its row meet the rectangle. The row has to lead to the child's page.
fn add_child(
    page: &[u8; PAGE_BYTES],
    i: u16,
    child: u64,
    place: u64,
    rect: &Rect,
    places: &mut Vec<u64>,
) -> Result<(), Unusable>
    requires kind { kind_of page.now ≡ RTREE_INNER }
    requires fits { row_count page.now ≤ most_rows RTREE_INNER }
    requires in_rows { i < row_count page.now }
    ensures place { OnOk result (places.new.items
        ≡ places.old.items ++ (if meets (bounds_in (slice_index_or (rows_on page.now) i [])) rect.now then place ∷ [] else [])) }
    ensures tested { OnOk result (IsTrue (meets (bounds_in (slice_index_or (rows_on page.now) i [])) rect.now)
        → from_be_bytes w32 (drop 8 (slice_index_or (rows_on page.now) i [])) ≡ child) }
    ensures bad { IfErr result (λ e. e ≡ Damaged → from_be_bytes w32 (drop 8 (slice_index_or (rows_on page.now) i [])) ≢ child) }
{
    if !meets_at(page, i, rect) {
        return Ok(());
    }
    if u64::from(child_at(page, i)) != child {
        return Err(Unusable::Damaged);
    }
    match places.push(place) {
        Ok(()) => Ok(()),
        Err(_) => Err(Unusable::OutOfMemory),
    }
}

// Adds the children of a page above the leaves whose bounds meet the rectangle, by their places in the level below.
pub(crate) fn add_children(
    page: &[u8; PAGE_BYTES],
    rows: u32,
    below: u8,
    at: u64,
    rect: &Rect,
    places: &mut Vec<u64>,
) -> Result<(), Unusable>
    requires level { below < 255 }
    requires at_below { at < 2 ^ 32 }
    ensures places { OnOk result (places.new.items ≡ places.old.items
        ++ filter (λ child. meets (bounds_in (slice_index_or (rows_on page.now) (child - at * 340) [])) rect.now) (numbers (at * 340) (row_count page.now))) }
    ensures few { OnOk result (row_count page.now ≤ 340) }
    ensures inside { OnOk result (at * 340 + row_count page.now ≤ level_size (tree_of rows) below) }
    ensures tested { OnOk result (IsInnerPageFor (tree_of rows) rect.now below at page.now) }
    ensures bad { IfErr result (λ e. e ≡ Damaged → IsInnerPage (tree_of rows) below at page.now → ⊥) }
{
    let count = match open_page(page, RTREE_INNER, below + 1) {
        Ok(count) => count,
        Err(_) => return Err(Unusable::Damaged),
    };
    let here = level_at(rows, below);
    let first = at * per_inner();
    if count == 0 || first + u64::from(count) > here.size {
        return Err(Unusable::Damaged);
    }
    for i in 0..count {
        let place = first + u64::from(i);
        if let Err(e) = add_child(page, i, here.start + place, place, rect, places) {
            return Err(e);
        }
    }
    Ok(())
}
