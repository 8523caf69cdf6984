//! A search in one page: binary, over the rows where they stand.

ghost use Rattle.std.specs.Prelude.{◌≡◌, ◌≢◌, ℕ, suc, [], ◌+◌, ◌<◌, ◌≤◌, Some, length, OnOk, OnErr, IfOk, IfErr, IfSome, IfNone, MatchResult, List, None, slice_index_or, take, drop, if◌then◌else◌};
ghost use Rattle.std.specs.Ordering.{eq_by_cmp};
ghost use Rattle.std.specs.Int.{from_be_bytes, w32};
ghost use Rattle.page_codec.specs.Page.{most_rows, row_width, row_count, rows_on, kind_of, IsPage};
ghost use Rattle.page_codec.specs.Adding.{IsKind};
ghost use Rattle.btree_image.specs.Rows.{Layout};
ghost use Rattle.btree_image.specs.Steps.{reaches, precedes, IsLastUpTo, row_at};
ghost use Rattle.btree_image.specs.Damage.{AllReadable};

use crate::TreeRow;
use page_codec::{BadPage, PAGE_BYTES, open_page, row};
use std::cmp::Ordering;

// Whether the key at the front of a row is at most that key.
fn reaches<T: TreeRow>(page: &[u8; PAGE_BYTES], i: u16, key: &T::Key) -> bool
    requires kind { IsKind (kind_of page.now) }
    requires width { T.layout.key_width ≤ row_width (kind_of page.now) }
    requires fits { row_count page.now ≤ most_rows (kind_of page.now) }
    requires in_rows { i < row_count page.now }
    ensures { result ≡ reaches T.layout key.now (slice_index_or (rows_on page.now) i []) }
{
    let at = T::read_key(&row(page, i)[..T::KEY_WIDTH]);
    T::compare_keys(&at, key) != Ordering::Greater
}

// The last row whose key is at most that key, or the first row. Where keys don't ascend it is some row.
pub(crate) fn last_up_to<T: TreeRow>(page: &[u8; PAGE_BYTES], count: u16, key: &T::Key) -> u16
    requires kind { IsKind (kind_of page.now) }
    requires width { T.layout.key_width ≤ row_width (kind_of page.now) }
    requires fits { row_count page.now ≤ most_rows (kind_of page.now) }
    requires all { count ≡ row_count page.now }
    requires some { 0 < count }
    ensures in_rows { result < count }
    ensures last { (place : ℕ) → IsLastUpTo T.layout key.now (rows_on page.now) place → result ≡ place }
{
    let mut low = 0;
    let mut high = count;
    while high - low > 1 {
        let middle = low + (high - low) / 2;
        if reaches::<T>(page, middle, key) {
            low = middle;
        } else {
            high = middle;
        }
    }
    low
}

// Whether the key at the front of a row is below that key.
fn precedes<T: TreeRow>(page: &[u8; PAGE_BYTES], i: u16, key: &T::Key) -> bool
    requires kind { IsKind (kind_of page.now) }
    requires width { T.layout.key_width ≤ row_width (kind_of page.now) }
    requires fits { row_count page.now ≤ most_rows (kind_of page.now) }
    requires in_rows { i < row_count page.now }
    ensures { result ≡ precedes T.layout key.now (slice_index_or (rows_on page.now) i []) }
{
    let at = T::read_key(&row(page, i)[..T::KEY_WIDTH]);
    T::compare_keys(&at, key) == Ordering::Less
}

// How many rows have a key that is at most that key.
pub(crate) fn rows_up_to<T: TreeRow>(page: &[u8; PAGE_BYTES], count: u16, key: &T::Key) -> u16
    requires kind { IsKind (kind_of page.now) }
    requires width { T.layout.key_width ≤ row_width (kind_of page.now) }
    requires fits { row_count page.now ≤ most_rows (kind_of page.now) }
    requires all { count ≡ row_count page.now }
    ensures most { result ≤ count }
    ensures rows { (place : ℕ) → IsLastUpTo T.layout key.now (rows_on page.now) place
        → result ≡ (if reaches T.layout key.now (slice_index_or (rows_on page.now) place []) then place + 1 else place) }
{
    if count == 0 {
        return 0;
    }
    let last = last_up_to::<T>(page, count, key);
    if reaches::<T>(page, last, key) {
        last + 1
    } else {
        last
    }
}

// How many rows have a key that is below that key.
pub(crate) fn rows_before<T: TreeRow>(page: &[u8; PAGE_BYTES], count: u16, key: &T::Key) -> u16
    requires kind { IsKind (kind_of page.now) }
    requires width { T.layout.key_width ≤ row_width (kind_of page.now) }
    requires fits { row_count page.now ≤ most_rows (kind_of page.now) }
    requires all { count ≡ row_count page.now }
    ensures most { result ≤ count }
    ensures rows { (place : ℕ) → IsLastUpTo T.layout key.now (rows_on page.now) place
        → result ≡ (if precedes T.layout key.now (slice_index_or (rows_on page.now) place []) then place + 1 else place) }
{
    if count == 0 {
        return 0;
    }
    let last = last_up_to::<T>(page, count, key);
    if precedes::<T>(page, last, key) {
        last + 1
    } else {
        last
    }
}

fn child_in(bytes: &[u8]) -> u32
    requires { length bytes.now ≡ 4 }
    ensures { result ≡ from_be_bytes w32 bytes.now }
{
    u32::from_be_bytes([bytes[0], bytes[1], bytes[2], bytes[3]])
}

// The page to which a row above the leaves leads.
pub(crate) fn child_of<T: TreeRow>(page: &[u8; PAGE_BYTES], i: u16) -> u32
    requires kind { kind_of page.now ≡ T.layout.inner }
    requires fits { row_count page.now ≤ most_rows T.layout.inner }
    requires in_rows { i < row_count page.now }
    ensures { result ≡ from_be_bytes w32 (drop T.layout.key_width (slice_index_or (rows_on page.now) i [])) }
{
    child_in(&row(page, i)[T::KEY_WIDTH..])
}

// The child to which a descent goes in a page above the leaves.
pub(crate) fn child_for<T: TreeRow>(
    page: &[u8; PAGE_BYTES],
    level: u8,
    key: &T::Key,
) -> Result<u32, BadPage>
    ensures child { IfOk result (λ child. (i : ℕ) × (i < row_count page.now) × (child ≡ from_be_bytes w32 (drop T.layout.key_width (slice_index_or (rows_on page.now) i [])))
        × ((place : ℕ) → IsLastUpTo T.layout key.now (rows_on page.now) place → i ≡ place)) }
    ensures page { OnOk result (IsPage T.layout.inner level page.now) }
    ensures bad { OnErr result (IsPage T.layout.inner level page.now → row_count page.now ≡ 0) }
{
    let count = open_page(page, T::INNER, level)?;
    if count == 0 {
        return Err(BadPage);
    }
    Ok(child_of::<T>(page, last_up_to::<T>(page, count, key)))
}

// Whether the row at a place of a leaf has that key.
fn has_key<T: TreeRow>(row: &[u8], key: &T::Key) -> bool
    requires { length row.now ≡ row_width T.layout.leaf }
    ensures { result ≡ eq_by_cmp T.layout.order (T.layout.key_of_bytes (take T.layout.key_width row.now)) key.now }
{
    T::compare_keys(&T::read_key(&row[..T::KEY_WIDTH]), key) == Ordering::Equal
}

// The row of a leaf that has that key.
pub(crate) fn row_for<T: TreeRow>(
    page: &[u8; PAGE_BYTES],
    key: &T::Key,
) -> Result<Option<T>, BadPage>
    ensures row { (place : ℕ) → IsLastUpTo T.layout key.now (rows_on page.now) place → IfOk result (λ found. found ≡ row_at T.layout key.now (slice_index_or (rows_on page.now) place [])) }
    ensures none { row_count page.now ≡ 0 → IfOk result (λ found. found ≡ None) }
    ensures page { OnOk result (IsPage T.layout.leaf 0 page.now) }
    ensures bad { OnErr result (IsPage T.layout.leaf 0 page.now → AllReadable T.layout (rows_on page.now) → ⊥) }
{
    let count = open_page(page, T::LEAF, 0)?;
    if count == 0 {
        return Ok(None);
    }
    let bytes = row(page, last_up_to::<T>(page, count, key));
    if !has_key::<T>(bytes, key) {
        return Ok(None);
    }
    match T::read(bytes) {
        Some(found) => Ok(Some(found)),
        None => Err(BadPage),
    }
}
