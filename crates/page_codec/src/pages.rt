//! A page as bytes. Nothing here copies a page or allocates.

ghost use Rattle.std.specs.Prelude.{◌≡◌, ℕ, ◌+◌, ◌-◌, ◌*◌, ◌<◌, ◌≤◌, List, [], ◌∷◌, ◌++◌, length, slice_index, slice_index_or, OkIff, IsTrue, ◌↔◌};
ghost use Rattle.page_codec.specs.Page.{row_width, most_rows, kind_of, row_count, rows_on, IsPage};
ghost use Rattle.page_codec.specs.Written.{page_of};
ghost use Rattle.page_codec.specs.Adding.{IsKind, AllOfWidth, with_row};

use crate::kinds::width_of;
use std::error::Error;
use std::fmt;

pub const PAGE_BYTES: usize = 4096;

/// Kind, level, number of rows, and bytes of 0; the rows follow.
pub const HEADER_BYTES: usize = 8;

const KIND_AT: usize = 0;

const LEVEL_AT: usize = 1;

const COUNT_AT: usize = 2;

const RESERVED_AT: usize = 4;

/// The bytes are no page of the kind and level that was asked for.
#[derive(Clone, Copy, Debug, PartialEq, Eq)]
pub struct BadPage;

impl fmt::Display for BadPage {
    ghost use Rattle.std.specs.Prelude.{codes, Some};

    ghost output = { λ _. Some (codes "not a page of the kind and level that was asked for") };

    fn fmt<W: fmt::Write>(&self, f: &mut fmt::Formatter<W>) -> fmt::Result {
        write!(f, "not a page of the kind and level that was asked for")
    }
}

impl Error for BadPage {}

/// How many rows a page of this kind has at most.
pub fn rows_per_page(kind: u8) -> u16
    requires { IsKind kind }
    ensures { result ≡ most_rows kind }
{
    ((PAGE_BYTES - HEADER_BYTES) / width_of(kind)) as u16
}

// The number of rows in the header.
fn count_of(page: &[u8; PAGE_BYTES]) -> u16
    ensures { result ≡ row_count page.now }
{
    u16::from(page[COUNT_AT]) * 256 + u16::from(page[COUNT_AT + 1])
}

// Whether the reserved bytes of the header are 0.
fn has_zeros(page: &[u8; PAGE_BYTES]) -> bool
    ensures { IsTrue result ↔ ((k : ℕ) → RESERVED_AT ≤ k → k < HEADER_BYTES → slice_index page.now k ≡ 0) }
{
    page[RESERVED_AT..HEADER_BYTES]
        .iter()
        .all(|byte| *byte == 0)
}

/// Writes a page without rows. A leaf and a page of postings have level 0.
pub fn new_page(kind: u8, level: u8, page: &mut [u8; PAGE_BYTES])
    requires { IsKind kind }
    ensures { page.new ≡ page_of kind level [] }
{
    *page = [0; PAGE_BYTES];
    page[KIND_AT] = kind;
    page[LEVEL_AT] = level;
}

/// The number of rows of a page of this kind and level, or `BadPage` where the header is not that of such a page: its
/// kind or level differs, it has more rows than fit, or a reserved byte is not 0. The rows are not looked at.
pub fn open_page(page: &[u8; PAGE_BYTES], kind: u8, level: u8) -> Result<u16, BadPage>
    requires { IsKind kind }
    ensures { OkIff result (IsPage kind level page.now) (row_count page.now) }
{
    let count = count_of(page);
    if page[KIND_AT] == kind
        && page[LEVEL_AT] == level
        && count <= rows_per_page(kind)
        && has_zeros(page)
    {
        Ok(count)
    } else {
        Err(BadPage)
    }
}

/// The bytes of row `i`, where they stand on the page.
pub fn row(page: &[u8; PAGE_BYTES], i: u16) -> &[u8]
    requires kind { IsKind (kind_of page.now) }
    requires fits { row_count page.now ≤ most_rows (kind_of page.now) }
    requires in_rows { i < row_count page.now }
    ensures row { result.now ≡ slice_index_or (rows_on page.now) i [] }
    ensures width { length result.now ≡ row_width (kind_of page.now) }
{
    let width = width_of(page[KIND_AT]);
    let at = HEADER_BYTES + usize::from(i) * width;
    &page[at..at + width]
}

/// Puts a row behind the others. All else on the page stays, but for the number of its rows.
pub fn put_row(page: &mut [u8; PAGE_BYTES], row: &[u8])
    requires kind { IsKind (kind_of page.old) }
    requires width { length row.now ≡ row_width (kind_of page.old) }
    requires room { row_count page.old < most_rows (kind_of page.old) }
    ensures bytes { page.new ≡ with_row page.old row.now }
    ensures rows { rows_on page.new ≡ rows_on page.old ++ row.now ∷ [] }

    // A page as it is written stays one.
    ensures written { (kind level : ℕ) (rows : List (List ℕ)) → page.old ≡ page_of kind level rows → AllOfWidth (row_width kind) rows
        → page.new ≡ page_of kind level (rows ++ row.now ∷ []) }
{
    let count = count_of(page);
    let at = HEADER_BYTES + usize::from(count) * row.len();
    page[at..at + row.len()].copy_from_slice(row);
    page[COUNT_AT] = ((count + 1) / 256) as u8;
    page[COUNT_AT + 1] = ((count + 1) % 256) as u8;
}
