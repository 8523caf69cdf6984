//! The kinds of pages and the widths of their rows: one table, which another format of rows changes here alone.

ghost use Rattle.std.specs.Prelude.{◌≡◌, ℕ, ◌<◌, ◌↔◌, IsTrue};
ghost use Rattle.page_codec.specs.Page.{row_width};
ghost use Rattle.page_codec.specs.Adding.{IsKind};

/// A row of the primary: key 8, anti 1, length of the note 1, x 2, y 2, note 64.
pub const PRIMARY_LEAF: u8 = 1;

/// Key 8, child 4.
pub const PRIMARY_INNER: u8 = 2;

/// X 2, y 2, key 8.
pub const RTREE_LEAF: u8 = 3;

/// X1 2, y1 2, x2 2, y2 2, child 4.
pub const RTREE_INNER: u8 = 4;

/// A deleted key: key 8.
pub const DELETED_LEAF: u8 = 5;

/// Key 8, child 4.
pub const DELETED_INNER: u8 = 6;

/// X 2, y 2, key 8, anti 1.
pub const DHB_LEAF: u8 = 7;

/// X 2, y 2, key 8, child 4.
pub const DHB_INNER: u8 = 8;

/// Curve value 4, key 8, anti 1.
pub const DHVB_LEAF: u8 = 9;

/// Curve value 4, key 8, child 4.
pub const DHVB_INNER: u8 = 10;

/// Cell 2, key 8, anti 1.
pub const SHB_LEAF: u8 = 11;

/// Cell 2, key 8, child 4.
pub const SHB_INNER: u8 = 12;

/// A row of the dictionary: cell 2, first posting 4, count 4.
pub const DICTIONARY_LEAF: u8 = 13;

/// Cell 2, child 4.
pub const DICTIONARY_INNER: u8 = 14;

/// Key 8, anti 1.
pub const POSTINGS: u8 = 15;

/// The bytes of a row, by the kind of its page; 0 where no page has that kind.
pub const WIDTHS: [usize; 16] = [0, 78, 12, 12, 12, 8, 12, 13, 16, 13, 16, 11, 14, 10, 6, 9];

/// Whether pages have this kind.
pub fn is_kind(kind: u8) -> bool
    ensures { IsTrue result ↔ IsKind kind }
{
    usize::from(kind) < WIDTHS.len() && WIDTHS[kind as usize] > 0
}

/// The bytes of a row on pages of this kind.
pub fn width_of(kind: u8) -> usize
    requires { IsKind kind }
    ensures { result ≡ row_width kind }
{
    WIDTHS[kind as usize]
}
