//! The image of a list, written page by page.

ghost use Rattle.std.specs.Prelude.{◌≡◌, ℕ, suc, [], ◌∷◌, ◌+◌, ◌*◌, ◌^◌, ◌<◌, ◌≤◌, ◌++◌, List, length};
ghost use Rattle.std.specs.Int.{to_be_bytes, w32};
ghost use Rattle.page_codec.specs.Page.{ShowsRows, kind_of, row_count, row_width, most_rows};
ghost use Rattle.page_codec.specs.Written.{page_of};
ghost use Rattle.page_codec.specs.Adding.{AllOfWidth};
ghost use Rattle.tree_shape.specs.Shape.{level_size, level_start, span, IsRoot, IsPlace};
ghost use Rattle.btree_image.specs.Image.{shape_of, level_rows, level_kind};
ghost use Rattle.btree_image.specs.Pages.{level_page};

use crate::TreeRow;
use crate::levels::{level_at, per_inner, per_leaf, shape};
use page_codec::{PAGE_BYTES, new_page, put_row, width_of};
use tree_shape::Spot;

// The most bytes of a row of any kind.
const MOST_WIDTH: usize = 78;

/// How many pages the image of so many rows has: one more than stand before its root, which is the last. Each page of the
/// image has a number below it.
pub fn pages_for<T: TreeRow>(rows: u32) -> u32
    ensures root { (root : ℕ) × IsRoot (shape_of T.layout rows) root × (result ≡ level_start (shape_of T.layout rows) root + 1) }
    ensures last { (root : ℕ) → IsRoot (shape_of T.layout rows) root → result ≡ level_start (shape_of T.layout rows) root + 1 }
    ensures all { (level at : ℕ) → IsPlace (shape_of T.layout rows) level at → level_start (shape_of T.layout rows) level + at < result }
{
    shape::<T>(rows).pages() as u32
}

// The place of a page by its number in the image.
fn spot_of<T: TreeRow>(rows: u32, n: u32) -> Spot
    requires { (root : ℕ) → IsRoot (shape_of T.layout rows) root → n ≤ level_start (shape_of T.layout rows) root }
    ensures place { IsPlace (shape_of T.layout rows) result.level result.at }
    ensures number { level_start (shape_of T.layout rows) result.level + result.at ≡ n }
    ensures low { result.level ≤ 33 }
{
    shape::<T>(rows).spot_of(n)
}

// How many rows stand below each full page of a level.
fn rows_below<T: TreeRow>(rows: u32, level: u8) -> u64
    requires { (below : ℕ) → below ≤ level → 1 < level_size (shape_of T.layout rows) below }
    ensures span { result ≡ span (shape_of T.layout rows) level }
    ensures below { result < 2 ^ 32 }
{
    shape::<T>(rows).span(level)
}

// The row of a child: a key, and the child's number.
fn write_child<T: TreeRow>(key: &T::Key, child: u32, out: &mut [u8])
    requires { length out.old ≡ T.layout.key_width + 4 }
    ensures { out.new ≡ T.layout.key_to_bytes key.now ++ to_be_bytes w32 child }
{
    T::write_key(key, &mut out[..T::KEY_WIDTH]);
    out[T::KEY_WIDTH..].copy_from_slice(&child.to_be_bytes());
}

// Puts the row of a child on a page above the leaves: a key, and the child's number.
fn put_child<T: TreeRow>(key: &T::Key, child: u32, page: &mut [u8; PAGE_BYTES])
    requires kind { kind_of page.old ≡ T.layout.inner }
    requires room { row_count page.old < most_rows T.layout.inner }
    ensures written { (level : ℕ) (rows : List (List ℕ)) → page.old ≡ page_of T.layout.inner level rows → AllOfWidth (row_width T.layout.inner) rows
        → page.new ≡ page_of T.layout.inner level (rows ++ (T.layout.key_to_bytes key.now ++ to_be_bytes w32 child) ∷ []) }
    ensures width { length (T.layout.key_to_bytes key.now ++ to_be_bytes w32 child) ≡ row_width T.layout.inner }
{
    let mut bytes = [0; MOST_WIDTH];
    let width = T::KEY_WIDTH + 4;
    write_child::<T>(key, child, &mut bytes[..width]);
    put_row(page, &bytes[..width]);
}

// Writes a leaf.
fn load_leaf<T: TreeRow>(rows: &[T], at: u64, page: &mut [u8; PAGE_BYTES])
    requires count { length rows.now < 2 ^ 32 }
    requires inside { at < level_size (shape_of T.layout (length rows.now)) 0 }
    ensures page { page.new ≡ level_page T.layout rows.now 0 at }
    ensures shows { ShowsRows T.layout.leaf 0 (level_rows T.layout rows.now 0 at) page.new }
{
    let many = per_leaf::<T>();
    let from = (at * many) as usize;
    let to = (from + many as usize).min(rows.len());
    let width = width_of(T::LEAF);
    let mut bytes = [0; MOST_WIDTH];
    new_page(T::LEAF, 0, page);
    for i in from..to {
        rows[i].write(&mut bytes[..width]);
        put_row(page, &bytes[..width]);
    }
}

// Writes a page above the leaves.
fn load_inner<T: TreeRow>(rows: &[T], below: u8, at: u64, page: &mut [u8; PAGE_BYTES])
    requires count { length rows.now < 2 ^ 32 }
    requires level { below < 255 }
    requires place { IsPlace (shape_of T.layout (length rows.now)) (suc below) at }
    ensures page { page.new ≡ level_page T.layout rows.now (suc below) at }
    ensures shows { ShowsRows T.layout.inner (suc below) (level_rows T.layout rows.now (suc below) at) page.new }
{
    let here = level_at::<T>(rows.len() as u32, below);
    let step = rows_below::<T>(rows.len() as u32, below);
    let many = per_inner::<T>();
    let from = at * many;
    let to = (from + many).min(here.size);
    new_page(T::INNER, below + 1, page);
    for child in from..to {
        let key = rows[(child * step) as usize].row_key();
        put_child::<T>(&key, (here.start + child) as u32, page);
    }
}

/// Writes page `n` of the image of a list.
///
/// The leaves come first, left to right and full but for the last, then each next level in the same way, and the root is
/// the last page. A row above the leaves has the least key of its child, and the child's number in the image.
pub fn load_page<T: TreeRow>(rows: &[T], n: u32, page: &mut [u8; PAGE_BYTES])
    requires count { length rows.now < 2 ^ 32 }
    requires inside { (root : ℕ) → IsRoot (shape_of T.layout (length rows.now)) root → n ≤ level_start (shape_of T.layout (length rows.now)) root }
    ensures page { (level at : ℕ) → IsPlace (shape_of T.layout (length rows.now)) level at → level_start (shape_of T.layout (length rows.now)) level + at ≡ n
        → page.new ≡ level_page T.layout rows.now level at }
    ensures shows { (level at : ℕ) → IsPlace (shape_of T.layout (length rows.now)) level at → level_start (shape_of T.layout (length rows.now)) level + at ≡ n
        → ShowsRows (level_kind T.layout level) level (level_rows T.layout rows.now level at) page.new }
{
    let spot = spot_of::<T>(rows.len() as u32, n);
    if spot.level == 0 {
        load_leaf(rows, spot.at, page);
    } else {
        load_inner(rows, spot.level - 1, spot.at, page);
    }
}
