//! The image of a list, written page by page.

ghost use Rattle.std.specs.Prelude.{◌≡◌, ℕ, suc, [], ◌∷◌, ◌+◌, ◌*◌, ◌^◌, ◌<◌, ◌≤◌, ◌++◌, List, length};
ghost use Rattle.page_codec.specs.Page.{ShowsRows, kind_of, row_count, row_width, most_rows};
ghost use Rattle.page_codec.specs.Written.{page_of};
ghost use Rattle.page_codec.specs.Adding.{AllOfWidth};
ghost use Rattle.page_codec.specs.declared.kinds.TheConstants.{RTREE_LEAF, RTREE_INNER};
ghost use Rattle.tree_shape.specs.Shape.{level_size, level_start, span, IsRoot, IsPlace};
ghost use Rattle.rtree_image.specs.Bounds.{bounding};
ghost use Rattle.rtree_image.specs.Image.{tree_of, rows_below, level_rows, level_kind, level_page};

use crate::bounds::{Bounds, bounds_of, child_bytes};
use crate::levels::{level_at, per_inner, per_leaf, shape};
use crate::rows::{RtRow, to_bytes};
use page_codec::{PAGE_BYTES, RTREE_INNER, RTREE_LEAF, new_page, put_row};
use tree_shape::Spot;

/// How many pages the image of so many rows has: one more than stand before its root, which is the last. Each page of the
/// image has a number below it.
pub fn pages_for(rows: u32) -> u32
    ensures root { (root : ℕ) × IsRoot (tree_of rows) root × (result ≡ level_start (tree_of rows) root + 1) }
    ensures last { (root : ℕ) → IsRoot (tree_of rows) root → result ≡ level_start (tree_of rows) root + 1 }
    ensures all { (level at : ℕ) → IsPlace (tree_of rows) level at → level_start (tree_of rows) level + at < result }
{
    shape(rows).pages() as u32
}

// The place of a page by its number in the image.
fn spot_of(rows: u32, n: u32) -> Spot
    requires { (root : ℕ) → IsRoot (tree_of rows) root → n ≤ level_start (tree_of rows) root }
    ensures place { IsPlace (tree_of rows) result.level result.at }
    ensures number { level_start (tree_of rows) result.level + result.at ≡ n }
    ensures low { result.level ≤ 33 }
{
    shape(rows).spot_of(n)
}

// How many rows stand below each full page of a level.
fn step_of(rows: u32, level: u8) -> u64
    requires { (below : ℕ) → below ≤ level → 1 < level_size (tree_of rows) below }
    ensures span { result ≡ span (tree_of rows) level }
    ensures below { result < 2 ^ 32 }
{
    shape(rows).span(level)
}

// Writes a leaf.
fn load_leaf(rows: &[RtRow], at: u64, page: &mut [u8; PAGE_BYTES])
    requires count { length rows.now < 2 ^ 32 }
    requires inside { at < level_size (tree_of (length rows.now)) 0 }
    ensures page { page.new ≡ level_page rows.now 0 at }
    ensures shows { ShowsRows RTREE_LEAF 0 (level_rows (tree_of (length rows.now)) rows.now 0 at) page.new }
{
    let many = per_leaf();
    let from = (at * many) as usize;
    let to = (from + many as usize).min(rows.len());
    new_page(RTREE_LEAF, 0, page);
    for i in from..to {
        put_row(page, &to_bytes(&rows[i]));
    }
}

// The bounds of the points below a child.
fn child_bounds(rows: &[RtRow], step: u64, child: u64) -> Bounds
    requires count { length rows.now < 2 ^ 32 }
    requires step { step < 2 ^ 32 }
    requires inside { child * step < length rows.now }
    ensures { (level : ℕ) → step ≡ span (tree_of (length rows.now)) level
        → result ≡ bounding (rows_below (tree_of (length rows.now)) rows.now level child) }
{
    let from = (child * step) as usize;
    let to = (from + step as usize).min(rows.len());
    bounds_of(&rows[from..to])
}

// Writes a page above the leaves.
fn load_inner(rows: &[RtRow], below: u8, at: u64, page: &mut [u8; PAGE_BYTES])
    requires count { length rows.now < 2 ^ 32 }
    requires level { below < 255 }
    requires place { IsPlace (tree_of (length rows.now)) (suc below) at }
    ensures page { page.new ≡ level_page rows.now (suc below) at }
    ensures shows { ShowsRows RTREE_INNER (suc below) (level_rows (tree_of (length rows.now)) rows.now (suc below) at) page.new }
{
    let here = level_at(rows.len() as u32, below);
    let step = step_of(rows.len() as u32, below);
    let many = per_inner();
    let from = at * many;
    let to = (from + many).min(here.size);
    new_page(RTREE_INNER, below + 1, page);
    for child in from..to {
        let bounds = child_bounds(rows, step, child);
        put_row(page, &child_bytes(bounds, (here.start + child) as u32));
    }
}

/// Writes page `n` of the image of a list.
///
/// The leaves come first, left to right and full but for the last, then each next level in the same way, and the root is
/// the last page. A row above the leaves has the least and the greatest coordinates of the points below its child, and the
/// child's number in the image.
pub fn load_page(rows: &[RtRow], n: u32, page: &mut [u8; PAGE_BYTES])
    requires count { length rows.now < 2 ^ 32 }
    requires inside { (root : ℕ) → IsRoot (tree_of (length rows.now)) root → n ≤ level_start (tree_of (length rows.now)) root }
    ensures page { (level at : ℕ) → IsPlace (tree_of (length rows.now)) level at → level_start (tree_of (length rows.now)) level + at ≡ n
        → page.new ≡ level_page rows.now level at }
    ensures shows { (level at : ℕ) → IsPlace (tree_of (length rows.now)) level at → level_start (tree_of (length rows.now)) level + at ≡ n
        → ShowsRows (level_kind level) level (level_rows (tree_of (length rows.now)) rows.now level at) page.new }
{
    let spot = spot_of(rows.len() as u32, n);
    if spot.level == 0 {
        load_leaf(rows, spot.at, page);
    } else {
        load_inner(rows, spot.level - 1, spot.at, page);
    }
}
