//! The levels of an R-tree.

ghost use Rattle.std.specs.Prelude.{◌≡◌, ℕ, ◌*◌, ◌^◌, ◌<◌, ◌≤◌};
ghost use Rattle.tree_shape.specs.Shape.{level_size, level_start, IsRoot};
ghost use Rattle.rtree_image.specs.Image.{tree_of};

use page_codec::{RTREE_INNER, RTREE_LEAF, rows_per_page};
use tree_shape::{Level, Shape};

pub(crate) fn per_leaf() -> u64
    ensures { result ≡ 340 }
{
    u64::from(rows_per_page(RTREE_LEAF))
}

pub(crate) fn per_inner() -> u64
    ensures { result ≡ 340 }
{
    u64::from(rows_per_page(RTREE_INNER))
}

// The shape of a tree of so many rows.
pub(crate) fn shape(rows: u32) -> Shape
    ensures { result ≡ tree_of rows }
{
    Shape {
        per_leaf: rows_per_page(RTREE_LEAF),
        per_inner: rows_per_page(RTREE_INNER),
        rows,
    }
}

pub(crate) fn level_at(rows: u32, level: u8) -> Level
    ensures start { result.start ≡ level_start (tree_of rows) level }
    ensures size { result.size ≡ level_size (tree_of rows) level }
    ensures some { 1 ≤ result.size }
    ensures size_below { result.size < 2 ^ 32 }
    ensures start_below { result.start ≤ level * 2 ^ 32 }
{
    shape(rows).level_at(level)
}

pub(crate) fn root_level(rows: u32) -> u8
    ensures root { IsRoot (tree_of rows) result }
    ensures low { result ≤ 33 }
{
    shape(rows).root_level()
}
