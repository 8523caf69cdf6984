//! The levels of a tree for a kind of rows.

ghost use Rattle.std.specs.Prelude.{◌≡◌, ℕ, ◌+◌, ◌*◌, ◌^◌, ◌<◌, ◌≤◌};
ghost use Rattle.page_codec.specs.Page.{most_rows};
ghost use Rattle.tree_shape.specs.Shape.{level_size, level_start, IsRoot};
ghost use Rattle.btree_image.specs.Image.{shape_of};

use crate::TreeRow;
use page_codec::rows_per_page;
use tree_shape::{Level, Shape};

pub(crate) fn per_leaf<T: TreeRow>() -> u64
    ensures rows { result ≡ most_rows T.layout.leaf }
    ensures some { 52 ≤ result }
    ensures most { result ≤ 4088 }
{
    u64::from(rows_per_page(T::LEAF))
}

pub(crate) fn per_inner<T: TreeRow>() -> u64
    ensures rows { result ≡ most_rows T.layout.inner }
    ensures some { 52 ≤ result }
    ensures most { result ≤ 4088 }
{
    u64::from(rows_per_page(T::INNER))
}

// The shape of a tree of so many rows.
pub(crate) fn shape<T: TreeRow>(rows: u32) -> Shape
    ensures shape { result ≡ shape_of T.layout rows }
    ensures per_leaf { 1 ≤ result.per_leaf }
    ensures per_inner { 2 ≤ result.per_inner }
{
    Shape {
        per_leaf: rows_per_page(T::LEAF),
        per_inner: rows_per_page(T::INNER),
        rows,
    }
}

pub(crate) fn level_at<T: TreeRow>(rows: u32, level: u8) -> Level
    ensures start { result.start ≡ level_start (shape_of T.layout rows) level }
    ensures size { result.size ≡ level_size (shape_of T.layout rows) level }
    ensures some { 1 ≤ result.size }
    ensures size_below { result.size < 2 ^ 32 }
    ensures start_below { result.start ≤ level * 2 ^ 32 }
{
    shape::<T>(rows).level_at(level)
}

pub(crate) fn root_level<T: TreeRow>(rows: u32) -> u8
    ensures root { IsRoot (shape_of T.layout rows) result }
    ensures low { result ≤ 33 }
{
    shape::<T>(rows).root_level()
}
