//! The rectangle round the points of a list.

ghost use Rattle.std.specs.Prelude.{◌≡◌, ℕ, List, length, ◌++◌};
ghost use Rattle.std.specs.Int.{to_be_bytes, w32};
ghost use Rattle.rtree_image.specs.Bounds.{bounding, widened, bounds_bytes, meets};

use crate::rows::{ROW_BYTES, RtRow};
use geo_base::{MOST_COORDINATE, Point, Rect};

/// The least and the greatest coordinates of some points, edges included.
#[derive(Clone, Copy)]
pub(crate) struct Bounds {
    pub(crate) x1: u16,
    pub(crate) y1: u16,
    pub(crate) x2: u16,
    pub(crate) y2: u16,
}

// The bounds of one point more.
fn widen(bounds: Bounds, point: Point) -> Bounds
    ensures { result ≡ widened bounds point }
{
    Bounds {
        x1: bounds.x1.min(point.x),
        y1: bounds.y1.min(point.y),
        x2: bounds.x2.max(point.x),
        y2: bounds.y2.max(point.y),
    }
}

// The bounds of the points of these rows.
pub(crate) fn bounds_of(rows: &[RtRow]) -> Bounds
    ensures { result ≡ bounding rows.now }
{
    let mut bounds = Bounds {
        x1: MOST_COORDINATE,
        y1: MOST_COORDINATE,
        x2: 0,
        y2: 0,
    };
    for i in 0..rows.len() {
        bounds = widen(bounds, rows[i].point);
    }
    bounds
}

// Whether the bounds and a rectangle have a point in common.
pub(crate) fn meets(bounds: Bounds, rect: &Rect) -> bool
    ensures { result ≡ meets bounds rect.now }
{
    let (x1, y1, x2, y2) = rect.corners();
    bounds.x1 <= x2 && x1 <= bounds.x2 && bounds.y1 <= y2 && y1 <= bounds.y2
}

// The bytes of a row above the leaves.
pub(crate) fn child_bytes(bounds: Bounds, child: u32) -> [u8; ROW_BYTES]
    ensures { result ≡ bounds_bytes bounds ++ to_be_bytes w32 child }
{
    let [a, b] = bounds.x1.to_be_bytes();
    let [c, d] = bounds.y1.to_be_bytes();
    let [e, f] = bounds.x2.to_be_bytes();
    let [g, h] = bounds.y2.to_be_bytes();
    let [i, j, k, l] = child.to_be_bytes();
    [a, b, c, d, e, f, g, h, i, j, k, l]
}
