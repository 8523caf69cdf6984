//! The cover of a rectangle: the values along the curve of all points whose cell meets it, as ranges.
//! An index that is kept in the curve's order is searched by these ranges.
#![tactic(auto)]

ghost use Rattle.std.specs.Prelude.{◌≡◌, ℕ, ◌+◌, ◌*◌, ◌^◌, ◌<◌, ◌≤◌, ◌↔◌, IsTrue, OnOk, IfOk};
ghost use Rattle.hilbert_key.specs.Cells.{cell_number};
ghost use Rattle.region_cover.specs.Cover.{CellMeets, IsCellAmong, IsCover};
ghost use Rattle.region_cover.specs.Steps.{Has, IsPart, HasValue, AreRunsBelow, Adds};

mod parts;
mod ranges;

use geo_base::Rect;
use hilbert_key::{CELL_ORDER, CellNumber, Coord, CurveValue, ORDER, point_of, side};
use parts::{Part, Span};
pub use ranges::Range;
use ranges::add_run;
use std::alloc::{AllocError, Global};

// The points of all cells that the rectangle meets.
fn cells_met(rect: &Rect) -> Part
    ensures rect { (rect.now.x2 < 2 ^ ORDER) × (rect.now.y2 < 2 ^ ORDER) }
    ensures part { IsPart (2 ^ ORDER) result }
    ensures exactly { (x y : ℕ) → x < 2 ^ ORDER → y < 2 ^ ORDER → Has result (x, y) ↔ CellMeets rect.now (cell_number x y) }
{
    let (x1, y1, x2, y2) = rect.corners();
    Part {
        x: Span::of_cells(x1, x2),
        y: Span::of_cells(y1, y2),
    }
}

// Adds the values of a part of a square of the curve, whose values begin at
// `first`. A whole square is one run of values, and else its quadrants are
// visited in the order of the curve.
fn add_part(
    order: u32,
    first: CurveValue,
    part: Part,
    ranges: &mut Vec<Range>,
) -> Result<(), AllocError>
    requires order_in { order ≤ ORDER }
    requires part_in { IsPart (2 ^ order) part }
    requires room { first + 2 ^ order * 2 ^ order ≤ 2 ^ ORDER * 2 ^ ORDER }
    requires below { AreRunsBelow first ranges.old.items }
    ensures runs { OnOk result (AreRunsBelow (first + 2 ^ order * 2 ^ order) ranges.new.items) }
    ensures adds { OnOk result (Adds (HasValue order first part) ranges.old.items ranges.new.items) }
{
    let whole = side(order);
    if part.is_whole(whole) {
        return add_run(ranges, first, first + ((whole - 1) * whole + (whole - 1)));
    }
    let below = order - 1;
    let half = side(below);
    for quadrant in 0..4 {
        if let Some(inner) = part.in_quadrant(half, quadrant) {
            add_part(below, first + quadrant * half * half, inner, ranges)?;
        }
    }
    Ok(())
}

/// The cover of a rectangle, ascending.
///
/// It takes no memory but the list's.
pub fn cover(alloc: Global, rect: &Rect) -> Result<Vec<Range>, AllocError>
    ensures cover { IfOk result (λ ranges. IsCover rect.now ranges.items) }
    // Taken as cells, the ranges are the cells that meet the rectangle.
    ensures cells { IfOk result (λ ranges. (cell : ℕ) → CellMeets rect.now cell ↔ IsCellAmong ranges.items cell) }
{
    let mut ranges = Vec::new(alloc);
    add_part(ORDER, 0, cells_met(rect), &mut ranges)?;
    Ok(ranges)
}

/// Whether the square of a cell meets the rectangle.
pub fn meets(cell: CellNumber, rect: &Rect) -> bool
    ensures { IsTrue result ↔ CellMeets rect.now cell }
{
    let (x, y) = point_of(CurveValue::from(cell) << (2 * CELL_ORDER));
    cells_met(rect).has(x, y)
}
