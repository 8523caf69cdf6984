//! The Hilbert curve over the grid of points: the place of a point on it, the point of a place, and
//! the order of two points along it.
#![tactic(auto)]

ghost use Rattle.std.specs.Prelude.{◌≡◌, ℕ, suc, ◌+◌, ◌-◌, ◌*◌, ◌/◌, ◌^◌, ◌<◌, ◌≤◌, ◌↔◌, IsTrue, if◌then◌else◌};
ghost use Rattle.std.specs.Ordering.{nat_cmp};
ghost use Rattle.hilbert_key.specs.Curve.{curve_value};
ghost use Rattle.hilbert_key.specs.Cells.{cell_number};

use std::cmp::Ordering;

/// One coordinate of a point.
pub type Coord = u16;

/// How many points the curve goes through before a point.
pub type CurveValue = u32;

/// How many cells the curve goes through before a cell.
pub type CellNumber = u16;

/// The curve goes through all points of the square of side `2 ^ ORDER`.
pub const ORDER: u32 = 16;

/// A cell is an aligned square of side `2 ^ CELL_ORDER`.
pub const CELL_ORDER: u32 = 8;

/// The side of a square of an order.
#[tactic(auto, using(std::proofs::lemmas::Nat::one_shl, crate::specs::laws::Quadrants::side_fits))]
pub fn side(order: u32) -> CurveValue
    requires { order ≤ ORDER }
    ensures { result ≡ 2 ^ order }
{
    1 << order
}

// A quadrant of a square, by its place on the curve, and a point's place
// within it, turned as the curve turns there.
#[derive(Clone, Copy)]
struct Descent {
    quadrant: CurveValue,
    x: CurveValue,
    y: CurveValue,
}

// One of two numbers. A choice between numbers needs no jump, and jumps
// that depend on a point are mostly guessed wrong.
fn choice(test: bool, one: CurveValue, other: CurveValue) -> CurveValue
    ensures { result ≡ (if test then one else other) }
{
    if test { one } else { other }
}

// Where a coordinate lies in its half of a side.
fn within_half(is_upper: bool, n: CurveValue, half: CurveValue) -> CurveValue
    requires { IsTrue is_upper → half ≤ n }
    ensures { result ≡ (if is_upper then n - half else n) }
{
    n - choice(is_upper, half, 0)
}

// A place counted from the other end of a half, where the quadrant is turned.
fn turned(is_turned: bool, n: CurveValue, half: CurveValue) -> CurveValue
    requires { n < half }
    ensures { result ≡ (if is_turned then half - 1 - n else n) }
{
    choice(is_turned, half - 1 - n, n)
}

// From a point of a square to the quadrant that it lies in, and its place there.
fn descend(level: u32, x: CurveValue, y: CurveValue) -> Descent
    requires level_in { level < ORDER }
    requires x_in { x < 2 ^ suc level }
    requires y_in { y < 2 ^ suc level }
    ensures x_below { result.x < 2 ^ level }
    ensures y_below { result.y < 2 ^ level }
    ensures quadrant_below { result.quadrant < 4 }
    ensures value { curve_value (suc level) x y ≡ result.quadrant * 2 ^ level * 2 ^ level + curve_value level result.x result.y }
{
    let half = side(level);
    let is_right = x >= half;
    let is_upper = y >= half;
    let across = within_half(is_right, x, half);
    let up = within_half(is_upper, y, half);
    // `&&` would be a jump.
    let is_turned = is_right & !is_upper;
    Descent {
        quadrant: choice(is_right, choice(is_upper, 2, 3), choice(is_upper, 1, 0)),
        x: turned(is_turned, choice(is_upper, across, up), half),
        y: turned(is_turned, choice(is_upper, up, across), half),
    }
}

// How many aligned squares of side 2 ^ order the curve goes through before
// the one of a point: the point's value without its last digits of base 4.
fn squares_before(x: Coord, y: Coord, order: u32) -> CurveValue
    requires { order ≤ ORDER }
    ensures { result ≡ curve_value ORDER x y / (2 ^ order * 2 ^ order) }
{
    let mut x = CurveValue::from(x);
    let mut y = CurveValue::from(y);
    let mut squares: CurveValue = 0;
    let mut level = ORDER;
    while level > order {
        level -= 1;
        let step = descend(level, x, y);
        squares = 4 * squares + step.quadrant;
        x = step.x;
        y = step.y;
    }
    squares
}

/// The place of a point on the curve: how many points the curve goes through
/// before it, from (0, 0) on. The last point is (65535, 0).
///
/// The curve is that of Hilbert, "Ueber die stetige Abbildung einer Linie auf
/// ein Flächenstück" (1891), on a grid.
pub fn value(x: Coord, y: Coord) -> CurveValue
    ensures { result ≡ curve_value ORDER x y }
{
    squares_before(x, y, 0)
}

// A point of a square, one level up from a quadrant of it.
#[derive(Clone, Copy)]
struct Place {
    x: CurveValue,
    y: CurveValue,
}

// The way back, from a place in a quadrant to the point of the square.
#[tactic(auto, using(crate::specs::laws::Quadrants::raised_0, crate::specs::laws::Quadrants::raised_1, crate::specs::laws::Quadrants::raised_2, crate::specs::laws::Quadrants::raised_3, crate::specs::laws::Quadrants::side_fits))]
fn ascend(level: u32, quadrant: CurveValue, x: CurveValue, y: CurveValue) -> Place
    requires level_in { level < ORDER }
    requires quadrant_in { quadrant < 4 }
    requires x_in { x < 2 ^ level }
    requires y_in { y < 2 ^ level }
    ensures x_below { result.x < 2 ^ suc level }
    ensures y_below { result.y < 2 ^ suc level }
    ensures value { curve_value (suc level) result.x result.y ≡ quadrant * 2 ^ level * 2 ^ level + curve_value level x y }
{
    let half = side(level);
    match quadrant {
        0 => Place { x: y, y: x },
        1 => Place { x, y: y + half },
        2 => Place {
            x: x + half,
            y: y + half,
        },
        _ => Place {
            x: 2 * half - 1 - y,
            y: half - 1 - x,
        },
    }
}

/// The point at a place on the curve, the only one.
pub fn point_of(value: CurveValue) -> (Coord, Coord)
    ensures there { curve_value ORDER result.0 result.1 ≡ value }
    ensures only { (x y : ℕ) → x < 2 ^ ORDER → y < 2 ^ ORDER → curve_value ORDER x y ≡ value → (x, y) ≡ result }
{
    let mut rest = value;
    let mut x: CurveValue = 0;
    let mut y: CurveValue = 0;
    let mut level = 0;
    while level < ORDER {
        let place = ascend(level, rest % 4, x, y);
        rest /= 4;
        x = place.x;
        y = place.y;
        level += 1;
    }
    (x as Coord, y as Coord)
}

/// The order of two points along the curve.
///
/// It looks at no more than the quadrants, from the greatest square down,
/// that the two points share, and the first that they don't.
pub fn compare(a: (Coord, Coord), b: (Coord, Coord)) -> Ordering
    ensures { result ≡ nat_cmp (curve_value ORDER a.0 a.1) (curve_value ORDER b.0 b.1) }
{
    let mut a_x = CurveValue::from(a.0);
    let mut a_y = CurveValue::from(a.1);
    let mut b_x = CurveValue::from(b.0);
    let mut b_y = CurveValue::from(b.1);
    let mut level = ORDER;
    while level > 0 {
        level -= 1;
        let one = descend(level, a_x, a_y);
        let other = descend(level, b_x, b_y);
        if one.quadrant != other.quadrant {
            return one.quadrant.cmp(&other.quadrant);
        }
        a_x = one.x;
        a_y = one.y;
        b_x = other.x;
        b_y = other.y;
    }
    Ordering::Equal
}

/// The number of the cell that a point lies in.
pub fn cell(x: Coord, y: Coord) -> CellNumber
    ensures { result ≡ cell_number x y }
{
    squares_before(x, y, CELL_ORDER) as CellNumber
}

/// The first and the last value in the aligned square of side `2 ^ order`
/// around a point. They are those of its points and of no others, so the
/// curve goes through each aligned square in one stretch.
pub fn square_values(x: Coord, y: Coord, order: u32) -> (CurveValue, CurveValue)
    requires { order ≤ ORDER }
    ensures exactly { (p q : ℕ) → p < 2 ^ ORDER → q < 2 ^ ORDER
        → ((result.0 ≤ curve_value ORDER p q) × (curve_value ORDER p q ≤ result.1))
        ↔ ((p / 2 ^ order ≡ x / 2 ^ order) × (q / 2 ^ order ≡ y / 2 ^ order)) }
    ensures count { result.1 + 1 ≡ result.0 + 2 ^ order * 2 ^ order }
{
    let side = side(order);
    let first = squares_before(x, y, order) * side * side;
    (first, first + ((side - 1) * side + (side - 1)))
}
