//! An order of points that is given from outside.

ghost use Rattle.std.specs.Prelude.{◌≡◌};
ghost use Rattle.stored_rules.specs.PointOrder.{curve_order, AnswersCurveOrder};

use hilbert_key::Coord;
use std::cmp::Ordering;

/// A point of the grid.
pub type Point2 = (Coord, Coord);

/// A function that orders points, made by the caller.
pub type PointOrder = Box<dyn Fn(Point2, Point2) -> Ordering + Send + Sync>;

/// An order of points that is known to be that of their values along the curve. A search may rest on this, whatever
/// function stands behind it.
#[derive(Drop)]
pub struct OrderedBy {
    order: PointOrder,
    ghost callable: { PointOrder.IsAlwaysCallable order },
    ghost answers: { AnswersCurveOrder (λ a b r. PointOrder.post order a b r) },
}

impl OrderedBy {
    /// Keeps a function whose every answer is the order of two points along the curve.
    pub fn new(order: PointOrder) -> Self
        requires callable { IsAlwaysCallable order }
        requires answers { AnswersCurveOrder (λ a b r. post order a b r) }
    {
        OrderedBy { order }
    }

    /// The order of two points along the curve.
    pub fn compare(&self, a: Point2, b: Point2) -> Ordering
        ensures { result ≡ curve_order a b }
    {
        (self.order)(a, b)
    }
}
