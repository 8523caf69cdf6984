// The part of a square of the curve that lies in a rectangle.
ghost use Rattle.std.specs.Prelude.{◌≡◌, ℕ, ◌+◌, ◌-◌, ◌*◌, ◌/◌, ◌^◌, ◌<◌, ◌≤◌, ◌↔◌, IsTrue, IfSome, IsSomeAnd};
ghost use Rattle.hilbert_key.specs.laws.Quadrants.{raised};
ghost use Rattle.region_cover.specs.Steps.{IsIn, IsSpan, Has, IsPart};

use hilbert_key::{CELL_ORDER, Coord, CurveValue, ORDER, side};

// Coordinates from one to another, both ends among them.
#[derive(Clone, Copy)]
pub(crate) struct Span {
    pub(crate) first: CurveValue,
    pub(crate) last: CurveValue,
}

impl Span {
    // All coordinates whose cells lie between two others', with those.
    pub(crate) fn of_cells(first: Coord, last: Coord) -> Span
        requires { first ≤ last }
        ensures span { IsSpan (2 ^ ORDER) result }
        ensures exactly { (n : ℕ) → IsIn result n ↔ ((first / 2 ^ CELL_ORDER ≤ n / 2 ^ CELL_ORDER) × (n / 2 ^ CELL_ORDER ≤ last / 2 ^ CELL_ORDER)) }
    {
        let cell_side = side(CELL_ORDER);
        Span {
            first: CurveValue::from(first) / cell_side * cell_side,
            last: CurveValue::from(last) / cell_side * cell_side + (cell_side - 1),
        }
    }

    // What lies in the lower half of a side.
    fn lower(self, half: CurveValue) -> Option<Span>
        requires { self.first ≤ self.last }
        ensures span { IfSome result (IsSpan half) }
        ensures exactly { (n : ℕ) → n < half → IsSomeAnd result (λ s. IsIn s n) ↔ IsIn self n }
    {
        if self.first >= half {
            return None;
        }
        Some(Span {
            first: self.first,
            last: self.last.min(half - 1),
        })
    }

    // What lies in the upper half, counted from there.
    fn upper(self, half: CurveValue) -> Option<Span>
        requires { IsSpan (2 * half) self }
        ensures span { IfSome result (IsSpan half) }
        ensures exactly { (n : ℕ) → n < half → IsSomeAnd result (λ s. IsIn s n) ↔ IsIn self (n + half) }
    {
        if self.last < half {
            return None;
        }
        Some(Span {
            first: self.first.saturating_sub(half),
            last: self.last - half,
        })
    }

    // The same coordinates, counted from the other end.
    fn reversed(self, side: CurveValue) -> Span
        requires { IsSpan side self }
        ensures span { IsSpan side result }
        ensures exactly { (n : ℕ) → n < side → IsIn result n ↔ IsIn self (side - 1 - n) }
    {
        Span {
            first: side - 1 - self.last,
            last: side - 1 - self.first,
        }
    }
}

// The points of a square that lie in a rectangle.
#[derive(Clone, Copy)]
pub(crate) struct Part {
    pub(crate) x: Span,
    pub(crate) y: Span,
}

impl Part {
    pub(crate) fn has(self, x: Coord, y: Coord) -> bool
        ensures { IsTrue result ↔ Has self (x, y) }
    {
        let (x, y) = (CurveValue::from(x), CurveValue::from(y));
        self.x.first <= x && x <= self.x.last && self.y.first <= y && y <= self.y.last
    }

    pub(crate) fn is_whole(self, side: CurveValue) -> bool
        requires { IsPart side self }
        ensures { IsTrue result ↔ ((self.x.first ≡ 0) × (self.x.last + 1 ≡ side) × (self.y.first ≡ 0) × (self.y.last + 1 ≡ side)) }
    {
        let last = side - 1;
        self.x.first == 0 && self.x.last == last && self.y.first == 0 && self.y.last == last
    }

    // The points whose coordinates lie in two spans, where neither is empty.
    fn from_spans(x: Option<Span>, y: Option<Span>) -> Option<Part>
        ensures part { (side : ℕ) → IfSome x (IsSpan side) → IfSome y (IsSpan side) → IfSome result (IsPart side) }
        ensures exactly { (u w : ℕ) → IsSomeAnd result (λ p. Has p (u, w)) ↔ (IsSomeAnd x (λ s. IsIn s u) × IsSomeAnd y (λ s. IsIn s w)) }
    {
        match (x, y) {
            (Some(x), Some(y)) => Some(Part { x, y }),
            _ => None,
        }
    }

    // What lies in a quadrant, turned as the curve turns there.
    pub(crate) fn in_quadrant(self, half: CurveValue, quadrant: CurveValue) -> Option<Part>
        requires half { half < 2 ^ 31 }
        requires part { IsPart (2 * half) self }
        requires quadrant { quadrant < 4 }
        ensures part { IfSome result (IsPart half) }
        ensures exactly { (u w : ℕ) → u < half → w < half → IsSomeAnd result (λ p. Has p (u, w)) ↔ Has self (raised half quadrant u w) }
    {
        let (x, y) = (self.x, self.y);
        match quadrant {
            0 => Part::from_spans(y.lower(half), x.lower(half)),
            1 => Part::from_spans(x.lower(half), y.upper(half)),
            2 => Part::from_spans(x.upper(half), y.upper(half)),
            _ => {
                let (x, y) = (x.reversed(2 * half), y.reversed(2 * half));
                Part::from_spans(y.upper(half), x.lower(half))
            }
        }
    }
}
