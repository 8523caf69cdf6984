// Ranges of values along the curve, and how they are gathered in ascending order.
ghost use Rattle.std.specs.Prelude.{◌≡◌, ℕ, ◌+◌, ◌*◌, ◌/◌, ◌^◌, ◌<◌, ◌≤◌, OnOk};
ghost use Rattle.region_cover.specs.Steps.{AreRunsBelow, Adds};

use hilbert_key::{CELL_ORDER, CellNumber, CurveValue};
use std::alloc::AllocError;

/// Values along the curve from one to another, both ends among them.
#[derive(Clone, Copy, Debug, PartialEq, Eq)]
pub struct Range {
    /// The first value.
    pub lo: CurveValue,
    /// The last value.
    pub hi: CurveValue,
}

impl Range {
    /// The first and the last cell that have values in the range.
    pub fn cells(&self) -> (CellNumber, CellNumber)
        ensures first { result.0 ≡ self.now.lo / (2 ^ CELL_ORDER * 2 ^ CELL_ORDER) }
        ensures last { result.1 ≡ self.now.hi / (2 ^ CELL_ORDER * 2 ^ CELL_ORDER) }
    {
        let lo = self.lo >> (2 * CELL_ORDER);
        let hi = self.hi >> (2 * CELL_ORDER);
        (lo as CellNumber, hi as CellNumber)
    }
}

// Adds the values from one to another to runs that are all below them.
pub(crate) fn add_run(
    ranges: &mut Vec<Range>,
    lo: CurveValue,
    hi: CurveValue,
) -> Result<(), AllocError>
    requires filled { lo ≤ hi }
    requires below { AreRunsBelow lo ranges.old.items }
    ensures runs { OnOk result (AreRunsBelow (hi + 1) ranges.new.items) }
    ensures adds { OnOk result (Adds (λ v. (lo ≤ v) × (v ≤ hi)) ranges.old.items ranges.new.items) }
{
    let len = ranges.len();
    if len > 0 && ranges[len - 1].hi + 1 == lo {
        ranges[len - 1].hi = hi;
    } else {
        ranges.push(Range { lo, hi })?;
    }
    Ok(())
}
