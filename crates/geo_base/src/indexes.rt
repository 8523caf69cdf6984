// Sets of indexes.
ghost use Rattle.std.specs.Prelude.{◌≡◌, ◌≤◌, ◌<◌, Some, None, nat_le, if◌then◌else◌};
ghost use Rattle.geo_base.specs.Indexes.{bit_of, has_index};

use crate::points::IndexKind;
use std::marker::Model;

/// The greatest set of indexes, as bits: all five.
pub const ALL_INDEXES: u8 = 31;

/// A subset of the five indexes. Contracts see its bits.
#[derive(Clone, Copy, Debug, PartialEq, Eq)]
pub struct IndexSet {
    bits: u8,
}

impl Model for IndexSet {
    ghost use Rattle.std.specs.Prelude.{ℕ, ◌≤◌};
    ghost use Rattle.geo_base.specs.declared.indexes.TheConstants.{ALL_INDEXES};

    ghost Value = { ℕ };

    ghost view = { λ s. s.bits };

    ghost invariant = { λ s. s.bits ≤ ALL_INDEXES };

    ghost inverse = { λ bits. record { bits = bits } };
}

// The bit of an index.
fn bit_of(kind: IndexKind) -> u8
    ensures is { result ≡ bit_of kind }
    ensures below { result < 5 }
{
    match kind {
        IndexKind::Rtree => 0,
        IndexKind::Dhb => 1,
        IndexKind::Dhvb => 2,
        IndexKind::Shb => 3,
        IndexKind::Sif => 4,
    }
}

impl IndexSet {
    /// The set of these bits: bit 0 is the R-tree, bit 4 the spatial inverted file. `None` exactly where a higher bit is set.
    pub fn of_bits(bits: u8) -> Option<IndexSet>
        ensures { result ≡ (if nat_le bits ALL_INDEXES then Some bits else None) }
    {
        if bits <= ALL_INDEXES {
            Some(IndexSet { bits })
        } else {
            None
        }
    }

    /// Whether the set has this index.
    pub fn has(&self, kind: IndexKind) -> bool
        ensures { result ≡ has_index self.now kind }
    {
        self.bits >> bit_of(kind) & 1 == 1
    }

    /// The set as bits.
    pub fn bits(&self) -> u8
        ensures is { result ≡ self.now }
        ensures few { result ≤ ALL_INDEXES }
    {
        self.bits
    }
}
