//! What a list holds.

ghost use Rattle.std.specs.Prelude.{◌≡◌};
ghost use Rattle.order_merge.specs.Entries.{Reading};
ghost use Rattle.order_merge.specs.Ascending.{IsKeyOrder};

use std::cmp::Ordering;

/// An entry of an index. It has a key, by which its list ascends, and hides the entries of that key in older lists.
/// An anti entry does no more than that: where it is the newest entry of its key, none of that key lives.
pub trait Entry: Copy + Drop {
    /// What a list has at most one entry of.
    type Key: Copy + Drop;

    ghost reading: { Reading Self Self.Key };

    /// The entry's key.
    fn key(&self) -> Self::Key
        ensures { result ≡ reading.key_of self.now };

    /// Whether the entry only hides older ones.
    fn anti(&self) -> bool
        ensures { result ≡ reading.is_anti self.now };

    /// How two keys stand in the order of the lists.
    fn compare(a: &Self::Key, b: &Self::Key) -> Ordering
        ensures { result ≡ reading.order a.now b.now };

    ghost key_order: { IsKeyOrder reading.order };
}
