//! The kind of rows that a tree can have.

ghost use Rattle.std.specs.Prelude.{◌≡◌, ℕ, Some, length};
ghost use Rattle.page_codec.specs.Page.{row_width};
ghost use Rattle.btree_image.specs.Rows.{Layout, IsStored};
ghost use Rattle.btree_image.specs.Kinds.{AreKinds};

use std::cmp::Ordering;

/// A row of a tree: its key, the order of keys, and how both are stored.
///
/// A row's bytes on a leaf begin with those of its key. Above the leaves a row is a key and the number of a page.
pub trait TreeRow: Copy {
    /// What rows are ordered by. No two rows of a tree have the same key.
    type Key: Copy;

    ghost layout: { Layout Self Self.Key };

    ghost LEAF: { ℕ };

    ghost INNER: { ℕ };

    ghost KEY_WIDTH: { ℕ };

    /// The kind of a leaf's page.
    const LEAF: u8;

    /// The kind of the pages above.
    const INNER: u8;

    /// The bytes of a key.
    const KEY_WIDTH: usize;

    /// The key of a row.
    fn row_key(&self) -> Self::Key
        ensures { result ≡ layout.key_of self.now };

    /// The order of keys, which is total: keys that are equal by it are the same.
    fn compare_keys(a: &Self::Key, b: &Self::Key) -> Ordering
        ensures { result ≡ layout.order a.now b.now };

    /// Writes the row's bytes, which begin with its key's, into a slice of just their length.
    fn write(&self, out: &mut [u8])
        requires { length out.old ≡ row_width layout.leaf }
        ensures bytes { out.new ≡ layout.to_bytes self.now }
        ensures stored { IsStored layout self.now };

    /// The row that was written so, or `None` where the bytes are no row.
    fn read(bytes: &[u8]) -> Option<Self>
        requires { length bytes.now ≡ row_width layout.leaf }
        ensures { result ≡ layout.of_bytes bytes.now };

    /// Writes the key's bytes into a slice of just their length.
    fn write_key(key: &Self::Key, out: &mut [u8])
        requires { length out.old ≡ layout.key_width }
        ensures { out.new ≡ layout.key_to_bytes key.now };

    /// The key that was written so. Bytes that were never written may give any key.
    fn read_key(bytes: &[u8]) -> Self::Key
        requires { length bytes.now ≡ layout.key_width }
        ensures { result ≡ layout.key_of_bytes bytes.now };

    ghost kinds: { AreKinds layout LEAF INNER KEY_WIDTH };
}
