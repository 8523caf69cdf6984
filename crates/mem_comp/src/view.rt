//! A view of a component, which stays as it is.

ghost use Rattle.std.specs.Prelude.{◌≡◌, ◌++◌, length, OnOk, OnErr};
ghost use Rattle.order_merge.specs.Entries.{Reading, entry_at};
ghost use Rattle.order_merge.specs.Ascending.{Ascends};

use crate::search::entry_in;
use order_merge::Entry;
use std::alloc::AllocError;
use std::marker::Model;

/// The entries that a component had when it was shared, in ascending order of their keys.
#[derive(Drop)]
pub struct MemView<E: Entry> {
    pub(crate) entries: Vec<E>,
}

impl<E: Entry> Model for MemView<E> {
    ghost use Rattle.std.specs.Prelude.{List};
    ghost use Rattle.order_merge.specs.Ascending.{Ascends};

    ghost Value = { List E };

    ghost view = { λ v. v.entries.items };

    ghost invariant = { λ v. Ascends E.reading v.entries.items };
}

impl<E: Entry> MemView<E> {
    /// The entry of a key.
    pub fn get(&self, key: &E::Key) -> Option<E>
        ensures { result ≡ entry_at E.reading self.now key.now }
    {
        entry_in(&self.entries, key)
    }

    /// How many entries it has.
    pub fn len(&self) -> usize
        ensures { result ≡ length self.now }
    {
        self.entries.len()
    }

    /// Appends all entries, in order. Where memory is refused, `out` is as before.
    pub fn append_to(&self, out: &mut Vec<E>) -> Result<(), AllocError>
        ensures ok { OnOk result (out.new.items ≡ out.old.items ++ self.now) }
        ensures err { OnErr result (out.new.items ≡ out.old.items) }
        ensures ascends { Ascends E.reading self.now }
    {
        out.extend_from_slice(&self.entries)
    }
}
