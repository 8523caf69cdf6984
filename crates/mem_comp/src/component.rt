//! A component in memory.

ghost use Rattle.std.specs.Prelude.{◌≡◌, ℕ, ◌+◌, ◌≤◌, [], IsOk, IfOk, OnOk};
ghost use Rattle.order_merge.specs.Entries.{Reading, entry_at};
ghost use Rattle.order_merge.specs.Adding.{with_entry};
ghost use Rattle.order_merge.specs.Added.{without_key};

use crate::search::{entry_in, search};
use crate::view::MemView;
use order_merge::Entry;
use std::alloc::{AllocError, Global};
use std::marker::Model;
use std::mem::replace;

/// The entries of an index that are only in memory: at most one of each key, in ascending order of the keys. It is seen
/// as their list, and the number of entries that may be added before it has to grow.
#[derive(Drop)]
pub struct MemComp<E: Entry> {
    entries: Vec<E>,
}

impl<E: Entry> Model for MemComp<E> {
    ghost use Rattle.std.specs.Prelude.{ℕ, ◌-◌, List, vec_len, vec_capacity};
    ghost use Rattle.order_merge.specs.Ascending.{Ascends};

    ghost Value = { List E × ℕ };

    ghost view = { λ m. (m.entries.items, vec_capacity m.entries - vec_len m.entries) };

    ghost invariant = { λ m. Ascends E.reading m.entries.items };
}

impl<E: Entry> MemComp<E> {
    /// A component without entries. It takes no memory yet.
    pub fn new(alloc: Global) -> Self
        ensures { result.0 ≡ [] }
    {
        MemComp {
            entries: Vec::new(alloc),
        }
    }

    /// Makes room for so many entries. Where memory is refused, the room is as before.
    pub fn reserve(&mut self, n: usize) -> Result<(), AllocError>
        ensures entries { self.new.0 ≡ self.old.0 }
        ensures room { OnOk result (n ≤ self.new.1) }
        ensures kept { self.old.1 ≤ self.new.1 }
        ensures had_room { n ≤ self.old.1 → IsOk result }
    {
        self.entries.reserve(n)
    }

    /// Puts an entry in the place of the one with its key, or new in its place.
    pub fn add(&mut self, entry: E)
        requires { 1 ≤ self.old.1 }
        ensures entries { self.new.0 ≡ with_entry E.reading entry self.old.0 }
        ensures room { self.old.1 ≤ self.new.1 + 1 }
    {
        match search(&self.entries, &entry.key()) {
            Ok(at) => self.entries[at] = entry,
            Err(at) => {
                // There is room, so it isn't refused.
                let _ = self.entries.insert(at, entry);
            }
        }
    }

    /// Takes the entry of a key out, if there is one.
    pub fn drop_key(&mut self, key: &E::Key)
        ensures entries { self.new.0 ≡ without_key E.reading key.now self.old.0 }
        ensures room { self.old.1 ≤ self.new.1 }
    {
        if let Ok(at) = search(&self.entries, key) {
            self.entries.remove(at);
        }
    }

    /// Gives the list away, and is empty then. It takes no memory.
    pub fn set_aside(&mut self) -> MemView<E>
        ensures view { result ≡ self.old.0 }
        ensures entries { self.new.0 ≡ [] }
    {
        let alloc = *self.entries.allocator();
        MemView {
            entries: replace(&mut self.entries, Vec::new(alloc)),
        }
    }

    /// The list as it is now. What is changed afterwards isn't seen there.
    pub fn share(&self) -> Result<MemView<E>, AllocError>
        ensures { IfOk result (λ view. view ≡ self.now.0) }
    {
        Ok(MemView {
            entries: Vec::from_slice(*self.entries.allocator(), &self.entries)?,
        })
    }

    /// The entry of a key.
    pub fn get(&self, key: &E::Key) -> Option<E>
        ensures { result ≡ entry_at E.reading self.now.0 key.now }
    {
        entry_in(&self.entries, key)
    }
}
