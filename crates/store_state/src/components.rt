// The components of the primary as readers need them.

ghost use Rattle.std.specs.Prelude.{◌≡◌, ◌<◌, ◌≤◌, ◌∷◌, vec_len, length, IfOk};
ghost use Rattle.store_state.specs.Lists.{extent_of, tree_of, extents_of, trees_of};

use comp_dir::{MOST_LIVE, Slot};
use primary_ix::PrimComp;
use space_map::Extent;
use std::alloc::{AllocError, Global};
use std::marker::Model;
use tree_shape::TreeRef;

/// The components of the primary, the newest first, each with the number of its slot. There is room for as many as there
/// may be, so that one more takes no memory.
#[derive(Drop)]
pub struct Components {
    slots: Vec<(u16, Slot)>,
    trees: Vec<PrimComp>,
    extents: Vec<Extent>,
}

impl Model for Components {
    ghost use Rattle.std.specs.Prelude.{List, vec_capacity};
    ghost use Rattle.comp_dir.specs.Directory.{Numbered};
    ghost use Rattle.store_state.specs.Room.{AreInStep};

    ghost Value = { List Numbered };

    ghost view = { λ c. c.slots.items };

    ghost invariant = { λ c. AreInStep c.slots.items c.trees.items c.extents.items (vec_capacity c.slots) (vec_capacity c.trees) (vec_capacity c.extents) };
}

pub(crate) fn extent_of(slot: &Slot) -> Extent
    ensures { result ≡ extent_of slot.now }
{
    Extent {
        first: slot.first,
        pages: slot.pages,
    }
}

fn tree_of(slot: &Slot) -> PrimComp
    ensures { result ≡ tree_of slot.now }
{
    PrimComp {
        tree: TreeRef {
            first: slot.first,
            rows: slot.main_rows,
        },
    }
}

impl Components {
    /// The components of these slots, the newest first.
    pub fn of_slots(alloc: Global, slots: Vec<(u16, Slot)>) -> Result<Components, AllocError>
        requires { vec_len slots ≤ MOST_LIVE }
        ensures { IfOk result (λ components. components ≡ slots.items) }
    {
        let mut slots = slots;
        slots.reserve(MOST_LIVE - slots.len())?;
        let mut trees = Vec::with_capacity(alloc, MOST_LIVE)?;
        let mut extents = Vec::with_capacity(alloc, MOST_LIVE)?;
        for (_, slot) in &slots {
            trees.push(tree_of(slot))?;
            extents.push(extent_of(slot))?;
        }
        Ok(Components {
            slots,
            trees,
            extents,
        })
    }

    /// Puts a component before the others.
    pub fn add(&mut self, number: u16, slot: Slot)
        requires { length self.old < MOST_LIVE }
        ensures { self.new ≡ (number, slot) ∷ self.old }
    {
        // There is room, so none is refused.
        let _ = self.trees.insert(0, tree_of(&slot));
        let _ = self.extents.insert(0, extent_of(&slot));
        let _ = self.slots.insert(0, (number, slot));
    }

    /// Their slots, each with its number.
    pub fn slots(&self) -> &[(u16, Slot)]
        ensures { result.now ≡ self.now }
    {
        &self.slots
    }

    /// Their trees.
    pub fn trees(&self) -> &[PrimComp]
        ensures { result.now ≡ trees_of self.now }
    {
        &self.trees
    }

    /// Their extents.
    pub fn extents(&self) -> &[Extent]
        ensures { result.now ≡ extents_of self.now }
    {
        &self.extents
    }
}
