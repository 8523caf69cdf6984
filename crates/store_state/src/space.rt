// The space that open slots take.

ghost use Rattle.std.specs.Prelude.{◌≡◌, ℕ, ◌≤◌, ◌||◌, ◌++◌, true, false, All, AllPairs, IfOk, OnOk};
ghost use Rattle.comp_dir.specs.Choosing.{shares_page};
ghost use Rattle.space_map.specs.Space.{is_reserved};
ghost use Rattle.space_map.specs.Calls.{IsSpace};
ghost use Rattle.store_state.specs.Lists.{extents_of};
ghost use Rattle.store_state.specs.EveryList.{IsOpenSlot};

use crate::components::extent_of;
use comp_dir::Slot;
use space_map::{LEAST_PAGES, MOST_PAGES, SpaceMap};
use std::alloc::{AllocError, Global};

// Reserves the extents of slots.
fn take_all(space: &mut SpaceMap, slots: &[(u16, Slot)]) -> Result<(), AllocError>
    requires space { IsSpace space.old }
    requires slots { All (IsOpenSlot space.old.pages) slots.now }
    requires apart { AllPairs (λ e f. shares_page e.1 f.1 ≡ false) slots.now }
    requires free { (page : ℕ) → is_reserved (extents_of slots.now) page ≡ true → is_reserved space.old.reserved page ≡ false }
    ensures pages { OnOk result (space.new.pages ≡ space.old.pages) }
    ensures space { OnOk result (IsSpace space.new) }
    ensures reserved { OnOk result ((page : ℕ) → is_reserved space.new.reserved page ≡ (is_reserved space.old.reserved page || is_reserved (extents_of slots.now) page)) }
{
    for (_, slot) in slots {
        space.take(extent_of(slot))?;
    }
    Ok(())
}

/// The map on which the extents of these slots are reserved, and nothing else.
pub fn space_of(
    alloc: Global,
    pages: u32,
    components: &[(u16, Slot)],
    ignored: &[(u16, Slot)],
) -> Result<SpaceMap, AllocError>
    requires least { LEAST_PAGES ≤ pages }
    requires most { pages ≤ MOST_PAGES }
    requires slots { All (IsOpenSlot pages) (components.now ++ ignored.now) }
    requires apart { AllPairs (λ e f. shares_page e.1 f.1 ≡ false) (components.now ++ ignored.now) }
    ensures pages { IfOk result (λ space. space.pages ≡ pages) }
    ensures space { IfOk result IsSpace }
    ensures reserved { IfOk result (λ space. (page : ℕ) → is_reserved space.reserved page ≡ is_reserved (extents_of (components.now ++ ignored.now)) page) }
{
    let mut space = SpaceMap::new(alloc, pages);
    take_all(&mut space, components)?;
    take_all(&mut space, ignored)?;
    Ok(space)
}
