// Where the component of a job is to stand.

ghost use Rattle.std.specs.Prelude.{◌≡◌, ◌++◌, length, MatchOption, MatchResult, IfOk};
ghost use Rattle.store_state.specs.Beginning.{ImageNeeds, HasRoom, IsFull, IsLowestClosed, AreAllTaken, is_taken};
ghost use Rattle.store_state.specs.Lists.{frozen_rows};

use crate::faults::BeginFault;
use comp_dir::{MOST_LIVE, SLOTS, Slot};
use mem_comp::MemView;
use primary_ix::{PrimRow, need};
use space_map::SpaceMap;
use std::alloc::{AllocError, Global};

/// The most rows that a component may have.
pub const MOST_ROWS: usize = 0xffff_ffff;

/// What is needed, and what there is, where there is no room for a component of any length.
const CROWDED: BeginFault = BeginFault::Full {
    need: 1,
    longest: 0,
};

/// How many rows wait for their component.
pub fn count_of(frozen: &Option<MemView<PrimRow>>) -> usize
    ensures { result ≡ length (frozen_rows frozen.now) }
{
    match frozen {
        Some(list) => list.len(),
        None => 0,
    }
}

/// These rows.
pub fn copied(alloc: Global, frozen: &Option<MemView<PrimRow>>) -> Result<Vec<PrimRow>, AllocError>
    ensures { IfOk result (λ rows. rows.items ≡ frozen_rows frozen.now) }
{
    let mut rows = Vec::new(alloc);
    if let Some(list) = frozen {
        list.append_to(&mut rows)?;
    }
    Ok(rows)
}

/// How many pages their image needs.
pub fn image_pages(frozen: &Option<MemView<PrimRow>>) -> u32
    ensures { ImageNeeds (frozen_rows frozen.now) result }
{
    need(count_of(frozen).min(MOST_ROWS) as u32)
}

fn is_taken(slots: &[(u16, Slot)], number: u16) -> bool
    ensures { result ≡ is_taken slots.now number }
{
    slots.iter().any(|numbered| numbered.0 == number)
}

fn is_taken_in_one(components: &[(u16, Slot)], ignored: &[(u16, Slot)], number: u16) -> bool
    ensures { result ≡ is_taken (components.now ++ ignored.now) number }
{
    is_taken(components, number) || is_taken(ignored, number)
}

// The lowest slot that is closed.
fn lowest_closed(components: &[(u16, Slot)], ignored: &[(u16, Slot)]) -> Option<u16>
    ensures { MatchOption result (AreAllTaken (components.now ++ ignored.now)) (IsLowestClosed (components.now ++ ignored.now)) }
{
    for number in 0..SLOTS {
        if !is_taken_in_one(components, ignored, number) {
            return Some(number);
        }
    }
    None
}

/// The slot for one component more, which has so many pages, where there is room for it.
pub fn slot_for(
    components: &[(u16, Slot)],
    ignored: &[(u16, Slot)],
    space: &SpaceMap,
    pages: u32,
) -> Result<u16, BeginFault>
    ensures slot { IfOk result (IsLowestClosed (components.now ++ ignored.now)) }
    ensures room { MatchResult result (λ _. HasRoom components.now ignored.now space.now pages) (IsFull components.now ignored.now space.now pages) }
{
    if components.len() >= MOST_LIVE {
        return Err(CROWDED);
    }
    let longest = space.longest();
    if longest < pages {
        return Err(BeginFault::Full {
            need: pages,
            longest,
        });
    }
    match lowest_closed(components, ignored) {
        Some(slot) => Ok(slot),
        None => Err(CROWDED),
    }
}
