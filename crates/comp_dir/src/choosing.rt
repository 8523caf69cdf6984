// Which open slots are live, and which of them breaks a rule.
ghost use Rattle.std.specs.Prelude.{◌≡◌, ◌+◌, ◌<◌, ◌≤◌, ◌&&◌, ◌||◌, not, ℕ, length, IfOk, IfErr, OnOk, Some, None};
ghost use Rattle.std.specs.List.{list_any};
ghost use Rattle.comp_dir.specs.Faults.{WhereBad, IsNotFailed};
ghost use Rattle.comp_dir.specs.Choosing.{shares_page, shares_lsn, is_inside, is_equal, same_index, is_hidden_by, is_ignored, is_live, live_slots, clashes, is_lower, overlaps_lower, clashes_with_lower, is_followed_by, continues, lower_of_index, fits_live, is_bad, bad_slot};
ghost use Rattle.comp_dir.specs.Ignored.{ignored_slots};
ghost use Rattle.comp_dir.specs.Words.{Chooses};

use crate::faults::DirFault;
use crate::places::MOST_LIVE;
use crate::slots::Slot;
use std::alloc::{AllocError, Global};

/// The live and the ignored slots, each with its number and in the order of the list.
#[derive(Drop)]
pub struct ChosenSlots {
    /// Those that have a component.
    pub live: Vec<(u16, Slot)>,
    /// Those whose writes another slot of the index has too.
    pub ignored: Vec<(u16, Slot)>,
}

fn shares_page(slot: &Slot, other: &Slot) -> bool
    ensures { result ≡ shares_page slot.now other.now }
{
    let end = u64::from(slot.first) + u64::from(slot.pages);
    let other_end = u64::from(other.first) + u64::from(other.pages);
    u64::from(slot.first.max(other.first)) < end.min(other_end)
}

fn shares_lsn(slot: &Slot, other: &Slot) -> bool
    ensures { result ≡ shares_lsn slot.now other.now }
{
    slot.first_lsn.max(other.first_lsn) <= slot.last_lsn.min(other.last_lsn)
}

fn is_inside(slot: &Slot, other: &Slot) -> bool
    ensures { result ≡ is_inside slot.now other.now }
{
    other.first_lsn <= slot.first_lsn && slot.last_lsn <= other.last_lsn
}

fn is_equal(slot: &Slot, other: &Slot) -> bool
    ensures { result ≡ is_equal slot.now other.now }
{
    slot.first_lsn == other.first_lsn && slot.last_lsn == other.last_lsn
}

fn is_hidden_by(slot: &Slot, other: &Slot) -> bool
    ensures { result ≡ is_hidden_by slot.now other.now }
{
    slot.index == other.index && is_inside(slot, other) && !is_equal(slot, other)
}

fn clashes(slot: &Slot, other: &Slot) -> bool
    ensures { result ≡ clashes slot.now other.now }
{
    slot.index == other.index
        && (is_equal(slot, other)
            || (shares_lsn(slot, other) && !is_inside(slot, other) && !is_inside(other, slot)))
}

fn is_followed_by(other: &Slot, slot: &Slot) -> bool
    ensures { result ≡ is_followed_by other.now slot.now }
{
    other.index == slot.index
        && other.last_lsn < slot.first_lsn
        && slot.first_lsn - other.last_lsn == 1
}

fn is_ignored(all: &[(u16, Slot)], numbered: &(u16, Slot)) -> bool
    ensures { result ≡ is_ignored all.now numbered.now }
{
    all.iter().any(|other| is_hidden_by(&numbered.1, &other.1))
}

fn overlaps_lower(all: &[(u16, Slot)], numbered: &(u16, Slot)) -> bool
    ensures { result ≡ overlaps_lower all.now numbered.now }
{
    all.iter().any(|other| other.0 < numbered.0 && shares_page(&other.1, &numbered.1))
}

fn clashes_with_lower(all: &[(u16, Slot)], numbered: &(u16, Slot)) -> bool
    ensures { result ≡ clashes_with_lower all.now numbered.now }
{
    all.iter().any(|other| other.0 < numbered.0 && clashes(&other.1, &numbered.1))
}

/// Whether one of these slots is of the index and ends right before.
fn is_behind_one(live: &[(u16, Slot)], numbered: &(u16, Slot)) -> bool
    ensures { result ≡ list_any (λ other. is_followed_by other.1 numbered.now.1) live.now }
{
    live.iter()
        .any(|other| is_followed_by(&other.1, &numbered.1))
}

fn continues(live: &[(u16, Slot)], numbered: &(u16, Slot)) -> bool
    ensures { result ≡ continues live.now numbered.now }
{
    numbered.1.first_lsn == 1 || is_behind_one(live, numbered)
}

/// How many of these slots are lower and of the index.
#[tactic(auto, using(crate::proofs::Walking::one_more_lower))]
fn lower_of_index(live: &[(u16, Slot)], numbered: &(u16, Slot)) -> usize
    ensures { result ≡ length (lower_of_index live.now numbered.now) }
{
    let mut count = 0;
    for other in live {
        if other.0 < numbered.0 && other.1.index == numbered.1.index {
            count += 1;
        }
    }
    count
}

fn is_bad(all: &[(u16, Slot)], live: &[(u16, Slot)], numbered: &(u16, Slot)) -> bool
    requires { live.now ≡ live_slots all.now }
    ensures { result ≡ is_bad all.now numbered.now }
{
    if overlaps_lower(all, numbered) || clashes_with_lower(all, numbered) {
        return true;
    }
    !is_ignored(all, numbered)
        && !(continues(live, numbered) && lower_of_index(live, numbered) < MOST_LIVE)
}

#[tactic(auto, using(crate::proofs::Walking::one_more_part))]
fn part(slots: &[(u16, Slot)], alloc: Global) -> Result<ChosenSlots, AllocError>
    ensures live { IfOk result (λ parted. parted.live.items ≡ live_slots slots.now) }
    ensures ignored { IfOk result (λ parted. parted.ignored.items ≡ ignored_slots slots.now) }
{
    let mut live = Vec::new(alloc);
    let mut ignored = Vec::new(alloc);
    for numbered in slots {
        if is_ignored(slots, numbered) {
            if ignored.push(*numbered).is_err() {
                return Err(AllocError);
            }
        } else if live.push(*numbered).is_err() {
            return Err(AllocError);
        }
    }
    Ok(ChosenSlots { live, ignored })
}

fn first_bad(slots: &[(u16, Slot)], live: &[(u16, Slot)]) -> Option<u16>
    requires { live.now ≡ live_slots slots.now }
    ensures { result ≡ bad_slot slots.now }
{
    for numbered in slots {
        if is_bad(slots, live, numbered) {
            return Some(numbered.0);
        }
    }
    None
}

/// The live and the ignored ones of the open slots of a directory, which come by number. `BadSlot` names the first of them that
/// breaks a rule that speaks of more slots than one: extents share no page; intervals of an index are nested or apart; a
/// live one begins with write 1 or right behind another live one; an index has 16 live ones at most.
pub fn chosen(slots: &[(u16, Slot)], alloc: Global) -> Result<ChosenSlots, DirFault>
    ensures chosen { IfOk result (λ chosen. Chooses slots.now chosen.live.items chosen.ignored.items) }
    ensures bad { IfErr result (λ fault. WhereBad fault (λ n. bad_slot slots.now ≡ Some n)) }
    ensures not_failed { IfErr result IsNotFailed }
{
    let parted = match part(slots, alloc) {
        Ok(parted) => parted,
        Err(_) => return Err(DirFault::OutOfMemory),
    };
    if let Some(n) = first_bad(slots, parted.live.as_slice()) {
        return Err(DirFault::BadSlot(n));
    }
    Ok(parted)
}
