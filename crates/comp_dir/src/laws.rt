// Laws of the directory, each as the contract of a function that does nothing.
ghost use Rattle.std.specs.Prelude.{◌≡◌, ◌+◌, ◌<◌, ◌≤◌, ◌↔◌, ◌==◌, not, ℕ, IsTrue, List, [], ◌∷◌, None, Some};
ghost use Rattle.std.specs.List.{filter};
ghost use Rattle.dev_model.specs.Story.{Story, Calls, Sync, after, bytes_of, with_call};
ghost use Rattle.dev_model.specs.Writes.{AreSpared};
ghost use Rattle.comp_dir.specs.Places.{slot_start};
ghost use Rattle.comp_dir.specs.Slots.{slot_bytes, slot_of};
ghost use Rattle.comp_dir.specs.Ranges.{HasRanges};
ghost use Rattle.comp_dir.specs.Directory.{Directory, IsLooked, open_slots};
ghost use Rattle.comp_dir.specs.State.{IsWritten, IsReady, HasStayed, with_slot, without_slot};
ghost use Rattle.comp_dir.specs.Resting.{IsAtRest};
ghost use Rattle.comp_dir.specs.Choosing.{shares_page, shares_lsn, bad_slot, live_slots, Opens};
ghost use Rattle.comp_dir.specs.Ignored.{ignored_slots, numbers};
ghost use Rattle.comp_dir.specs.Adding.{IsAddable, MayBeAdded, MayBeClosed, HasOneMore};
ghost use Rattle.comp_dir.specs.Words.{IsPageOf, IsLsnOf};
ghost use Rattle.comp_dir.specs.Examples.{component, merged, with_gap};
ghost use Rattle.comp_dir.specs.declared.slots.Slot.{Slot};

use crate::places::SLOT_BYTES;

/// A law: a directory that is on the disk stays there and reads as it did, now and after a crash at each later moment, until
/// a place is written that is looked at in it.
pub fn directory_stays()
    ensures { (s : Story) (calls : Calls) → IsAtRest s → ((i : ℕ) → IsLooked (bytes_of s) i → AreSpared calls i)
        → HasStayed s (after s calls) }
{}

/// A law: a sync puts the bytes of a written slot on the disk, and they stay there until something is written over them.
pub fn written_slot_stays()
    ensures ready { (n : ℕ) (slot : Slot) (s : Story) → IsWritten n slot s → IsReady n slot (with_call s Sync) }
    ensures stays { (n : ℕ) (slot : Slot) (s : Story) (calls : Calls) → IsReady n slot s
        → ((i : ℕ) → slot_start n ≤ i → i < slot_start n + SLOT_BYTES → AreSpared calls i) → IsReady n slot (after s calls) }
{}

/// A law: a slot is read back from its bytes, where its numbers fit.
pub fn slot_is_read_back()
    ensures { (s : Slot) → HasRanges s → slot_of (slot_bytes s) ≡ s }
{}

/// A law: what the tests of two slots mean.
pub fn tests_mean()
    ensures pages { (s t : Slot) → IsTrue (shares_page s t) ↔ ((p : ℕ) × IsPageOf s p × IsPageOf t p) }
    ensures lsns { (s t : Slot) → IsTrue (shares_lsn s t) ↔ ((n : ℕ) × IsLsnOf s n × IsLsnOf t n) }
{}

/// A law: of slots 0 and 1 of dhb with the writes 1 to 5 and 6 to 9, and slot 2 with 1 to 9, slot 2 is live and the others
/// are ignored. Of slots 0 and 1 with the writes 1 to 5 and 7 to 9, slot 1 is bad.
pub fn worked_directories()
    ensures merged { (bad_slot merged ≡ None) × (numbers (live_slots merged) ≡ 2 ∷ []) × (numbers (ignored_slots merged) ≡ 0 ∷ 1 ∷ []) }
    ensures with_gap { bad_slot with_gap ≡ Some 1 }
{}

/// A law: where a slot may be added, the directory with it may be opened. The slot is live there, each other one that is
/// open stays live or ignored as it was, and their order stays.
pub fn slot_may_be_added()
    ensures opens { (pages declared n : ℕ) (new : Slot) (slots : Directory) → MayBeAdded pages declared n new slots
        → Opens pages declared (with_slot n new slots) }
    ensures open { (pages declared n : ℕ) (new : Slot) (slots : Directory) → MayBeAdded pages declared n new slots
        → HasOneMore (n, new) (open_slots slots) (open_slots (with_slot n new slots)) }
    ensures live { (pages declared n : ℕ) (new : Slot) (slots : Directory) → MayBeAdded pages declared n new slots
        → HasOneMore (n, new) (live_slots (open_slots slots)) (live_slots (open_slots (with_slot n new slots))) }
    ensures ignored { (pages declared n : ℕ) (new : Slot) (slots : Directory) → MayBeAdded pages declared n new slots
        → ignored_slots (open_slots (with_slot n new slots)) ≡ ignored_slots (open_slots slots) }
{}

/// A law: where an ignored slot is closed, the directory without it may be opened. Its live slots are the same, and so are
/// its other ignored ones.
pub fn ignored_slot_may_be_closed()
    ensures opens { (pages declared n : ℕ) (slots : Directory) → MayBeClosed pages declared n slots
        → Opens pages declared (without_slot n slots) }
    ensures open { (pages declared n : ℕ) (slots : Directory) → MayBeClosed pages declared n slots
        → open_slots (without_slot n slots) ≡ filter (λ e. not (e.0 == n)) (open_slots slots) }
    ensures live { (pages declared n : ℕ) (slots : Directory) → MayBeClosed pages declared n slots
        → live_slots (open_slots (without_slot n slots)) ≡ live_slots (open_slots slots) }
    ensures ignored { (pages declared n : ℕ) (slots : Directory) → MayBeClosed pages declared n slots
        → ignored_slots (open_slots (without_slot n slots)) ≡ filter (λ e. not (e.0 == n)) (ignored_slots (open_slots slots)) }
{}

/// A law: beside slot 0 of dhb on page 265 with the writes 1 to 5, one on page 266 with 6 to 9 may be added. One with 7 to 9
/// may not, nor one with 5 to 9, nor one on page 265.
pub fn worked_additions()
    ensures next { IsAddable (component 266 6 9) ((0, component 265 1 5) ∷ []) }
    ensures behind_gap { IsAddable (component 266 7 9) ((0, component 265 1 5) ∷ []) → ⊥ }
    ensures not_newer { IsAddable (component 266 5 9) ((0, component 265 1 5) ∷ []) → ⊥ }
    ensures same_page { IsAddable (component 265 6 9) ((0, component 265 1 5) ∷ []) → ⊥ }
{}
