//! Laws of lists that fit a table. Each is the contract of a function that does nothing.

ghost use Rattle.std.specs.Prelude.{◌≡◌, ◌≢◌, ℕ, List, [], ◌∷◌, ◌++◌, Option, Some, None, true, false, is_some};
ghost use Rattle.order_merge.specs.Entries.{Reading};
ghost use Rattle.order_merge.specs.Fitting.{Fits};
ghost use Rattle.order_merge.specs.Ascending.{IsKeyOrder};
ghost use Rattle.order_merge.specs.Merged.{IsMergeOf};
ghost use Rattle.order_merge.specs.Adding.{with_entry};
ghost use Rattle.order_merge.specs.Added.{with_entries, wanted_with};
ghost use Rattle.order_merge.specs.Views.{lists_of};
ghost use Rattle.order_merge.specs.DeletedKeys.{KeyedList, FitsDeleted, IsRewritten, wanted_at, IsMergeOfKeyed};
ghost use Rattle.std.specs.declared.cmp.Ordering.{Ordering};
ghost use Rattle.std.specs.declared.cmp.Ordering.TheVariants.{Less};
ghost use Rattle.order_merge.specs.Places.{PlaceReading, IsPlaceReading, wanted_places, moved, place_changes};

use crate::entry::Entry;

/// A law: an entry that is added to the newest list changes what lives at its key, and nowhere else.
pub fn added_entry_fits<E: Entry>()
    ensures { (entry : E) (active : List E) (older : List (List E)) (wanted : E.Key → Option E)
        → Fits E.reading (active ∷ older) wanted
        → Fits E.reading (with_entry E.reading entry active ∷ older) (wanted_with E.reading entry wanted) }
{}

/// A law: adjacent lists may be replaced by their merge. Anti entries stay there, for the sake of the lists behind them;
/// where there are none, they may go.
pub fn merged_lists_fit<E: Entry>()
    ensures among { (before among after : List (List E)) (merged : List E) (wanted : E.Key → Option E)
        → IsMergeOf E.reading among false merged
        → Fits E.reading (before ++ (among ++ after)) wanted → Fits E.reading (before ++ (merged ∷ after)) wanted }
    ensures oldest { (before among : List (List E)) (merged : List E) (wanted : E.Key → Option E)
        → IsMergeOf E.reading among true merged
        → Fits E.reading (before ++ among) wanted → Fits E.reading (before ++ (merged ∷ [])) wanted }
{}

/// A law: the active list may be frozen, and a frozen list may be placed as the newest disk component.
pub fn placed_list_fits<E: Entry>()
    ensures frozen { (active : List E) (disk : List (List E)) (wanted : E.Key → Option E)
        → Fits E.reading (lists_of active None disk) wanted → Fits E.reading (lists_of [] (Some active) disk) wanted }
    ensures placed { (active frozen : List E) (disk : List (List E)) (wanted : E.Key → Option E)
        → Fits E.reading (lists_of active (Some frozen) disk) wanted
        → Fits E.reading (lists_of active None (frozen ∷ disk)) wanted }
{}

/// A law: an index that is kept by place goes on fitting where a write moves a key from its place to another, or from or
/// to none, and the index adds that write's entries.
pub fn moved_key_fits<E, P>()
    ensures { (i : PlaceReading E P) → IsPlaceReading i → IsKeyOrder i.reading.order
        → (active : List E) (older : List (List E)) (places : ℕ → Option P) (key : ℕ) (new : Option P)
        → Fits i.reading (active ∷ older) (wanted_places i places)
        → Fits i.reading (with_entries i.reading (place_changes i (places key) new key) active ∷ older)
        (wanted_places i (moved places key new)) }
{}

/// A law: where lists name deleted keys, a write of a key keeps the fit: the newest list is rewritten, or stays where the
/// key stays as it is.
pub fn rewritten_list_fits<E>()
    ensures written { (key : E → ℕ) (old_list new_list : KeyedList E) (older : List (KeyedList E)) (wanted : ℕ → Option E)
        (k : ℕ) (new : Option E)
        → FitsDeleted key (old_list ∷ older) wanted → IsRewritten key k (is_some (wanted k)) new old_list new_list
        → ((e : E) → new ≡ Some e → key e ≡ k)
        → FitsDeleted key (new_list ∷ older) (wanted_at wanted k new) }
    ensures stays { (key : E → ℕ) (lists : List (KeyedList E)) (wanted : ℕ → Option E) (k : ℕ)
        → FitsDeleted key lists wanted → FitsDeleted key lists (wanted_at wanted k (wanted k)) }
{}

/// A law: adjacent lists that name deleted keys may be replaced by their merge. It names the keys that they name, for the
/// sake of the lists behind them; where there are none, it names no key.
pub fn merged_keyed_lists_fit<E>()
    ensures among { (key : E → ℕ) (order : E → E → Ordering) → ((e : E) → order e e ≢ Less)
        → (before among after : List (KeyedList E)) (merged : KeyedList E) (wanted : ℕ → Option E)
        → IsMergeOfKeyed key order among false merged
        → FitsDeleted key (before ++ (among ++ after)) wanted → FitsDeleted key (before ++ (merged ∷ after)) wanted }
    ensures oldest { (key : E → ℕ) (order : E → E → Ordering) → ((e : E) → order e e ≢ Less)
        → (before among : List (KeyedList E)) (merged : KeyedList E) (wanted : ℕ → Option E)
        → IsMergeOfKeyed key order among true merged
        → FitsDeleted key (before ++ among) wanted → FitsDeleted key (before ++ (merged ∷ [])) wanted }
{}

/// A law: the active list that names deleted keys may be frozen, and a frozen one may be placed as the newest disk
/// component.
pub fn placed_keyed_list_fits<E>()
    ensures frozen { (key : E → ℕ) (active empty : KeyedList E) (disk : List (KeyedList E)) (wanted : ℕ → Option E)
        → empty.entries ≡ [] → empty.deleted ≡ []
        → FitsDeleted key (lists_of active None disk) wanted → FitsDeleted key (lists_of empty (Some active) disk) wanted }
    ensures placed { (key : E → ℕ) (active frozen : KeyedList E) (disk : List (KeyedList E)) (wanted : ℕ → Option E)
        → FitsDeleted key (lists_of active (Some frozen) disk) wanted
        → FitsDeleted key (lists_of active None (frozen ∷ disk)) wanted }
{}
