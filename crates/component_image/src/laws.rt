// Laws of images with components, each as the contract of a function that does nothing.
ghost use Rattle.std.specs.Prelude.{◌≡◌, ◌⊎◌, ℕ, ◌+◌, ◌^◌, ◌<◌, ◌≤◌, All, List, [], ◌∷◌, ◌++◌, length, Option, Some, None, set};
ghost use Rattle.dev_model.specs.Story.{Bytes, Story, clock_of, bytes_of, IsOutside, IsImageNow, IsCalmAt};
ghost use Rattle.dev_model.specs.Moments.{EachMoment};
ghost use Rattle.dev_model.specs.Writes.{WritesWithin};
ghost use Rattle.order_merge.specs.Fitting.{Fits};
ghost use Rattle.order_merge.specs.Views.{lists_of};
ghost use Rattle.table_model.specs.Table.{Table, rows_of};
ghost use Rattle.table_model.specs.Answers.{after_write};
ghost use Rattle.wal_log.specs.Later.{later};
ghost use Rattle.wal_log.specs.Segments.{segments_of};
ghost use Rattle.wal_log.specs.Rules.{records_of};
ghost use Rattle.wal_log.specs.State.{IsAtRest as LogAtRest, IsLogOf};
ghost use Rattle.wal_log.specs.Changes.{HasRecordsOr, HasSameRecords, OpensAs};
ghost use Rattle.wal_log.specs.declared.log.Log.{Log};
ghost use Rattle.wal_log.specs.declared.records.Record.{Record};
ghost use Rattle.component_image.specs.Replayed.{write_of, replayed};
ghost use Rattle.comp_dir.specs.Places.{slot_start};
ghost use Rattle.comp_dir.specs.Adding.{MayBeAdded};
ghost use Rattle.comp_dir.specs.Directory.{Directory, directory_of, open_slots};
ghost use Rattle.comp_dir.specs.Choosing.{Opens as DirectoryOpens};
ghost use Rattle.comp_dir.specs.declared.places.TheConstants.{PRIMARY};
ghost use Rattle.comp_dir.specs.State.{IsOneOf, with_slot};
ghost use Rattle.comp_dir.specs.Resting.{IsAtRest as DirectoryAtRest};
ghost use Rattle.comp_dir.specs.declared.slots.Slot.{Slot};
ghost use Rattle.primary_ix.specs.Reading.{prim_reading};
ghost use Rattle.primary_ix.specs.Wanted.{wanted_rows};
ghost use Rattle.primary_ix.specs.declared.rows.PrimRow.{PrimRow};
ghost use Rattle.component_image.specs.Changes.{changed, IsFrozenOf};
ghost use Rattle.component_image.specs.Components.{components, end_of, IsInExtent};
ghost use Rattle.component_image.specs.Content.{Shows};
ghost use Rattle.component_image.specs.Laid.{laid, table_of};
ghost use Rattle.component_image.specs.Counted.{rows_together, counted};
ghost use Rattle.component_image.specs.Recovered.{primary_of, ends_of, IsContent, Recovers};
ghost use Rattle.component_image.specs.Beside.{IsBeside};
ghost use Rattle.component_image.specs.Resting.{Rests};
ghost use Rattle.component_image.specs.Standing.{RecoversEither, MayStand};
ghost use Rattle.component_image.specs.Told.{SaysOld, AreTold};

use comp_dir::MOST_LIVE;
use format_numbers::LOG_START;
use wal_log::LOG_BYTES;

/// A law: an image recovers to one table at most.
pub fn image_has_one_table()
    ensures { (pages : ℕ) (one other : Table) (bytes : Bytes) → Recovers pages one bytes → Recovers pages other bytes → one ≡ other }
{}

/// A law: where the components and their pages are as before, they show the same lists, and a component more has its list
/// before those.
pub fn components_keep_their_lists()
    ensures kept { (pages : ℕ) (one other : Table) (a b : Bytes) (r : Recovers pages one a) (q : Recovers pages other b) → ((i : ℕ) → IsContent a i → b i ≡ a i)
        → directory_of b ≡ directory_of a → q.lists ≡ r.lists }
    ensures added { (pages : ℕ) (one other : Table) (a b : Bytes) (r : Recovers pages one a) (q : Recovers pages other b) → ((i : ℕ) → IsContent a i → b i ≡ a i)
        → (new : Slot) (rows : List PrimRow) → primary_of b ≡ new ∷ primary_of a → Shows b new rows → q.lists ≡ rows ∷ r.lists }
{}

/// A law: the rows that writes of the log lay in memory, laid over a table, make the table after these writes. So a list of
/// them may stand as a component in the place of the writes.
pub fn logged_rows_make_the_table()
    ensures { (rows : List PrimRow) (records : List Record) (t : Table) → laid (changed rows records) t ≡ replayed (laid rows t) records }
{}

/// A law: where each record says truly at which point its key stood before it, as many rows are counted by what the records
/// say as the table has after them.
pub fn told_records_count()
    ensures { (t : Table) (records : List Record) → AreTold t records → length (rows_of t) + length records < 2 ^ 64
        → counted (length (rows_of t)) records ≡ length (rows_of (replayed t records)) }
{}

/// A law: a table has at most as many rows as the lists that make it, and each write adds one at most.
pub fn rows_are_few()
    ensures together { (lists : List (List PrimRow)) (records : List Record) → length (rows_of (replayed (table_of lists) records)) ≤ rows_together lists + length records }
    ensures below { (lists : List (List PrimRow)) (records : List Record) → length lists ≤ MOST_LIVE → All (λ rows. length rows < 2 ^ 32) lists
        → length (rows_of (replayed (table_of lists) records)) < 2 ^ 37 + length records }
{}

/// A law: lists fit the table that they make. So do the active list and the frozen one before them, where writes of the log
/// made these, and the table is the one after the writes.
pub fn lists_fit_their_table()
    ensures listed { (lists : List (List PrimRow)) → Fits prim_reading lists (wanted_rows (table_of lists)) }
    ensures logged { (table : Table) (active : List PrimRow) (frozen : Option (List PrimRow)) (disk : List (List PrimRow)) (earlier writes : List Record)
        → IsFrozenOf frozen earlier → active ≡ changed [] writes → table ≡ replayed (table_of disk) (earlier ++ writes)
        → Fits prim_reading (lists_of active frozen disk) (wanted_rows table) }
{}

/// A law: each crash of a store at rest leaves its table.
pub fn every_crash_keeps_the_table()
    ensures { (pages : ℕ) (log : Log) (table : Table) (s : Story) (image : Bytes) → Rests pages log table s → IsImageNow s image → Recovers pages table image }
{}

/// A law: each crash at each moment of an append leaves the table before the write, or the one behind it, and after the
/// append the store is at rest with that one. The record has to say truly at which point its key stood in the table. The
/// other premises are what an append of the log says of its calls.
pub fn appends_keep_the_table()
    ensures images { (pages : ℕ) (log : Log) (table : Table) (s t : Story) (at count : ℕ) (now : Option Story)
        → Rests pages log table s → WritesWithin at count s now → now ≡ Some t → LOG_START ≤ at → at + count ≤ LOG_START + LOG_BYTES
        → (r : Record) → end_of (primary_of (bytes_of s)) < r.lsn → SaysOld table r
        → EachMoment (clock_of s) t (λ _ image. HasRecordsOr (ends_of (primary_of (bytes_of s))) (records_of (segments_of LOG_START (bytes_of s))) r (segments_of LOG_START image))
        → EachMoment (clock_of s) t (λ _. RecoversEither pages table (after_write table (write_of r.op))) }
    ensures rests { (pages : ℕ) (log : Log) (table : Table) (s t : Story) (at count : ℕ) (now : Option Story)
        → Rests pages log table s → WritesWithin at count s now → now ≡ Some t → LOG_START ≤ at → at + count ≤ LOG_START + LOG_BYTES
        → (r : Record) (next : Log) → end_of (primary_of (bytes_of s)) < r.lsn → SaysOld table r
        → next.start ≡ LOG_START → LogAtRest next t → IsLogOf next (segments_of LOG_START (bytes_of t))
        → OpensAs (ends_of (primary_of (bytes_of s))) (records_of (segments_of LOG_START (bytes_of s)) ++ r ∷ []) (segments_of LOG_START (bytes_of t))
        → Rests pages next (after_write table (write_of r.op)) t }
{}

/// A law: each crash at each moment of a change of segments leaves the table, and after it the store is at rest with the new
/// segment, where no record behind the components stands in the segment that is used again. The premises are what a change
/// of segments says of its calls.
pub fn turns_keep_the_table()
    ensures images { (pages : ℕ) (log : Log) (table : Table) (s t : Story) (at count : ℕ) (now : Option Story)
        → Rests pages log table s → WritesWithin at count s now → now ≡ Some t → LOG_START ≤ at → at + count ≤ LOG_START + LOG_BYTES
        → (k : ℕ) → later (end_of (primary_of (bytes_of s))) (records_of (set (segments_of LOG_START (bytes_of s)) k None)) ≡ later (end_of (primary_of (bytes_of s))) (records_of (segments_of LOG_START (bytes_of s)))
        → EachMoment (clock_of s) t (λ _ image. HasSameRecords (ends_of (primary_of (bytes_of s))) k (segments_of LOG_START (bytes_of s)) (segments_of LOG_START image))
        → EachMoment (clock_of s) t (λ _. Recovers pages table) }
    ensures rests { (pages : ℕ) (log : Log) (table : Table) (s t : Story) (at count : ℕ) (now : Option Story)
        → Rests pages log table s → WritesWithin at count s now → now ≡ Some t → LOG_START ≤ at → at + count ≤ LOG_START + LOG_BYTES
        → (k : ℕ) (next : Log) → later (end_of (primary_of (bytes_of s))) (records_of (set (segments_of LOG_START (bytes_of s)) k None)) ≡ later (end_of (primary_of (bytes_of s))) (records_of (segments_of LOG_START (bytes_of s)))
        → next.start ≡ LOG_START → LogAtRest next t → IsLogOf next (segments_of LOG_START (bytes_of t))
        → HasSameRecords (ends_of (primary_of (bytes_of s))) k (segments_of LOG_START (bytes_of s)) (segments_of LOG_START (bytes_of t))
        → Rests pages next table t }
{}

/// A law: calls that write where nothing is looked at, as a page of an extent that no component has, or a slot behind its
/// closed gate, leave a store at rest, also where they fail, and each crash at each moment leaves the table.
pub fn writes_elsewhere_keep_the_table()
    ensures { (pages : ℕ) (log : Log) (table : Table) (s t : Story) (at count : ℕ) (now : Option Story)
        → Rests pages log table s → WritesWithin at count s now → now ≡ Some t
        → ((i : ℕ) → IsBeside (bytes_of s) i → IsOutside at count i) → (at + count ≤ LOG_START) ⊎ (LOG_START + LOG_BYTES ≤ at)
        → EachMoment (clock_of s) t (λ _. Recovers pages table) × Rests pages log table t }
{}

/// A law: while the gate of a new component's slot is opened, each crash at each moment leaves the table, with the component
/// or without it, and once it is open and synced the store is at rest. The premises are what opening a gate says of its
/// calls.
pub fn new_component_keeps_the_table()
    ensures images { (pages : ℕ) (log : Log) (table : Table) (s t : Story) (n : ℕ) (now : Option Story) (new : Slot) (frozen : List Record) (lists : List (List PrimRow))
        → Rests pages log table s → MayStand pages s n new frozen lists → IsCalmAt (IsInExtent new) s → WritesWithin (slot_start n) 1 s now → now ≡ Some t
        → EachMoment (clock_of s) t (λ _ image. IsOneOf (directory_of (bytes_of s)) (with_slot n new (directory_of (bytes_of s))) (directory_of image))
        → EachMoment (clock_of s) t (λ _. Recovers pages table) }
    ensures rests { (pages : ℕ) (log : Log) (table : Table) (s t : Story) (n : ℕ) (now : Option Story) (new : Slot) (frozen : List Record) (lists : List (List PrimRow))
        → Rests pages log table s → MayStand pages s n new frozen lists → IsCalmAt (IsInExtent new) s → WritesWithin (slot_start n) 1 s now → now ≡ Some t
        → clock_of s ≤ clock_of t → DirectoryAtRest t → directory_of (bytes_of t) ≡ with_slot n new (directory_of (bytes_of s))
        → Rests pages log table t }
{}

/// A law: a slot of the primary that may be added to a directory is the newest of its components there.
pub fn added_component_is_the_newest()
    ensures { (pages n : ℕ) (new : Slot) (slots : Directory) → MayBeAdded pages 0 n new slots → new.index ≡ PRIMARY
        → components PRIMARY (with_slot n new slots) ≡ new ∷ components PRIMARY slots }
{}

/// A law: where a directory opens, the newest component of an index ends behind each open slot of the index, also behind an
/// ignored one.
pub fn newest_component_ends_last()
    ensures { (pages declared index : ℕ) (slots : Directory) → DirectoryOpens pages declared slots
        → All (λ e. e.1.index ≡ index → e.1.last_lsn ≤ end_of (components index slots)) (open_slots slots) }
{}
