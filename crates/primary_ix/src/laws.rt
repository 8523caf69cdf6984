//! Laws of the lists of the primary. Each is the contract of a function that does nothing.

ghost use Rattle.std.specs.Prelude.{◌≡◌, ℕ, [], ◌∷◌, ◌++◌, ◌↔◌, List, Some, None, true, false};
ghost use Rattle.std.specs.FinMap.{empty};
ghost use Rattle.order_merge.specs.Ascending as entries;
ghost use Rattle.order_merge.specs.Entries.{entry_at};
ghost use Rattle.order_merge.specs.Fitting.{Fits};
ghost use Rattle.order_merge.specs.Merged.{IsMergeOf};
ghost use Rattle.order_merge.specs.Adding.{with_entry};
ghost use Rattle.order_merge.specs.Views.{lists_of};
ghost use Rattle.btree_image.specs.Rows as rows;
ghost use Rattle.btree_image.specs.Given.{row_with_key};
ghost use Rattle.table_model.specs.Table.{Table};
ghost use Rattle.table_model.specs.Commands.{Write};
ghost use Rattle.table_model.specs.Answers.{after_write};
ghost use Rattle.primary_ix.specs.declared.rows.PrimRow.{PrimRow};
ghost use Rattle.primary_ix.specs.Rows.{prim_layout};
ghost use Rattle.primary_ix.specs.Reading.{prim_reading};
ghost use Rattle.primary_ix.specs.Wanted.{wanted_rows, written_row};
ghost use Rattle.primary_ix.specs.Records.{table_rows};

/// A law: a list of rows is the same to the lists in memory and to the trees on pages: it ascends for both or for
/// neither, and both find the same row of a key.
pub fn lists_and_trees_agree()
    ensures order { (list : List PrimRow) → entries.Ascends prim_reading list ↔ rows.Ascends prim_layout list }
    ensures found { (list : List PrimRow) (key : ℕ) → row_with_key prim_layout list key ≡ entry_at prim_reading list key }
{}

/// A law: no rows fit the empty table, and the rows of a table fit it.
pub fn table_rows_fit()
    ensures none { Fits prim_reading ([] ∷ []) (wanted_rows empty) }
    ensures all { (table : Table) → Fits prim_reading (table_rows table ∷ []) (wanted_rows table) }
    ensures ascend { (table : Table) → entries.Ascends prim_reading (table_rows table) }
    ensures only { (table : Table) (list : List PrimRow) → entries.Ascends prim_reading list → ((key : ℕ) → entry_at prim_reading list key ≡ wanted_rows table key) → list ≡ table_rows table }
{}

/// A law: lists that fit a table before a write fit it afterwards, where the row of the write is added to the active one.
pub fn written_rows_fit()
    ensures { (table : Table) (active : List PrimRow) (older : List (List PrimRow)) (write : Write)
        → Fits prim_reading (active ∷ older) (wanted_rows table)
        → Fits prim_reading (with_entry prim_reading (written_row write) active ∷ older) (wanted_rows (after_write table write)) }
{}

/// A law: lists that fit a table go on fitting it where the active list is frozen, where the frozen one becomes the newest
/// component, and where components side by side are replaced by their merge, which leaves anti rows out only with the
/// oldest component among them.
pub fn placed_rows_fit()
    ensures frozen { (table : Table) (active : List PrimRow) (disk : List (List PrimRow))
        → Fits prim_reading (lists_of active None disk) (wanted_rows table) → Fits prim_reading (lists_of [] (Some active) disk) (wanted_rows table) }
    ensures placed { (table : Table) (active frozen : List PrimRow) (disk : List (List PrimRow))
        → Fits prim_reading (lists_of active (Some frozen) disk) (wanted_rows table) → Fits prim_reading (lists_of active None (frozen ∷ disk)) (wanted_rows table) }
    ensures among { (table : Table) (before among after : List (List PrimRow)) (merged : List PrimRow)
        → IsMergeOf prim_reading among false merged
        → Fits prim_reading (before ++ (among ++ after)) (wanted_rows table) → Fits prim_reading (before ++ (merged ∷ after)) (wanted_rows table) }
    ensures oldest { (table : Table) (before among : List (List PrimRow)) (merged : List PrimRow)
        → IsMergeOf prim_reading among true merged
        → Fits prim_reading (before ++ among) (wanted_rows table) → Fits prim_reading (before ++ (merged ∷ [])) (wanted_rows table) }
{}
