// What the store is compared with: the plain table, its answers, and the history, the record and the text
// of a run. These are definitions, and plain data that code shares with them; no code stands here but laws
// about the definitions and worked examples of them.
#![tactic(auto)]

ghost use Rattle.std.specs.Prelude.{◌≡◌, ◌++◌, List, [], ◌∷◌, map};
ghost use Rattle.std.specs.FinMap.{empty};
ghost use Rattle.table_model.specs.Table.{Table};
ghost use Rattle.table_model.specs.Commands.{TableCommand, Command, on_table, flush, write, put, del, get, count, answered, quiet, refused, counted};
ghost use Rattle.table_model.specs.Answers.{replay, replies};
ghost use Rattle.table_model.specs.Record.{RunRecord, record_text, history, FitsScript, IsAnswered};
ghost use Rattle.table_model.specs.Order.{IsInOrder};
ghost use Rattle.table_model.specs.Phases.{Phases};
ghost use Rattle.table_model.specs.declared.Why.TheVariants.{NoIndex, Damaged, Memory};
ghost use Rattle.table_model.specs.Examples.{shuffled_script, shuffled_record, shuffled_text, refused_script, refused_record, refused_run_text, flushed_script, flushed_record, flushed_text, alone, one, false_get, false_del, false_count, two_counts, two_counts_at_once};

/// Why a command was refused.
#[derive(Clone, Copy, Debug, PartialEq, Eq)]
pub enum Why {
    /// A call of the device failed.
    Fault,
    /// A write or sync of the device failed earlier, so nothing is written any more.
    Stopped,
    /// There is no room.
    Full,
    /// The store has no such index.
    NoIndex,
    /// The device gave a page that isn't well formed.
    Damaged,
    /// Memory was refused.
    Memory,
}

/// A law: a history may be cut anywhere, and what follows is answered from the table that the front leaves.
pub fn a_history_may_be_cut()
    ensures tables { (t : Table) (cs ds : List TableCommand) → replay t (cs ++ ds) ≡ replay (replay t cs) ds }
    ensures replies { (t : Table) (cs ds : List TableCommand) → replies t (cs ++ ds) ≡ replies t cs ++ replies (replay t cs) ds }
{}

/// A law: the answers of a record that fits its script are in order, phase by phase and lane by lane.
pub fn a_record_that_fits_is_in_order()
    ensures { (s : Phases Command) (r : RunRecord) → FitsScript s r → IsInOrder r }
{}

/// Worked examples: a shuffle of two lanes, a run with a refused command and one with flushes fit their scripts, are
/// answered as the table answers, and print these texts.
pub fn worked_records()
    ensures shuffled { FitsScript shuffled_script shuffled_record }
    ensures shuffled_answers { IsAnswered empty (history shuffled_script shuffled_record) }
    ensures shuffled_text { record_text shuffled_script shuffled_record ≡ shuffled_text }
    ensures refused { FitsScript refused_script refused_record }
    ensures refused_text { record_text refused_script refused_record ≡ refused_run_text }
    ensures flushed { FitsScript flushed_script flushed_record }
    ensures flushed_answers { IsAnswered empty (history flushed_script flushed_record) }
    ensures flushed_text { record_text flushed_script flushed_record ≡ flushed_text }
{}

/// Worked examples of what is excluded: answers that aren't those of the empty table, refusals that a command can't
/// have, a command without an outcome, answers against the script's order, two lanes that share a seq, a flush that is answered,
/// and a command for the table of which nothing is told.
pub fn worked_exclusions()
    ensures false_get { IsAnswered empty (history (alone (on_table (get 1) ∷ [])) false_get) → ⊥ }
    ensures false_del { IsAnswered empty (history (alone (on_table (write (del 1)) ∷ [])) false_del) → ⊥ }
    ensures false_count { IsAnswered empty (history (alone (on_table count ∷ [])) false_count) → ⊥ }
    ensures refused_count { FitsScript (alone (on_table count ∷ [])) (alone (refused Memory ∷ [])) → ⊥ }
    ensures get_without_memory { FitsScript (alone (on_table (get 1) ∷ [])) (alone (refused Memory ∷ [])) → ⊥ }
    ensures put_without_an_index { FitsScript (alone (on_table (write (put one)) ∷ [])) (alone (refused NoIndex ∷ [])) → ⊥ }
    ensures no_outcome { FitsScript (alone (on_table count ∷ [])) (alone []) → ⊥ }
    ensures wrong_order { FitsScript (alone (on_table count ∷ on_table count ∷ [])) (alone (answered 1 (counted 0) ∷ answered 0 (counted 0) ∷ [])) → ⊥ }
    ensures one_seq_twice { FitsScript two_counts two_counts_at_once → ⊥ }
    ensures answered_flush { FitsScript (alone (flush ∷ [])) (alone (answered 0 (counted 0) ∷ [])) → ⊥ }
    ensures damaged_flush { FitsScript (alone (flush ∷ [])) (alone (refused Damaged ∷ [])) → ⊥ }
    ensures quiet_get { FitsScript (alone (on_table (get 1) ∷ [])) (alone (quiet ∷ [])) → ⊥ }
{}
