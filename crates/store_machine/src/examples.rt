// Worked examples of what the definitions allow and refuse, each as the contract of a function that does nothing.
ghost use Rattle.std.specs.Prelude.{◌++◌, [], ◌∷◌, false, true, None, Some, take};
ghost use Rattle.table_model.specs.Commands.{flush, answered, quiet, refused, wrote, put_new, got as got_row, Outcome};
ghost use Rattle.table_model.specs.declared.Why.TheVariants.{NoIndex as no_index};
ghost use Rattle.store_machine.specs.Machine.{at_opening, after_all};
ghost use Rattle.store_machine.specs.Runs.{IsRun};
ghost use Rattle.store_machine.specs.Damage.{DamagesAre};
ghost use Rattle.store_machine.specs.Commands.{Does, DoesAll};
ghost use Rattle.store_machine.specs.Examples.{start, worked, put_with, put_seven, log_write, gated_write, page_read, got, other, seven, counted, failed_put, failed_with, refused_put, answered_put, logged_del, frozen, begun, page_written, installed, early_gate, put_and_begun, unplaced_flush, flushed, unread, read_too_much, idle, put_behind, damaged_get, put_command, get_command, script, outcomes, failed_get, two_components, read_both, read_newest, two_at_first, one_leaf, damaged_read};
ghost use Rattle.store_machine.specs.declared.events.Refusal.TheVariants.{Stopped, Again, NoIndex};

/// Worked runs: a row is put, asked for, taken out, and none is counted; a put that fails and one that is refused for it; and
/// a row that is put, flushed and read from its component, after which nothing is there to freeze or to begin; and a row that
/// the older of two components has.
pub fn worked_runs()
    ensures worked { IsRun true (at_opening start) worked }
    ensures stopped { IsRun true (at_opening start) (failed_put ∷ refused_put (Stopped 1) 1 22 ∷ []) }
    ensures flushed { IsRun true (at_opening start) flushed }
    ensures idle { IsRun true (after_all (at_opening start) flushed) (idle 34) }
    ensures both_components { IsRun true (at_opening two_components) read_both }
{}

/// Lists of events that are no runs, each for one reason.
pub fn refused_runs()
    ensures ack_before_the_last_sync { IsRun true (at_opening start) (put_with 23 (log_write 20 36928) 24 ∷ []) → ⊥ }
    ensures clock_before_the_last_sync { IsRun true (at_opening start) (put_with 23 (log_write 20 36928) 23 ∷ []) → ⊥ }
    ensures calls_of_another_time { IsRun true (at_opening start) (put_with 24 (log_write 1020 36928) 24 ∷ []) → ⊥ }
    ensures record_at_another_gate { IsRun true (at_opening start) (put_with 24 (log_write 20 36864) 24 ∷ []) → ⊥ }
    ensures three_of_four_calls { IsRun true (at_opening start) (put_with 24 (take 3 (log_write 20 36928)) 24 ∷ []) → ⊥ }
    ensures stopped_without_a_failure { IsRun true (at_opening start) (refused_put (Stopped 0) 0 20 ∷ []) → ⊥ }
    ensures answered_after_a_failure { IsRun true (at_opening start) (failed_put ∷ answered_put ∷ []) → ⊥ }
    ensures failed_sync_that_stops_nothing { IsRun true (at_opening start) (failed_with false (take 3 (log_write 20 36928)) 24 ∷ []) → ⊥ }
    ensures failed_with_all_its_calls { IsRun true (at_opening start) (failed_with true (log_write 20 36928) 24 ∷ []) → ⊥ }
    ensures failed_where_no_page_is_read { IsRun true (at_opening start) (failed_get ∷ []) → ⊥ }
    ensures answered_after_a_failed_read { IsRun true (at_opening start) (put_seven ∷ got 1 (Some seven) [] 25 ∷ []) → ⊥ }
    ensures put_without_an_index { IsRun true (at_opening start) (refused_put NoIndex 0 20 ∷ []) → ⊥ }
    ensures other_row { IsRun true (at_opening start) (put_seven ∷ got 1 (Some other) [] 24 ∷ []) → ⊥ }
    ensures absent_key_logged { IsRun true (at_opening start) (logged_del ∷ []) → ⊥ }
    ensures one_row_too_many { IsRun true (at_opening start) (counted 0 1 20 ∷ []) → ⊥ }
    ensures one_number_twice { IsRun true (at_opening start) (counted 0 0 20 ∷ counted 0 0 20 ∷ []) → ⊥ }
    ensures freeze_while_a_list_waits { IsRun true (at_opening start) (put_seven ∷ frozen 24 299008 ∷ put_behind ∷ frozen 32 561152 ∷ []) → ⊥ }
    ensures freeze_of_nothing { IsRun true (at_opening start) (frozen 20 299008 ∷ []) → ⊥ }
    ensures begin_where_nothing_waits { IsRun true (at_opening start) (begun 20 ∷ []) → ⊥ }
    ensures job_of_another_owner { IsRun true (at_opening start) (put_and_begun ++ page_written 2 ∷ []) → ⊥ }
    ensures install_before_its_pages { IsRun true (at_opening start) (put_and_begun ++ installed 0 (gated_write 28 4096 63) ∷ []) → ⊥ }
    ensures gate_before_the_sync { IsRun true (at_opening start) (put_and_begun ++ page_written 1 ∷ installed 1 early_gate ∷ []) → ⊥ }
    ensures page_of_no_component { IsRun true (at_opening start) (put_seven ∷ got 1 (Some seven) (page_read 24 1085440) 25 ∷ []) → ⊥ }
    ensures component_unread { IsRun true (at_opening start) unread → ⊥ }
    ensures component_read_for_a_row_in_memory { IsRun true (at_opening start) read_too_much → ⊥ }
    ensures pages_of_other_lists { IsRun true (at_opening two_components) read_newest → ⊥ }
    ensures damaged_on_a_device_that_tells { IsRun true (at_opening start) (damaged_get 265 [] 20 ∷ []) → ⊥ }
{}

/// Worked commands: a put, a flush and a get, with their outcomes; and events that aren't a command with its outcome, each
/// for one reason.
pub fn worked_commands()
    ensures carried_out { DoesAll script outcomes flushed }
    ensures flush_without_its_place { Does flush quiet unplaced_flush → ⊥ }
    ensures put_to_be_made_again { (outcome : Outcome) → Does put_command outcome (refused_put (Again 2048) 0 20 ∷ []) → ⊥ }
    ensures two_puts_in_one { Does put_command (answered 0 (wrote put_new)) (put_seven ∷ put_behind ∷ []) → ⊥ }
    ensures answered_for_a_refusal { Does get_command (answered 0 (got_row None)) (failed_get ∷ []) → ⊥ }
    ensures put_without_an_index { Does put_command (refused no_index) (failed_put ∷ []) → ⊥ }
{}

/// Worked answers that a page is damaged, on bytes in which one page of two components is a leaf and the other one isn't; and
/// answers that have no cause: the page is one for its place, no component has the page, or the clock is still to come.
pub fn worked_damages()
    ensures none_for_its_place { DamagesAre (at_opening two_at_first) one_leaf (damaged_read 265 3) }
    ensures page_for_its_place { DamagesAre (at_opening two_at_first) one_leaf (damaged_read 266 3) → ⊥ }
    ensures page_of_no_component { DamagesAre (at_opening two_at_first) one_leaf (damaged_read 264 3) → ⊥ }
    ensures clock_to_come { DamagesAre (at_opening two_at_first) one_leaf (damaged_read 265 4) → ⊥ }
{}
