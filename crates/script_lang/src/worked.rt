// Worked scripts: what the definitions say of them, line by line of the language.
ghost use Rattle.std.specs.Prelude.{◌≡◌, [], ◌∷◌, ◌++◌, codes, Ok, Err};
ghost use Rattle.table_model.specs.Commands.{on_table, flush, write, put, del, get, count};
ghost use Rattle.script_lang.specs.Scripts.{script_of, bad_line, too_long};
ghost use Rattle.script_lang.specs.Examples.{alone, row_7, all_of_nine, long_comment};

/// Scripts that are read.
pub fn worked_scripts()
    ensures nothing { script_of 1000 9 [] ≡ Ok (alone []) }
    ensures two_commands { script_of 1000 9 (codes "put 7 3 4 a\nregion dhvb 0 0 9 9\n") ≡ Ok (alone (on_table (write (put row_7)) ∷ all_of_nine ∷ [])) }
    ensures lines_of_a_key { script_of 1000 9 (codes "del 7\nget 18446744073709551615\ncount\n") ≡ Ok (alone (on_table (write (del 7)) ∷ on_table (get 18446744073709551615) ∷ on_table count ∷ [])) }
    ensures a_flush { script_of 1000 9 (codes "put 7 3 4 a\nflush\ncount\n") ≡ Ok (alone (on_table (write (put row_7)) ∷ flush ∷ on_table count ∷ [])) }
    ensures blanks_round_a_flush { script_of 1000 9 (codes " \t flush \t \r\nflush\r") ≡ Ok (alone (flush ∷ flush ∷ [])) }
    ensures last_line_is_open { script_of 1000 9 (codes "put 7 3 4 a") ≡ Ok (alone (on_table (write (put row_7)) ∷ [])) }
    ensures blanks_and_zeros { script_of 1000 9 (codes "\t put\t007  3 4   a \r\n\n  \t\nregion dhvb 0 0 9 9\r") ≡ Ok (alone (on_table (write (put row_7)) ∷ all_of_nine ∷ [])) }
    ensures comments { script_of 1000 9 (codes "# a comment\r\n \t#put 1\nput 7 3 4 a") ≡ Ok (alone (on_table (write (put row_7)) ∷ [])) }
    ensures a_dash_is_the_empty_note { script_of 1000 9 (codes "put 7 3 4 -") ≡ Ok (alone (on_table (write (put (record row_7 { note = [] }))) ∷ [])) }
    ensures two_dashes_are_a_note { script_of 1000 9 (codes "put 7 3 4 --") ≡ Ok (alone (on_table (write (put (record row_7 { note = codes "--" }))) ∷ [])) }
    ensures twenty_digits { script_of 1000 9 (codes "put 00000000000000000007 3 4 a") ≡ Ok (alone (on_table (write (put row_7)) ∷ [])) }
    ensures the_greatest_key { script_of 1000 9 (codes "put 18446744073709551615 3 4 a") ≡ Ok (alone (on_table (write (put (record row_7 { key = 18446744073709551615 }))) ∷ [])) }
    ensures a_line_of_200 { script_of 1000 9 (long_comment 200 ++ codes "\r\n") ≡ Ok (alone []) }
    ensures as_many_bytes_as_allowed { script_of 11 9 (codes "put 7 3 4 a") ≡ Ok (alone (on_table (write (put row_7)) ∷ [])) }
{}

/// Scripts that are refused, each for the first thing that is wrong with it.
pub fn worked_refusals()
    ensures no_such_line { script_of 1000 9 (codes "merge 1") ≡ Err (bad_line 1) }
    ensures a_field_too_few { script_of 1000 9 (codes "put 1 0 0") ≡ Err (bad_line 1) }
    ensures a_field_too_many { script_of 1000 9 (codes "put 1 0 0 a #") ≡ Err (bad_line 1) }
    ensures a_key_too_few { script_of 1000 9 (codes "del") ≡ Err (bad_line 1) }
    ensures a_key_too_many { script_of 1000 9 (codes "get 1 2") ≡ Err (bad_line 1) }
    ensures a_great_key_to_get { script_of 1000 9 (codes "get 18446744073709551616") ≡ Err (bad_line 1) }
    ensures a_count_of_a_key { script_of 1000 9 (codes "count 1") ≡ Err (bad_line 1) }
    ensures a_flush_of_a_key { script_of 1000 9 (codes "flush 1") ≡ Err (bad_line 1) }
    ensures a_great_coordinate { script_of 1000 9 (codes "put 1 65536 0 -") ≡ Err (bad_line 1) }
    ensures a_great_key { script_of 1000 9 (codes "put 18446744073709551616 0 0 -") ≡ Err (bad_line 1) }
    ensures twenty_one_digits { script_of 1000 9 (codes "put 000000000000000000007 3 4 a") ≡ Err (bad_line 1) }
    ensures a_sign { script_of 1000 9 (codes "put +7 3 4 a") ≡ Err (bad_line 1) }
    ensures an_empty_rectangle { script_of 1000 9 (codes "region dhvb 5 0 4 0") ≡ Err (bad_line 1) }
    ensures no_such_index { script_of 1000 9 (codes "region btree 0 0 9 9") ≡ Err (bad_line 1) }
    ensures a_note_with_a_nul { script_of 1000 9 (codes "put 1 0 0 a" ++ 0 ∷ []) ≡ Err (bad_line 1) }
    ensures two_returns { script_of 1000 9 (codes "\r\r\n") ≡ Err (bad_line 1) }
    ensures a_line_of_201 { script_of 1000 9 (long_comment 201 ++ codes "\n") ≡ Err (bad_line 1) }
    ensures the_first_bad_line { script_of 1000 9 (codes "# one\nput 7 3 4 a\n\nput\nmerge\n") ≡ Err (bad_line 4) }
    ensures a_command_too_many { script_of 1000 1 (codes "put 7 3 4 a\nput 7 3 4 a\nbad") ≡ Err too_long }
    ensures a_bad_line_before_it { script_of 1000 1 (codes "put 7 3 4 a\nbad\nput 7 3 4 a\n") ≡ Err (bad_line 2) }
    ensures a_byte_too_many { script_of 10 9 (codes "put 7 3 4 a") ≡ Err too_long }
    ensures a_byte_too_many_in_a_comment { script_of 5 9 (codes "# abcd") ≡ Err too_long }
    ensures a_bad_line_before_the_byte { script_of 5 9 (codes "bad\nput 7 3 4 a") ≡ Err (bad_line 1) }
    ensures a_bad_line_that_ends_behind_it { script_of 5 9 (codes "bad bad\n") ≡ Err too_long }
{}
