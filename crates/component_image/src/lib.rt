// What an image of the device is once components stand there: when it opens, the table that it recovers to, and what each crash
// leaves of it. These are definitions and laws about them; no other code stands here.
#![tactic(auto)]

mod laws;

pub use laws::{
    added_component_is_the_newest, appends_keep_the_table, components_keep_their_lists,
    every_crash_keeps_the_table, image_has_one_table, lists_fit_their_table,
    logged_rows_make_the_table, new_component_keeps_the_table, newest_component_ends_last,
    rows_are_few, told_records_count, turns_keep_the_table, writes_elsewhere_keep_the_table,
};
