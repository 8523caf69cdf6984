//! Lists of entries that hide and merge: which entries live, and how lists are merged.
#![tactic(auto)]

mod entry;
mod laws;
mod merge;

pub use entry::Entry;
pub use laws::{
    added_entry_fits, merged_keyed_lists_fit, merged_lists_fit, moved_key_fits,
    placed_keyed_list_fits, placed_list_fits, rewritten_list_fits,
};
pub use merge::merge_newest;
