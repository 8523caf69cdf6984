//! The search of an ascending list.

ghost use Rattle.std.specs.Prelude.{◌≡◌, MatchResult};
ghost use Rattle.order_merge.specs.Entries.{Reading, entry_at};
ghost use Rattle.order_merge.specs.Ascending.{Ascends};
ghost use Rattle.mem_comp.specs.Search.{IsPlaceOf, IsGapFor};

use order_merge::Entry;
use std::cmp::Ordering;

// How an entry's key stands to a key.
fn standing<E: Entry>(entry: &E, key: &E::Key) -> Ordering
    ensures { result ≡ E.reading.order (E.reading.key_of entry.now) key.now }
{
    E::compare(&entry.key(), key)
}

// Where the entry of a key stands, or where one would.
pub(crate) fn search<E: Entry>(entries: &[E], key: &E::Key) -> Result<usize, usize>
    requires { Ascends E.reading entries.now }
    ensures { MatchResult result (IsPlaceOf E.reading entries.now key.now) (IsGapFor E.reading entries.now key.now) }
{
    entries.binary_search_by(|entry| standing(entry, key))
}

// The entry of a key in a list.
pub(crate) fn entry_in<E: Entry>(entries: &[E], key: &E::Key) -> Option<E>
    requires { Ascends E.reading entries.now }
    ensures { result ≡ entry_at E.reading entries.now key.now }
{
    match search(entries, key) {
        Ok(at) => Some(entries[at]),
        Err(_) => None,
    }
}
