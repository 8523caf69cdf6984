//! The cell: a table of words with one slot for the value.
ghost use Rattle.std.specs.Prelude.{◌≡◌};

use crate::plays::InTurn;
use crate::turned::Turned;
use crate::view::View;
use atomic_table::Table;
use std::alloc::{Allocator, Global};

/// The word that counts the turns that are over, and so the ticket that is served.
pub(crate) const SERVING: usize = 0;

/// The word that counts the turns that were begun, and so the ticket that is drawn next.
pub(crate) const NEXT_TICKET: usize = 1;

/// The word with the position that is first in line.
pub(crate) const FIRST_IN_LINE: usize = 2;

/// The word with the position behind the last one in line.
pub(crate) const END_OF_LINE: usize = 3;

/// The word that is not 0 while the next turn is left to those in line.
pub(crate) const LEFT_TO_LINE: usize = 4;

/// The first of the words on which passes sleep.
pub(crate) const FIRST_SPOT: usize = 5;

/// How many words passes sleep on.
pub(crate) const SPOTS: u64 = 16;

pub(crate) const WORDS: usize = 21;

/// A value that callers take in turn. It is no `Drop`: it ends by `close`, which gives the value back.
pub struct TurnCell<V: Turned, A: Allocator = Global> {
    pub(crate) table: Table<Option<V>, View<V::Entry>, (), InTurn<V>, A>,
    ghost shape: { (table.shared.table_id.words ≡ 21) × (table.shared.table_id.slots ≡ 1) },
}
