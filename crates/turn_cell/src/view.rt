//! What a pass knows. No value of these types is made: they are for contracts alone.
use std::collections::LinkedList;

/// Whether it is a pass's turn.
pub enum Stage {
    /// Between two turns, or waiting for one.
    Resting,
    /// In the turn of this ticket. The pass has the slot.
    Serving(u64),
}

/// The number of a pass, and the entries that it made.
pub struct Row<E> {
    pub number: LinkedList<u64>,
    pub own: LinkedList<E>,
}

/// What a pass made, and then what those made that were joined into it. A pass that was joined into another has no row.
pub struct Tally<E> {
    pub parts: u64,
    pub splits: u64,
    pub rows: LinkedList<Row<E>>,
}

pub struct View<E> {
    pub stage: Stage,
    /// The history as far as the pass has seen it.
    pub seen: LinkedList<E>,
    pub tally: Tally<E>,
}
