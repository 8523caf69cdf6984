//! The rule of the cell, and what each step tells the pass that makes it.

use crate::turned::Turned;
use crate::view::View;
use atomic_table::{Join, Play, Split, TableRule};
use std::marker::{Brand, PhantomData};

/// There is one history, and one turn at a time.
pub struct InTurn<V> {
    value: PhantomData<V>,
}

impl<V: Turned> TableRule<Option<V>, View<V::Entry>, ()> for InTurn<V> {
    ghost use Rattle.turn_cell.specs.Rule.{OneHistory, first_view};

    ghost holds = { λ _. OneHistory V.stands V.owner V.draws };

    ghost first = { λ _. first_view };
}

/// A pass sees all that was made so far.
pub(crate) struct Survey;

impl<T, E> Play<Option<T>, View<E>> for Survey {
    ghost use Rattle.turn_cell.specs.Steps.{surveyed};

    ghost then = { surveyed };
}

/// A pass that has seen all draws the next ticket, if it is still there and so nobody has the turn.
pub(crate) struct Draw<V> {
    value: PhantomData<V>,
}

impl<V: Turned> Play<Option<V>, View<V::Entry>> for Draw<V> {
    ghost use Rattle.turn_cell.specs.Steps.{drew};

    ghost then = { drew V.stands V.owner V.draws };
}

/// A word by which passes wait is changed.
pub(crate) struct Note;

impl<T, E> Play<Option<T>, View<E>> for Note {
    ghost use Rattle.turn_cell.specs.Steps.{noted};

    ghost then = { noted };
}

/// A pass learns who made what it has seen.
pub(crate) struct Recall<V> {
    value: PhantomData<V>,
}

impl<V: Turned> Play<Option<V>, View<V::Entry>> for Recall<V> {
    ghost use Rattle.turn_cell.specs.Steps.{recalled};

    ghost then = { recalled V.owner V.draws };
}

/// Which entries a turn may add. A step can't be told an entry, so each turn picks this.
pub(crate) trait Adding<E> {
    ghost may: { E → Type 0 };
}

impl<E> Adding<E> for Brand {
    ghost may = { λ _. Unit {0} };
}

/// A turn ends.
pub(crate) struct Advance<V, X> {
    of: PhantomData<(V, X)>,
}

impl<V: Turned, X: Adding<V::Entry>> Play<Option<V>, View<V::Entry>> for Advance<V, X> {
    ghost use Rattle.turn_cell.specs.Steps.{advanced};

    ghost then = { advanced V.stands V.owner V.draws X.may };
}

/// How a pass is split.
pub(crate) struct Cut;

impl<E> Split<View<E>> for Cut {
    ghost use Rattle.turn_cell.specs.Steps.{less_one, with_one};

    ghost left = { less_one };

    ghost right = { with_one };
}

/// How a pass is joined into another.
pub(crate) struct Glue;

impl<E> Join<View<E>> for Glue {
    ghost use Rattle.turn_cell.specs.Steps.{together};
    ghost use Rattle.turn_cell.specs.Rule.{spent_view};

    ghost both = { together };

    ghost spent = { spent_view };
}
