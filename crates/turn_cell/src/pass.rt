//! What a caller of the cell carries.
ghost use Rattle.turn_cell.specs.Resting.{IsAtRest};

use crate::turned::Turned;
use crate::view::View;
use atomic_table::Seat;

/// What a pass does its steps with.
pub(crate) type PassSeat<V> = Seat<Option<V>, View<<V as Turned>::Entry>>;

/// The right to take turns. It has no bytes. For contracts it has a number, a count of parts, the history as far as it has seen
/// it, and the entries that it made. The parts of a pass that is dropped are gone, and its cell can't be closed any more.
#[derive(Drop)]
pub struct Pass<V: Turned> {
    pub(crate) seat: Seat<Option<V>, View<V::Entry>>,
    ghost rests: { IsAtRest seat.me },
}
