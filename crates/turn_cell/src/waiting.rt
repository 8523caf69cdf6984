//! How a pass waits until it has its turn.
//!
//! A pass that finds the turn taken lines up: it draws a position. Only the first in line looks, some hundred times, and then sleeps
//! too, on one of sixteen words, its spot, by its position. Before a pass sleeps it raises its flag there, a number that is not 0
//! and that no other pass in line has. A turn that ends lowers the flag in the spot of the position that is first, if one is raised,
//! and wakes those who sleep there. So where nobody waits no call of the system is made.
//!
//! A pass that isn't in line may take a turn before those that are. While the one that is woken gets to its processor, many short
//! turns can be over. Where the first in line slept some times in vain, it asks that the next turn be left to the line.
//!
//! No wake-up is lost, by this order of steps; every step is sequentially consistent. A pass raises its flag, then finds that it
//! isn't first or that there is a turn, and then sleeps, but only if its flag still stands. A turn that ends counts itself among
//! those that are over, then reads which position is first, then looks for a flag at its spot, lowers it and then wakes.
//! - The pass was first: then the turn that it found ends later, and looks at this spot.
//! - It wasn't: then the pass before it becomes first at some time, takes a turn and leaves the line in it. When that turn ends, it
//!   looks at this spot.
//! - That turn finds a flag, of this pass or of another one of the spot, and lowers it, or one that looked here before it did. Whoever
//!   lowers it wakes all at the spot afterwards. So a pass that sleeps by then is woken, and one that would sleep later finds that
//!   its flag doesn't stand: it raised it before, and nobody else can.
//!
//! A pass that wakes looks again, so it does no harm to be woken early.
ghost use Rattle.std.specs.Prelude.{◌≡◌, ◌<◌, ◌≤◌};
ghost use Rattle.turn_cell.specs.Resting.{IsAtRest};
ghost use Rattle.turn_cell.specs.Steps.{Claimed};

use crate::cell::{
    END_OF_LINE, FIRST_IN_LINE, FIRST_SPOT, LEFT_TO_LINE, NEXT_TICKET, SERVING, SPOTS, TurnCell,
};
use crate::pass::PassSeat;
use crate::plays::Note;
use crate::turned::Turned;
use std::alloc::Allocator;
use std::hint;
use std::sync::Wait;

// How often the first in line looks before it sleeps. So many looks take about as long as a sleep and a wake.
const MOST_LOOKS: u32 = 200;

// How often the first in line sleeps in vain before it asks that the next turn be left to the line.
const PATIENCE: u32 = 4;

// A sleep compares 32 bits.
const LOW_BITS: u64 = 0xffff_ffff;

// The word on which a pass at this position sleeps.
fn spot_of(position: u64) -> usize
    ensures { (5 ≤ result) × (result < 21) }
{
    FIRST_SPOT + (position % SPOTS) as usize
}

// Positions of one spot have different flags in 32 bits, as long as they are less than 2^35 apart. At most 2^32 are in line.
fn flag_of(position: u64) -> u64 {
    (position / SPOTS).wrapping_mul(2) | 1
}

impl<V: Turned, A: Allocator> TurnCell<V, A> {
    // Waits for a turn, and takes it. It answers the turn's ticket.
    pub(crate) fn take_turn<R: Wait>(&self, rt: &R, seat: &mut PassSeat<V>) -> u64
        requires cell { seat.old.table_id ≡ self.now.table.shared.table_id }
        requires rests { IsAtRest seat.old.me }
        ensures cell { (seat.new.table_id ≡ seat.old.table_id) × (seat.new.id ≡ seat.old.id) }
        ensures claimed { Claimed V.stands V.owner V.draws seat.old.me result seat.new.me }
    {
        if self.table.shared.peek(LEFT_TO_LINE) == 0 {
            if let Some(ticket) = self.claim(seat) {
                return ticket;
            }
        }
        self.wait_in_line(rt, seat)
    }

    fn wait_in_line<R: Wait>(&self, rt: &R, seat: &mut PassSeat<V>) -> u64
        requires cell { seat.old.table_id ≡ self.now.table.shared.table_id }
        requires rests { IsAtRest seat.old.me }
        ensures cell { (seat.new.table_id ≡ seat.old.table_id) × (seat.new.id ≡ seat.old.id) }
        ensures claimed { Claimed V.stands V.owner V.draws seat.old.me result seat.new.me }
    {
        let position = self.table.shared.fetch_add::<Note>(seat, END_OF_LINE, 1);
        let mut looks = 0u32;
        for _ in rt.forever() {
            if self.is_first(position) {
                if let Some(ticket) = self.claim(seat) {
                    self.leave_line(seat, position);
                    return ticket;
                }
                looks = looks.wrapping_add(1);
                if looks % MOST_LOOKS != 0 {
                    hint::spin_loop();
                    continue;
                }
                if looks == PATIENCE * MOST_LOOKS {
                    self.table.shared.store::<Note>(seat, LEFT_TO_LINE, 1);
                }
            }
            self.sleep(rt, seat, position);
        }
        unreachable!()
    }

    fn is_first(&self, position: u64) -> bool {
        self.table.shared.peek(FIRST_IN_LINE) == position
    }

    // Whether nobody has a turn.
    fn is_free(&self) -> bool {
        let serving = self.table.shared.peek(SERVING);
        self.table.shared.peek(NEXT_TICKET) == serving
    }

    // The pass at this position has a turn. The next one is first, and is woken when the turn ends.
    fn leave_line(&self, seat: &mut PassSeat<V>, position: u64)
        requires { seat.old.table_id ≡ self.now.table.shared.table_id }
        ensures { (seat.new.table_id ≡ seat.old.table_id) × (seat.new.id ≡ seat.old.id) × (seat.new.me ≡ seat.old.me) }
    {
        if self.table.shared.peek(LEFT_TO_LINE) != 0 {
            self.table.shared.store::<Note>(seat, LEFT_TO_LINE, 0);
        }
        self.table
            .shared
            .store::<Note>(seat, FIRST_IN_LINE, position.wrapping_add(1));
    }

    // Sleeps until the pass at this position may be first and the turn free.
    fn sleep<R: Wait>(&self, rt: &R, seat: &mut PassSeat<V>, position: u64)
        requires { seat.old.table_id ≡ self.now.table.shared.table_id }
        ensures { (seat.new.table_id ≡ seat.old.table_id) × (seat.new.id ≡ seat.old.id) × (seat.new.me ≡ seat.old.me) }
    {
        let spot = spot_of(position);
        let flag = flag_of(position);
        self.table.shared.store::<Note>(seat, spot, flag);
        if !(self.is_first(position) && self.is_free()) {
            self.table.shared.park(rt, spot, (flag & LOW_BITS) as u32);
        }
    }

    // Wakes the first in line, if it may sleep.
    pub(crate) fn wake_first(&self, seat: &mut PassSeat<V>)
        requires { seat.old.table_id ≡ self.now.table.shared.table_id }
        ensures { (seat.new.table_id ≡ seat.old.table_id) × (seat.new.id ≡ seat.old.id) × (seat.new.me ≡ seat.old.me) }
    {
        let spot = spot_of(self.table.shared.peek(FIRST_IN_LINE));
        if self.table.shared.peek(spot) != 0 {
            self.table.shared.store::<Note>(seat, spot, 0);
            self.table.shared.wake_all(spot);
        }
    }
}
