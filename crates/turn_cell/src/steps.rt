//! The steps of a turn.
ghost use Rattle.std.specs.Prelude.{◌≡◌, ℕ, ◌+◌, ◌<◌, true, Some, [], ◌∷◌, ◌++◌, MatchOption};
ghost use Rattle.turn_cell.specs.declared.view.Stage.TheVariants.{Serving, Resting};
ghost use Rattle.turn_cell.specs.declared.limits.TheConstants.{MOST_TURNS};
ghost use Rattle.turn_cell.specs.History.{MayHaveOwner};
ghost use Rattle.turn_cell.specs.Rows.{own_of, adds, HasMade};
ghost use Rattle.turn_cell.specs.Rule.{view, tally};
ghost use Rattle.turn_cell.specs.Steps.{Claimed, Watched};
ghost use Rattle.turn_cell.specs.Resting.{IsAtRest, has_some};

use crate::cell::{NEXT_TICKET, SERVING, TurnCell};
use crate::limits::MOST_TURNS;
use crate::pass::PassSeat;
use crate::plays::{Adding, Advance, Draw, Recall, Survey};
use crate::turned::{Call, Turned};
use std::alloc::Allocator;
use std::snapshot::Snapshot;

impl<V: Turned, A: Allocator> TurnCell<V, A> {
    // Takes the next turn if nobody has one, and else answers `None`. Past the last turn nobody takes one.
    pub(crate) fn claim(&self, seat: &mut PassSeat<V>) -> Option<u64>
        requires cell { seat.old.table_id ≡ self.now.table.shared.table_id }
        requires rests { IsAtRest seat.old.me }
        ensures cell { (seat.new.table_id ≡ seat.old.table_id) × (seat.new.id ≡ seat.old.id) }
        ensures claimed { MatchOption result (Watched seat.old.me seat.new.me) (λ ticket. Claimed V.stands V.owner V.draws seat.old.me ticket seat.new.me) }
    {
        let serving = self.table.shared.load::<Survey>(seat, SERVING);
        if serving >= MOST_TURNS || self.table.shared.peek(NEXT_TICKET) != serving {
            return None;
        }
        let found = self
            .table
            .shared
            .compare_exchange::<Draw<V>>(seat, NEXT_TICKET, serving, serving + 1);
        if found == serving {
            Some(serving)
        } else {
            None
        }
    }

    // Learns what the passes that are known made of what was seen.
    pub(crate) fn recall(&self, seat: &mut PassSeat<V>)
        requires { seat.old.table_id ≡ self.now.table.shared.table_id }
        ensures same { (seat.new.table_id ≡ seat.old.table_id) × (seat.new.id ≡ seat.old.id) × (seat.new.me ≡ seat.old.me) }
        ensures made { HasMade V.owner V.draws seat.new.me.0.tally.rows seat.new.me.0.seen }
    {
        self.table.shared.load::<Recall<V>>(seat, SERVING);
    }

    // Takes the value, runs the call and puts the value back.
    pub(crate) fn serve<C: Call<V>>(&self, seat: &mut PassSeat<V>, call: C) -> C::Out
        requires cell { seat.old.table_id ≡ self.now.table.shared.table_id }
        requires value { (x : _) × (seat.old.me.1 ≡ (0, Some x) ∷ []) × V.stands x seat.old.me.0.seen × C.may call (own_of seat.old.me.0.tally.rows) seat.old.me.0.seen }
        ensures cell { (seat.new.table_id ≡ seat.old.table_id) × (seat.new.id ≡ seat.old.id) }
        ensures ran { (x : _) × (entry : V.Entry) × (seat.new.me ≡ (seat.old.me.0, (0, Some x) ∷ [])) × C.tells call result entry × V.stands x (seat.old.me.0.seen ++ entry ∷ []) }
    {
        let held = self.table.shared.exchange(seat, 0, None);
        let Some(mut value) = held else {
            unreachable!()
        };
        let out = call.run(&mut value);
        let nothing = self.table.shared.exchange(seat, 0, Some(value));
        let None = nothing else { unreachable!() };
        out
    }

    // Ends the turn. The call and its answer only say which entry is added.
    pub(crate) fn advance<C: Call<V>, X: Adding<V::Entry>>(
        &self,
        seat: &mut PassSeat<V>,
        call: &Snapshot<C>,
        out: &C::Out,
    )
        requires cell { seat.old.table_id ≡ self.now.table.shared.table_id }
        requires entry { (t : ℕ) × (x : _) × (entry : V.Entry) × (seat.old.me.0.stage ≡ Serving t) × (seat.old.me.1 ≡ (0, Some x) ∷ []) × (has_some seat.old.me.0.tally.rows ≡ true) × X.may entry × V.stands x (seat.old.me.0.seen ++ entry ∷ []) × MayHaveOwner V.owner V.draws (own_of seat.old.me.0.tally.rows) entry }
        ensures cell { (seat.new.table_id ≡ seat.old.table_id) × (seat.new.id ≡ seat.old.id) }
        ensures added { (entry : V.Entry) × X.may entry × (seat.new.me ≡ (view Resting (seat.old.me.0.seen ++ entry ∷ []) (tally seat.old.me.0.tally.parts seat.old.me.0.tally.splits (adds entry seat.old.me.0.tally.rows)), [])) × ((x : _) × V.stands x (seat.old.me.0.seen ++ entry ∷ [])) × HasMade V.owner V.draws (adds entry seat.old.me.0.tally.rows) (seat.old.me.0.seen ++ entry ∷ []) }
    {
        let _ = call;
        let _ = out;
        self.table
            .shared
            .fetch_add::<Advance<V, X>>(seat, SERVING, 1);
        self.wake_first(seat);
    }
}
