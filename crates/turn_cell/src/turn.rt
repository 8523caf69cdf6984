//! A turn.
ghost use Rattle.std.specs.Prelude.{◌≡◌, List, [], ◌∷◌, ◌++◌};
ghost use Rattle.turn_cell.specs.Rows.{own_of, adds, HasMade};
ghost use Rattle.turn_cell.specs.Rule.{tally};
ghost use Rattle.turn_cell.specs.Resting.{IsAtRest};
ghost use Rattle.turn_cell.specs.Passes.{IsPassOf, seen, own, rows, MayRun, IsOfDrawn, Adds, IsSamePass};

use crate::cell::TurnCell;
use crate::pass::{Pass, PassSeat};
use crate::turned::{Call, Turned};
use std::alloc::Allocator;
use std::marker::Brand;
use std::snapshot::Snapshot;
use std::sync::Wait;

impl<V: Turned, A: Allocator> TurnCell<V, A> {
    /// Waits until the pass is served, and makes the call. The entry that tells its answer then ends the history that the pass has
    /// seen, and is the last of its own. Past `MOST_TURNS` turns it waits for ever.
    pub fn turn<C: Call<V>, R: Wait>(&self, rt: &R, pass: &mut Pass<V>, call: C) -> C::Out
        requires cell { IsPassOf self.now pass.old }
        requires may { MayRun V.stands V.owner V.draws C.may call (own pass.old) }
        requires owner { IsOfDrawn V.owner V.draws C.tells call (own pass.old) }
        ensures same { IsSamePass pass.old pass.new }
        ensures adds { (entry : V.Entry) × C.tells call result entry × Adds pass.old entry pass.new }
        ensures legal { (x : _) × V.stands x (seen pass.new) }
        ensures made { HasMade V.owner V.draws (rows pass.new) (seen pass.new) }
    {
        self.turn_at(rt, &mut pass.seat, call)
    }

    fn turn_at<C: Call<V>, R: Wait>(&self, rt: &R, seat: &mut PassSeat<V>, call: C) -> C::Out
        requires cell { seat.old.table_id ≡ self.now.table.shared.table_id }
        requires rests { IsAtRest seat.old.me }
        requires may { MayRun V.stands V.owner V.draws C.may call (own_of seat.old.me.0.tally.rows) }
        requires owner { IsOfDrawn V.owner V.draws C.tells call (own_of seat.old.me.0.tally.rows) }
        ensures cell { (seat.new.table_id ≡ seat.old.table_id) × (seat.new.id ≡ seat.old.id) }
        ensures rests { IsAtRest seat.new.me }
        ensures adds { (entry : V.Entry) × C.tells call result entry × ((between : List V.Entry) × (seat.new.me.0.seen ≡ (seat.old.me.0.seen ++ between) ++ entry ∷ [])) × (seat.new.me.0.tally ≡ tally seat.old.me.0.tally.parts seat.old.me.0.tally.splits (adds entry seat.old.me.0.tally.rows)) }
        ensures legal { (x : _) × V.stands x seat.new.me.0.seen }
        ensures made { HasMade V.owner V.draws seat.new.me.0.tally.rows seat.new.me.0.seen }
    {
        let told = Snapshot::of(&call);
        self.take_turn(rt, seat);
        let out = self.serve(seat, call);
        self.advance::<C, Brand>(seat, &told, &out);
        out
    }
}
