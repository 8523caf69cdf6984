//! A cell is made with its first pass, and closed with all of them joined.
ghost use Rattle.std.specs.Prelude.{◌≡◌, ◌+◌, ◌-◌, ◌<◌, List, [], ◌++◌, MatchResult, IfOk};
ghost use Rattle.turn_cell.specs.declared.limits.TheConstants.{ALL_PARTS};
ghost use Rattle.turn_cell.specs.History.{IsPrefix, longer};
ghost use Rattle.turn_cell.specs.Rows.{HasMade, MadeBy};
ghost use Rattle.turn_cell.specs.Passes.{IsPassOf, table_of, seen, own, parts, rows, joined};

use crate::cell::{TurnCell, WORDS};
use crate::pass::Pass;
use crate::plays::{Cut, Glue};
use crate::turned::Turned;
use atomic_table::{Refused, Table};
use std::alloc::{AllocError, AllocFailed, Allocator};

impl<V: Turned, A: Allocator> TurnCell<V, A> {
    /// Makes a cell over a value that stands for the empty history, and its first pass, which has all parts.
    ///
    /// # Errors
    ///
    /// There was no memory. The value comes back.
    pub fn new(alloc: A, value: V) -> Result<(TurnCell<V, A>, Pass<V>), (V, AllocError)>
    where
        A: Clone,
        requires { V.stands value [] }
        ensures ok { IfOk result (λ r. IsPassOf r.0 r.1 × (seen r.1 ≡ []) × (own r.1 ≡ []) × (joined r.1 ≡ []) × (parts r.1 ≡ ALL_PARTS)) }
        ensures err { MatchResult result (λ _. Unit {0}) (λ e. e.0 ≡ value) }
    {
        let copy = match alloc.clone() {
            Ok(copy) => copy,
            Err(_) => return Err((value, AllocError)),
        };
        let mut slots = Vec::new(copy);
        if let Err(failed) = slots.push(Some(value)) {
            let AllocFailed { value: held } = failed;
            slots.destroy_empty();
            let Some(value) = held else { unreachable!() };
            return Err((value, AllocError));
        }
        match Table::new(alloc, &[0; WORDS], slots, &()) {
            Ok((table, seat)) => Ok((TurnCell { table }, Pass { seat })),
            Err(refused) => {
                let Refused { slots: mut left } = refused;
                let last = left.pop();
                left.destroy_empty();
                let Some(held) = last else { unreachable!() };
                let Some(value) = held else { unreachable!() };
                Err((value, AllocError))
            }
        }
    }

    /// Takes one part of the pass for a new one, which has seen what this one has and made nothing.
    pub fn split(&self, pass: &mut Pass<V>) -> Pass<V>
        requires cell { IsPassOf self.now pass.old }
        requires parts { 1 < parts pass.old }
        ensures old { (table_of pass.new ≡ table_of pass.old) × (seen pass.new ≡ seen pass.old) × (rows pass.new ≡ rows pass.old) × (parts pass.new ≡ parts pass.old - 1) }
        ensures new { (table_of result ≡ table_of pass.old) × (seen result ≡ seen pass.old) × (own result ≡ []) × (joined result ≡ []) × (parts result ≡ 1) }
    {
        let seat = self.table.shared.split_seat::<Cut>(&mut pass.seat);
        Pass { seat }
    }

    /// Joins the other pass into this one, which then has seen what both have, and has the parts of both.
    pub fn join(&self, pass: &mut Pass<V>, other: Pass<V>)
        requires { IsPassOf self.now pass.old × IsPassOf self.now other }
        ensures cell { table_of pass.new ≡ table_of pass.old }
        ensures seen { seen pass.new ≡ longer (seen pass.old) (seen other) }
        ensures parts { parts pass.new ≡ parts pass.old + parts other }
        ensures rows { rows pass.new ≡ rows pass.old ++ rows other }
        ensures made { HasMade V.owner V.draws (rows pass.new) (seen pass.new) }
    {
        let Pass { seat } = other;
        self.table.shared.join_seat::<Glue>(&mut pass.seat, seat);
        self.recall(&mut pass.seat);
    }

    /// Gives the value back. It stands for the whole history, of which each entry is this pass's or of a pass that was joined into it.
    pub fn close(self, pass: Pass<V>) -> V
        requires cell { IsPassOf self pass }
        requires whole { parts pass ≡ ALL_PARTS }
        ensures { (history : List V.Entry) × V.stands result history × IsPrefix (seen pass) history × MadeBy V.owner V.draws (rows pass) history }
    {
        let TurnCell { table } = self;
        let Pass { seat } = pass;
        let mut closed = table.close_with(seat);
        let held = closed.take(0);
        closed.free();
        let Some(value) = held else { unreachable!() };
        value
    }
}
