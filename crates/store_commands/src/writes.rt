// Writes, with the upkeep that makes room for them.
ghost use Rattle.std.specs.Prelude.{◌≡◌};
ghost use Rattle.component_image.specs.Replayed.{write_of};
ghost use Rattle.table_model.specs.Commands.{on_table, write};
ghost use Rattle.store_core.specs.Stores.{state_of};
ghost use Rattle.store_machine.specs.Commands.{write_outcome};
ghost use Rattle.store_commands.specs.Commands.{IsServing, HasDone, WritesKept};
ghost use Rattle.store_commands.specs.Upkeep.{WritesAgain, HasTried, HasKeptBehind};
ghost use Rattle.store_commands.specs.declared.upkeep.TheConstants.{FLUSH_AT};

use crate::upkeep::{FLUSH_AT, keep_up, word_of};
use dev_model::Device;
use std::alloc::Global;
use store_core::Store;
use store_machine::{Refusal, WriteOp, Wrote};
use table_model::Why;

// A write that there was no room for: what waits is flushed, and it is made again. It isn't made where that is refused.
fn write_again<D: Device>(
    alloc: Global,
    store: &mut Store<D>,
    owner: u64,
    op: &WriteOp,
) -> Result<Wrote, Why>
    requires serving { IsServing (state_of D.seen store.old) }
    ensures again { WritesAgain (state_of D.seen store.old) (state_of D.seen store.new) owner op.now result }
    ensures serving { IsServing (state_of D.seen store.new) }
{
    if let Err(refusal) = keep_up(alloc, store, owner, FLUSH_AT) {
        return Err(word_of(refusal));
    }
    match store.write(owner, op) {
        Ok(wrote) => Ok(wrote),
        Err(refusal) => Err(word_of(refusal)),
    }
}

// A write, for which room is made where there is none.
fn write_with_room<D: Device>(
    alloc: Global,
    store: &mut Store<D>,
    owner: u64,
    op: &WriteOp,
) -> Result<Wrote, Why>
    requires serving { IsServing (state_of D.seen store.old) }
    ensures tried { HasTried (state_of D.seen store.old) (state_of D.seen store.new) owner op.now result }
    ensures serving { IsServing (state_of D.seen store.new) }
{
    match store.write(owner, op) {
        Ok(wrote) => Ok(wrote),
        Err(Refusal::Again { .. }) => write_again(alloc, store, owner, op),
        Err(refusal) => Err(word_of(refusal)),
    }
}

// Makes the upkeep that is due where so many writes wait, and gives the word with which it was refused. A write before it is
// answered, whatever becomes of it.
fn keep_up_behind<D: Device>(
    alloc: Global,
    store: &mut Store<D>,
    owner: u64,
    ops: u32,
) -> Option<Why>
    requires serving { IsServing (state_of D.seen store.old) }
    ensures kept { HasKeptBehind FLUSH_AT (state_of D.seen store.old) (state_of D.seen store.new) owner ops result }
    ensures serving { IsServing (state_of D.seen store.new) }
{
    if ops < FLUSH_AT {
        return None;
    }
    match keep_up(alloc, store, owner, FLUSH_AT) {
        Ok(()) => None,
        Err(refusal) => Some(word_of(refusal)),
    }
}

/// What became of a write, and the word with which the upkeep behind it was refused, if it was.
#[derive(Clone, Copy)]
pub struct Written {
    pub answer: Result<Wrote, Why>,
    pub upkeep: Option<Why>,
}

/// Lays a row at its key, or takes away what is there.
///
/// An answered write is in each image of each crash from its ack on. Where it leaves 1,024 writes or more that are only in
/// memory and in the log, they are flushed; what that is refused for changes no answer, and is told beside it. The refusals are
/// those of the write, or of the flush that has to make room for it.
pub fn write<D: Device>(alloc: Global, store: &mut Store<D>, owner: u64, op: &WriteOp) -> Written
    requires serving { IsServing (state_of D.seen store.old) }
    ensures done { HasDone (state_of D.seen store.old) (state_of D.seen store.new) owner (on_table (write (write_of op.now))) (write_outcome op.now result.answer) result.upkeep }
    ensures kept { WritesKept 1024 (state_of D.seen store.old) (state_of D.seen store.new) owner op.now result.answer }
    ensures serving { IsServing (state_of D.seen store.new) }
{
    match write_with_room(alloc, store, owner, op) {
        Ok(wrote) => {
            let upkeep = keep_up_behind(alloc, store, owner, wrote.ops);
            Written {
                answer: Ok(wrote),
                upkeep,
            }
        }
        Err(why) => Written {
            answer: Err(why),
            upkeep: None,
        },
    }
}
