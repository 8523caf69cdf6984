// The commands of a script, one after another.
ghost use Rattle.std.specs.Prelude.{◌≡◌, ◌<◌, ◌^◌, length, None, IfOk, OnErr};
ghost use Rattle.wal_log.specs.declared.records.LogOp.TheVariants as log;
ghost use Rattle.script_lang.specs.CommandViews.{command_of, commands_of};
ghost use Rattle.store_machine.specs.Commands.{write_outcome, get_outcome, region_outcome};
ghost use Rattle.store_core.specs.Stores.{state_of};
ghost use Rattle.store_commands.specs.Commands.{IsServing, HasDone, rows_found, flush_outcome};
ghost use Rattle.spatial_run.specs.Views.{outcome_of, outcomes_of};
ghost use Rattle.spatial_run.specs.Steps.{MadeAll};

use crate::outcomes::{Refusals, with_outcome, with_upkeep};
use crate::record::{Outcome, OutcomeList};
use dev_model::Device;
use geo_base::Row;
use script_lang::{Answer, Command, Why};
use std::alloc::{AllocError, Global};
use store_commands::{count, flush, get, region, write};
use store_core::{RegionRows, Store};
use store_machine::{Got, Wrote};
use wal_log::LogOp;

// Until there are lanes, all calls are made by one owner.
const OWNER: u64 = 0;

// What became of a command, and the word with which the upkeep behind it was refused, if it was.
#[derive(Drop)]
struct Done {
    outcome: Outcome,
    upkeep: Option<Why>,
}

// A command behind which no upkeep was due.
fn without_upkeep(outcome: Outcome) -> Done
    ensures outcome { result.outcome ≡ outcome }
    ensures upkeep { result.upkeep ≡ None }
{
    Done {
        outcome,
        upkeep: None,
    }
}

fn put_outcome(row: &Row, answer: Result<Wrote, Why>) -> Outcome
    ensures { outcome_of result ≡ write_outcome (log.Put row.now) answer }
{
    match answer {
        Ok(wrote) => Outcome::Answered {
            seq: wrote.seq,
            answer: match wrote.old {
                None => Answer::PutNew,
                Some((point, note)) => Answer::PutOld(point, note),
            },
        },
        Err(why) => Outcome::Refused(why),
    }
}

fn del_outcome(key: u64, answer: Result<Wrote, Why>) -> Outcome
    ensures { outcome_of result ≡ write_outcome (log.Del key) answer }
{
    match answer {
        Ok(wrote) => Outcome::Answered {
            seq: wrote.seq,
            answer: match wrote.old {
                None => Answer::DelNone,
                Some((point, note)) => Answer::DelOld(point, note),
            },
        },
        Err(why) => Outcome::Refused(why),
    }
}

fn get_outcome(answer: Result<Got, Why>) -> Outcome
    ensures { outcome_of result ≡ get_outcome answer }
{
    match answer {
        Ok(got) => Outcome::Answered {
            seq: got.seq,
            answer: match got.row {
                None => Answer::GetNone,
                Some(row) => Answer::GetOld(row.point, row.note),
            },
        },
        Err(why) => Outcome::Refused(why),
    }
}

fn region_outcome(answer: Result<RegionRows, Why>) -> Outcome
    ensures { outcome_of result ≡ region_outcome (rows_found answer) }
{
    match answer {
        Ok(found) => Outcome::Answered {
            seq: found.seq,
            answer: Answer::Rows(found.rows),
        },
        Err(why) => Outcome::Refused(why),
    }
}

fn flush_outcome(answer: Result<(), Why>) -> Outcome
    ensures { outcome_of result ≡ flush_outcome answer }
{
    match answer {
        Ok(()) => Outcome::Quiet,
        Err(why) => Outcome::Refused(why),
    }
}

// One command, with the upkeep that it needs or that is due after it.
fn run_one<D: Device>(alloc: Global, store: &mut Store<D>, command: &Command) -> Done
    requires serving { IsServing (state_of D.seen store.old) }
    ensures done { HasDone (state_of D.seen store.old) (state_of D.seen store.new) 0 (command_of command.now) (outcome_of result.outcome) result.upkeep }
    ensures serving { IsServing (state_of D.seen store.new) }
{
    match command {
        Command::Put(row) => {
            let written = write(alloc, store, OWNER, &LogOp::Put(*row));
            Done {
                outcome: put_outcome(row, written.answer),
                upkeep: written.upkeep,
            }
        }
        Command::Del(key) => {
            let written = write(alloc, store, OWNER, &LogOp::Del(*key));
            Done {
                outcome: del_outcome(*key, written.answer),
                upkeep: written.upkeep,
            }
        }
        Command::Get(key) => without_upkeep(get_outcome(get(store, OWNER, *key))),
        Command::Count => {
            let (seq, rows) = count(store, OWNER);
            without_upkeep(Outcome::Answered {
                seq,
                answer: Answer::Counted(rows),
            })
        }
        Command::Region(kind, rect) => without_upkeep(region_outcome(region(
            alloc, store, OWNER, *kind, rect,
        ))),
        Command::Flush => without_upkeep(flush_outcome(flush(alloc, store, OWNER))),
    }
}

/// What became of commands, and for which causes steps of theirs were refused.
#[derive(Drop)]
pub(crate) struct RanCommands {
    pub outcomes: OutcomeList,
    pub refusals: Refusals,
}

/// Runs the commands on a store. Room for all outcomes is made before the first command; where that is refused nothing is
/// done.
pub(crate) fn run_commands<D: Device>(
    alloc: Global,
    store: &mut Store<D>,
    commands: &[Command],
) -> Result<RanCommands, AllocError>
    requires serving { IsServing (state_of D.seen store.old) }
    ensures made { IfOk result (λ ran. MadeAll (state_of D.seen store.old) (state_of D.seen store.new) (commands_of commands.now) (outcomes_of ran.outcomes.items) ran.refusals) }
    ensures few { length commands.now < 2 ^ 63 }
    ensures serving { IsServing (state_of D.seen store.new) }
    ensures refused { OnErr result (state_of D.seen store.new ≡ state_of D.seen store.old) }
{
    let mut outcomes = OutcomeList::new(alloc);
    let mut refusals = Refusals::none();
    outcomes.reserve(commands.len())?;
    for command in commands {
        let Done { outcome, upkeep } = run_one(alloc, store, command);
        refusals = with_upkeep(with_outcome(refusals, &outcome), upkeep);
        outcomes.add(outcome);
    }
    Ok(RanCommands { outcomes, refusals })
}
