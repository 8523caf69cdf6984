//! Lanes that count, and two of them beside each other.
ghost use Rattle.std.specs.Prelude.{◌≡◌, ◌+◌, List, IfSome};
ghost use Rattle.turn_cell.specs.Passes.{IsPassOf};
ghost use Rattle.turn_cell_tests.specs.declared.counter.Entry.{Entry};
ghost use Rattle.turn_cell_tests.specs.Run.{IsRun};
ghost use Rattle.turn_cell_tests.specs.Lanes.{LaneMade, HasLane};

use crate::counter::{Count, Counter, NewOwner};
use std::alloc::Global;
use std::sync::Wait;
use std::thread;
use std::thread::Threads;
use turn_cell::{Pass, TurnCell};

// Draws an owner, and counts so often.
pub(crate) fn work<R: Wait>(
    rt: &R,
    cell: &TurnCell<Counter>,
    mut pass: Pass<Counter>,
    times: u64,
) -> (u64, Pass<Counter>)
    requires { IsPassOf cell.now pass }
    ensures { LaneMade pass times result.0 result.1 }
{
    let owner = cell.turn(rt, &mut pass, NewOwner);
    for _ in 0..times {
        cell.turn(rt, &mut pass, Count { owner });
    }
    (owner, pass)
}

/// Two threads draw an owner each, and count so often. The counter that comes back stands for one history, which has of each
/// owner just its lane's calls, in their order. `None` says that there was no memory for a cell.
pub fn two<R: Threads + Wait + Sync>(
    rt: &R,
    alloc: Global,
    first: u64,
    second: u64,
) -> Option<(Counter, u64, u64)>
    ensures counts { IfSome result (λ r. (r.0.drawn ≡ 2) × (r.0.counted ≡ first + second)) }
    ensures history { IfSome result (λ r. (history : List Entry) × IsRun 0 0 history r.0.drawn r.0.counted × HasLane history r.1 first × HasLane history r.2 second) }
{
    let start = Counter {
        drawn: 0,
        counted: 0,
    };
    let (cell, mut one) = match TurnCell::new(alloc, start) {
        Ok(made) => made,
        Err(_) => return None,
    };
    let other = cell.split(&mut one);
    let shared = &cell;
    let ((first_owner, mut one), (second_owner, other)) = thread::join(
        rt,
        move || -> (u64, Pass<Counter>)
            requires { IsPassOf shared.now one }
            ensures { LaneMade one first result.0 result.1 }
        { work(rt, shared, one, first) },
        move || -> (u64, Pass<Counter>)
            requires { IsPassOf shared.now other }
            ensures { LaneMade other second result.0 result.1 }
        { work(rt, shared, other, second) },
    );
    cell.join(&mut one, other);
    Some((cell.close(one), first_owner, second_owner))
}
