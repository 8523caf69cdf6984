//! Many lanes beside each other.
ghost use Rattle.std.specs.Prelude.{◌≡◌, ◌<◌, ◌+◌, ◌*◌, IfSome};
ghost use Rattle.turn_cell.specs.Passes.{IsPassOf, parts};
ghost use Rattle.turn_cell_tests.specs.Lanes.{Worked};

use crate::counter::Counter;
use crate::lanes::work;
use std::alloc::Global;
use std::sync::Wait;
use std::thread;
use std::thread::Threads;
use turn_cell::{Pass, TurnCell};

// One lane, whose owner is forgotten.
fn lane<R: Wait>(rt: &R, cell: &TurnCell<Counter>, pass: Pass<Counter>, times: u64) -> Pass<Counter>
    requires { IsPassOf cell.now pass }
    ensures { Worked pass 1 times result }
{
    let (_, pass) = work(rt, cell, pass, times);
    pass
}

// The pass works, and so do `others` more that are split from it.
fn spread<R: Threads + Wait + Sync>(
    rt: &R,
    cell: &TurnCell<Counter>,
    mut pass: Pass<Counter>,
    others: u64,
    times: u64,
) -> Pass<Counter>
    requires cell { IsPassOf cell.now pass }
    requires parts { others < parts pass }
    ensures { Worked pass (others + 1) ((others + 1) * times) result }
{
    if others == 0 {
        return lane(rt, cell, pass, times);
    }
    let other = cell.split(&mut pass);
    let (mut pass, other) = thread::join(
        rt,
        move || -> Pass<Counter>
            requires { IsPassOf cell.now pass × (others < parts pass + 1) × (0 < others) }
            ensures { Worked pass others (others * times) result }
        { spread(rt, cell, pass, others - 1, times) },
        move || -> Pass<Counter>
            requires { IsPassOf cell.now other }
            ensures { Worked other 1 times result }
        { lane(rt, cell, other, times) },
    );
    cell.join(&mut pass, other);
    pass
}

/// So many lanes draw an owner each and count so often. All of it is in the counter that comes back. `None` says that there was no
/// memory for a cell.
pub fn crowd<R: Threads + Wait + Sync>(
    rt: &R,
    alloc: Global,
    lanes: u64,
    times: u64,
) -> Option<Counter>
    requires { (0 < lanes) × (lanes < 100) }
    ensures { IfSome result (λ c. (c.drawn ≡ lanes) × (c.counted ≡ lanes * times)) }
{
    let start = Counter {
        drawn: 0,
        counted: 0,
    };
    let (cell, pass) = match TurnCell::new(alloc, start) {
        Ok(made) => made,
        Err(_) => return None,
    };
    let pass = spread(rt, &cell, pass, lanes - 1, times);
    Some(cell.close(pass))
}
