// The top calls: what the program does with its words, its script, its output and its device.
ghost use Rattle.std.specs.Prelude.{◌≤◌, Some, map};
ghost use Rattle.space_map.specs.declared.space.TheConstants.{LEAST_PAGES, MOST_PAGES};
ghost use Rattle.spatial_run.specs.Tasks.{task_of, serial};
ghost use Rattle.spatial_run.specs.OnDevice.{Formatting, RanOn};
ghost use Rattle.spatial_run.specs.ByEvents.{FormattingBy, RanByEvents};
ghost use Rattle.spatial_run.specs.Endings.{Ends, edges_of};
ghost use Rattle.spatial_run.specs.Views.{record_of};

use crate::device::run_task;
use crate::ended::{Ended, finish};
use crate::task::{Task, task_of};
use dev_model::{Device, Sink, Source};
use std::alloc::Global;

/// Reads the script to its end, opens the store that is on the device, runs the commands one after another, and prints.
///
/// It waits for nobody, and always returns. The contract is that of `run_top` for the word `serial`.
pub fn run_serial<R: Source, K: Sink, D: Device>(
    alloc: Global,
    script: &mut R,
    out: &mut K,
    device: D,
) -> Ended<D>
    requires least { LEAST_PAGES ≤ (D.seen device).pages }
    requires most { (D.seen device).pages ≤ MOST_PAGES }
    ensures headline { Ends Formatting RanOn (Some serial) (edges_of R.fault_count R.left K.fault_count K.taken D.seen script.old script.new out.old out.new device result.device) result.status result.acks.items (record_of result.outcomes) }
    // And it is so by a list of events of the store, with the device calls of each.
    ensures events { Ends FormattingBy RanByEvents (Some serial) (edges_of R.fault_count R.left K.fault_count K.taken D.seen script.old script.new out.old out.new device result.device) result.status result.acks.items (record_of result.outcomes) }
{
    let run = run_task(alloc, Some(Task::Serial), script, device);
    finish(alloc, run, out)
}

/// Does what the words ask for, prints, and answers with the program's status.
///
/// `format INDEXES` makes the device an empty store; `serial` runs the script on the store that is there; `fresh INDEXES` does
/// both, and prints nothing of the format. The script is read to its end before the device is touched. Its commands are
/// answered one after another, and then the answers and refusals are printed. The status is the first of these that holds: 1,
/// the words are others; 3, the source failed; 2, the script holds a bad line or is too long; 6, what is on the device can't be;
/// 5, the device failed; 7, there was no room; 9, there is no such index; 4, the sink failed, and what is out is a front of the
/// text; 8, memory was refused; and else 0.
pub fn run_top<R: Source, K: Sink, D: Device>(
    alloc: Global,
    words: &[&str],
    script: &mut R,
    out: &mut K,
    device: D,
) -> Ended<D>
    requires least { LEAST_PAGES ≤ (D.seen device).pages }
    requires most { (D.seen device).pages ≤ MOST_PAGES }
    // What is printed is one history of a plain table, each command answered as the table answers at that place; a crash at any
    // moment leaves the table after the first of the writes, with every acknowledged one; and each ending and status has its
    // cause.
    ensures headline { Ends Formatting RanOn (task_of (map (λ w. w.now) words.now)) (edges_of R.fault_count R.left K.fault_count K.taken D.seen script.old script.new out.old out.new device result.device) result.status result.acks.items (record_of result.outcomes) }
    // And it is so by a list of events of the store, with the device calls of each.
    ensures events { Ends FormattingBy RanByEvents (task_of (map (λ w. w.now) words.now)) (edges_of R.fault_count R.left K.fault_count K.taken D.seen script.old script.new out.old out.new device result.device) result.status result.acks.items (record_of result.outcomes) }
{
    let run = run_task(alloc, task_of(words), script, device);
    finish(alloc, run, out)
}
