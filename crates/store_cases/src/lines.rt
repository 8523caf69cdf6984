// The lines of a file of cases.

use crate::bench::{Bench, Report};
use crate::lists::{Change, flush, job, make, numbers};
use crate::steps::Step;
use geo_base::IndexKind;
use mem_device::Torn;
use std::alloc::Global;
use store_state::State;

/// The step of a line, if it is one.
fn step_of(words: &[&str]) -> Option<Step> {
    Some(match words {
        ["put", key, x] => Step::Put(key.parse().ok()?, x.parse().ok()?),
        ["del", key] => Step::Del(key.parse().ok()?),
        ["get", key] => Step::Get(key.parse().ok()?),
        ["count"] => Step::Count,
        ["region", "rtree"] => Step::Region(IndexKind::Rtree),
        ["region", "dhvb"] => Step::Region(IndexKind::Dhvb),
        ["look"] => Step::Look,
        ["freeze", least] => Step::Freeze(least.parse().ok()?),
        ["begin"] => Step::Begin,
        ["flush"] => Step::Flush,
        _ => return None,
    })
}

/// What a crash leaves of a range that isn't synced.
fn torn_of(words: &[&str]) -> Option<Torn> {
    Some(match words {
        ["old"] => Torn::Old,
        ["new"] => Torn::New,
        ["fill", byte] => Torn::Fill(byte.parse().ok()?),
        ["front", count] => Torn::Front(count.parse().ok()?),
        _ => return None,
    })
}

fn numbers_of(alloc: Global, words: &[&str]) -> Option<Vec<u64>> {
    let mut numbers = Vec::new(alloc);
    for word in words {
        numbers.push(word.parse().ok()?).ok()?;
    }
    Some(numbers)
}

/// Prints the answers from this one on, each with its step's device calls.
fn print_answers(rt: &HostRuntime, report: &Report, first: usize) -> Option<()> {
    let told = report.told.answers.iter().zip(report.told.calls.iter());
    for (answer, calls) in told.skip(first) {
        println!(rt; "{answer:?} {calls}").ok()?;
    }
    Some(())
}

fn play_last(rt: &HostRuntime, bench: &mut Bench, count: usize) -> Option<()> {
    let report = bench.play()?;
    print_answers(rt, &report, report.told.answers.len().saturating_sub(count))
}

fn play_whole(rt: &HostRuntime, bench: &mut Bench) -> Option<()> {
    let report = bench.play()?;
    print_answers(rt, &report, 0)?;
    println!(rt; "numbers {:?}", report.told.seqs).ok()?;
    println!(rt; "acks before the end {:?}", report.acks).ok()?;
    println!(rt; "declared {}", report.declared).ok()
}

fn crash(rt: &HostRuntime, bench: &Bench, calls: u64, torn: Torn) -> Option<()> {
    for answer in &bench.crash(calls, torn)? {
        println!(rt; "{answer:?}").ok()?;
    }
    Some(())
}

fn change_of(words: &[&str]) -> Option<Change> {
    Some(match words {
        ["put", key] => Change::Put(key.parse().ok()?),
        ["del", key] => Change::Del(key.parse().ok()?),
        ["freeze"] => Change::Freeze,
        ["begin"] => Change::Begin,
        ["write"] => Change::Write,
        ["install"] => Change::Install,
        _ => return None,
    })
}

/// Makes a change of lists without a device, and prints what it answers and leaves.
fn change_lists(alloc: Global, rt: &HostRuntime, state: &mut State, words: &[&str]) -> Option<()> {
    match words {
        ["flush", key] => flush(alloc, state, key.parse().ok()?)?,
        _ => {
            let answer = make(alloc, state, change_of(words)?)?;
            print!(rt; "{answer:?} ").ok()?;
        }
    }
    println!(rt; "{:?} {:?}", numbers(state), job(state)).ok()
}

/// Takes a line that is no step and prints something.
fn take_printing(alloc: Global, rt: &HostRuntime, bench: &mut Bench, words: &[&str]) -> Option<()> {
    match words {
        ["play"] => play_last(rt, bench, usize::MAX),
        ["play", "last", count] => play_last(rt, bench, count.parse().ok()?),
        ["play", "whole"] => play_whole(rt, bench),
        ["crash", calls, torn @ ..] => crash(rt, bench, calls.parse().ok()?, torn_of(torn)?),
        ["open"] => println!(rt; "{:?}", bench.refuse()?).ok(),
        ["list", change @ ..] => change_lists(alloc, rt, bench.lists_mut()?, change),
        ["clock"] => println!(rt; "clock {}", bench.clock()?).ok(),
        _ => bench.add(step_of(words)?),
    }
}

/// Takes the words of a line: a title is printed, and what begins with `#` is a remark.
fn take_words(alloc: Global, rt: &HostRuntime, bench: &mut Bench, words: &[&str]) -> Option<()> {
    match words {
        [] | ["#", ..] => Some(()),
        ["device", room, fail @ ..] => {
            let fail = numbers_of(alloc, fail)?;
            bench.format(room.parse().ok()?, &fail)
        }
        ["steps"] => {
            bench.forget_steps();
            Some(())
        }
        ["lists"] => bench.empty_lists(),
        ["puts", from, count] => bench.add_puts(from.parse().ok()?, count.parse().ok()?),
        ["flushes", from, count] => bench.add_flushes(from.parse().ok()?, count.parse().ok()?),
        ["poke", at, byte] => bench.poke(at.parse().ok()?, byte.parse().ok()?),
        _ => take_printing(alloc, rt, bench, words),
    }
}

/// Takes a line, or says that it can't.
pub fn take_line(alloc: Global, rt: &HostRuntime, bench: &mut Bench, line: &str) -> Option<()> {
    if let Some(title) = line.strip_prefix("== ") {
        return println!(rt; "== {title}").ok();
    }
    let mut words = Vec::new(alloc);
    for word in line.split_whitespace() {
        words.push(word).ok()?;
    }
    take_words(alloc, rt, bench, &words)
}
