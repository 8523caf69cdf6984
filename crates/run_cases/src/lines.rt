// The lines of a file of cases.

use crate::bench::{Bench, Left};
use std::alloc::Global;

/// Prints the last lines of a text, each behind a `>`, and what stands behind its last line feed behind a `~`.
fn print_text(alloc: Global, rt: &HostRuntime, text: &str, count: usize) -> Option<()> {
    let mut lines = Vec::new(alloc);
    for line in text.split('\n') {
        lines.push(line).ok()?;
    }
    let rest = lines.pop()?;
    for line in lines.iter().skip(lines.len().saturating_sub(count)) {
        println!(rt; "> {line}").ok()?;
    }
    if !rest.is_empty() {
        println!(rt; "~ {rest}").ok()?;
    }
    Some(())
}

/// Makes the call, and prints the last lines of its text, its status, and how many writes are acknowledged.
fn run(alloc: Global, rt: &HostRuntime, bench: &mut Bench<'_>, count: usize) -> Option<()> {
    let Left { status, text, acks } = bench.run()?;
    print_text(alloc, rt, str::from_utf8(&text).ok()?, count)?;
    println!(rt; "status {status}, {acks} acks").ok()
}

fn read(rt: &HostRuntime, bench: &Bench<'_>) -> Option<()> {
    match bench.read()? {
        Ok(count) => println!(rt; "{count} commands").ok(),
        Err(fault) => println!(rt; "{fault:?}").ok(),
    }
}

/// Takes the words of a line that prints something.
fn take_printing(
    alloc: Global,
    rt: &HostRuntime,
    bench: &mut Bench<'_>,
    words: &[&str],
) -> Option<()> {
    match words {
        ["run"] => run(alloc, rt, bench, usize::MAX),
        ["run", "last", count] => run(alloc, rt, bench, count.parse().ok()?),
        ["read"] => read(rt, bench),
        ["bytes", at] => println!(rt; "{:?}", bench.bytes_at(at.parse().ok()?)?).ok(),
        ["clock"] => println!(rt; "clock {}", bench.clock()?).ok(),
        _ => None,
    }
}

/// Takes the words of a line that is no text.
fn take_words<'a>(
    alloc: Global,
    rt: &HostRuntime,
    bench: &mut Bench<'a>,
    words: &[&'a str],
) -> Option<()> {
    match words {
        [] | ["#", ..] => {}
        ["device", room] => bench.begin(room.parse().ok()?, 0)?,
        ["device", room, failing_call] => {
            bench.begin(room.parse().ok()?, failing_call.parse().ok()?)?;
        }
        ["words", words @ ..] => bench.call.words = Vec::from_slice(alloc, words).ok()?,
        ["failing", "read", call] => bench.call.failing_read = call.parse().ok()?,
        ["sink", room] => bench.call.sink_room = room.parse().ok()?,
        ["script"] => bench.call.script.clear(),
        ["poke", at, byte] => bench.poke(at.parse().ok()?, byte.parse().ok()?)?,
        _ => take_printing(alloc, rt, bench, words)?,
    }
    Some(())
}

/// Adds a text to the script for each number of a range: `FROM TO TEXT`.
fn add_many(bench: &mut Bench<'_>, line: &str) -> Option<()> {
    let (first, rest) = line.split_once(' ')?;
    let (last, text) = rest.split_once(' ')?;
    let first: u64 = first.parse().ok()?;
    let last: u64 = last.parse().ok()?;
    for number in first..=last {
        bench.call.script.add(text, number)?;
    }
    Some(())
}

/// Takes a line, or says that it can't. A title is printed, what begins with `#` is a remark, and a text goes to the script.
pub fn take_line<'a>(
    alloc: Global,
    rt: &HostRuntime,
    bench: &mut Bench<'a>,
    line: &'a str,
) -> Option<()> {
    if let Some(title) = line.strip_prefix("== ") {
        return println!(rt; "== {title}").ok();
    }
    if let Some(text) = line.strip_prefix("text ") {
        return bench.call.script.add(text, 0);
    }
    if let Some(text) = line.strip_prefix("many ") {
        return add_many(bench, text);
    }
    let mut words = Vec::new(alloc);
    for word in line.split_whitespace() {
        words.push(word).ok()?;
    }
    take_words(alloc, rt, bench, &words)
}
