//! Takes the steps of cases on stores in memory, and prints what each of them answers and how many device calls it makes. Each
//! argument is a file of cases.
#![tactic(auto)]

mod bench;
mod lines;
mod lists;
mod steps;

use bench::Bench;
use lines::take_line;
use std::process::ExitCode;
use std::{env, fs, io};

/// Takes the lines of a file, up to the first that it can't, and gives that one's number.
fn take_file(rt: &HostRuntime, path: &str) -> io::Result<Option<usize>> {
    let text = fs::read_to_string(rt, path)?;
    let mut bench = Bench::new(rt.alloc());
    for (i, line) in text.lines().enumerate() {
        if take_line(rt.alloc(), rt, &mut bench, line).is_none() {
            return Ok(Some(i.saturating_add(1)));
        }
    }
    Ok(None)
}

fn take_files(rt: &HostRuntime) -> io::Result<bool> {
    for path in env::args(rt)?.skip(1) {
        if let Some(line) = take_file(rt, path.as_str())? {
            println!(rt; "{path}: line {line} isn't taken")?;
            return Ok(false);
        }
    }
    Ok(true)
}

fn main(rt: HostRuntime) -> io::Result<ExitCode> {
    match take_files(&rt)? {
        true => Ok(ExitCode::SUCCESS),
        false => Ok(ExitCode::FAILURE),
    }
}
