//! Makes calls of the program on devices in memory, as cases tell them, and prints what each of them prints, its status, and how
//! many writes it acknowledges. The argument is the file of the cases.
#![tactic(auto)]

mod bench;
mod lines;
mod scripts;

use bench::Bench;
use lines::take_line;
use std::process::ExitCode;
use std::{env, fs, io};

/// Takes the lines up to the first that it can't, and gives that one's number.
fn take_lines(rt: &HostRuntime, text: &str) -> Option<usize> {
    let mut bench = Bench::new(rt.alloc());
    for (i, line) in text.lines().enumerate() {
        if take_line(rt.alloc(), rt, &mut bench, line).is_none() {
            return Some(i.saturating_add(1));
        }
    }
    None
}

fn main(rt: HostRuntime) -> io::Result<ExitCode> {
    let Some(path) = env::args(&rt)?.nth(1) else {
        println!(rt; "which file?")?;
        return Ok(ExitCode::FAILURE);
    };
    let text = fs::read_to_string(&rt, path.as_str())?;
    match take_lines(&rt, text.as_str()) {
        None => Ok(ExitCode::SUCCESS),
        Some(number) => {
            println!(rt; "line {number} isn't taken")?;
            Ok(ExitCode::FAILURE)
        }
    }
}
