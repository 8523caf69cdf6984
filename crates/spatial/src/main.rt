// The program: `spatial FILE PAGES WORDS...` does what the words ask for on a file of so many pages. A script comes from standard
// input, and all that is printed goes to standard output.
#![tactic(auto)]

ghost use Rattle.std.specs.Prelude.{◌≡◌, ◌==◌, ◌&&◌, ◌||◌, ◌≤◌, IfSome, if◌then◌else◌, is_err};

use dev_model::{Failed, ReadSource, WriteSink};
use file_device::FileDevice;
use script_lang::read_number;
use space_map::{LEAST_PAGES, MOST_PAGES};
use spatial_run::run_top;
use std::alloc::Global;
use std::io::{BufReader, BufWriter, ErrorKind};
use std::process::ExitCode;
use std::{env, io};

// A system call reads or writes so many bytes at the most.
const BUFFER: usize = 65_536;

// The words behind the program's name.
fn words_of(alloc: Global, rt: &HostRuntime) -> io::Result<Vec<String>> {
    let mut words = Vec::new(alloc);
    for word in env::args(rt)?.skip(1) {
        words.push(word)?;
    }
    Ok(words)
}

// Words that are no text are outside the language of words, as no words are.
fn words_or_none(alloc: Global, rt: &HostRuntime) -> io::Result<Vec<String>> {
    match words_of(alloc, rt) {
        Err(e) if e.kind() == ErrorKind::InvalidData => Ok(Vec::new(alloc)),
        other => other,
    }
}

fn texts_of<'a>(alloc: Global, words: &'a [String]) -> io::Result<Vec<&'a str>> {
    let mut texts = Vec::new(alloc);
    for word in words {
        texts.push(word.as_str())?;
    }
    Ok(texts)
}

// The pages that a word gives.
fn pages_of(word: &str) -> Option<u32>
    ensures { IfSome result (λ pages. (LEAST_PAGES ≤ pages) × (pages ≤ MOST_PAGES)) }
{
    match read_number(word.as_bytes(), u64::from(MOST_PAGES)) {
        Some(pages) if pages >= u64::from(LEAST_PAGES) => Some(pages as u32),
        _ => None,
    }
}

// A text that fails at the last flush is cut off: status 4 comes before 8, and behind all others.
fn status_when_flushed(status: u8, flushed: Result<(), Failed>) -> u8
    ensures { result ≡ (if is_err flushed && (status == 0 || status == 8) then 4 else status) }
{
    match status {
        0 | 8 if flushed.is_err() => 4,
        _ => status,
    }
}

fn run(alloc: Global, rt: &HostRuntime, words: &[&str], device: FileDevice) -> io::Result<u8>
    requires least { LEAST_PAGES ≤ device.pages }
    requires most { device.pages ≤ MOST_PAGES }
{
    let mut script = ReadSource::new(BufReader::with_capacity(alloc, BUFFER, rt.stdin())?);
    let mut out = WriteSink::new(BufWriter::with_capacity(alloc, BUFFER, rt.stdout())?);
    let ended = run_top(alloc, words, &mut script, &mut out, device);
    Ok(status_when_flushed(ended.status, out.flush()))
}

// Prints one line, and answers the status that it goes with.
fn say(rt: &HostRuntime, line: &str, status: u8) -> u8 {
    match rt.print(line) {
        Ok(()) => status,
        Err(_) if status == 8 => 4,
        Err(_) => status,
    }
}

// The file is made or lengthened and locked before anything else is done.
fn start(alloc: Global, rt: &HostRuntime) -> io::Result<u8> {
    let words = words_or_none(alloc, rt)?;
    let texts = texts_of(alloc, words.as_slice())?;
    let [file, pages, task @ ..] = texts.as_slice() else {
        return Ok(say(rt, "bad words\n", 1));
    };
    if task.is_empty() {
        return Ok(say(rt, "bad words\n", 1));
    }
    let Some(pages) = pages_of(pages) else {
        return Ok(say(rt, "bad words\n", 1));
    };
    match FileDevice::open(rt, file, pages) {
        Ok(device) => run(alloc, rt, task, device),
        Err(_) => Ok(say(rt, "device fault\n", 5)),
    }
}

// What fails before the top call is want of memory.
fn main(rt: HostRuntime) -> ExitCode {
    match start(rt.alloc(), &rt) {
        Ok(status) => ExitCode::from(status),
        Err(_) => ExitCode::from(say(&rt, "no memory\n", 8)),
    }
}
