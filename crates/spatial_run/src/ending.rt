// How a call of the program ends: what it prints and its status.
ghost use Rattle.std.specs.Prelude.{◌≡◌, ◌++◌, decimal};
ghost use Rattle.dev_model.specs.Counts.{Counts};
ghost use Rattle.dev_model.specs.Streams.{Says};
ghost use Rattle.table_model.specs.Commands.{Command};
ghost use Rattle.table_model.specs.Phases.{Phases};
ghost use Rattle.table_model.specs.Record as model;
ghost use Rattle.spatial_run.specs.Endings.{status_of, own_status, ending_text, not_opened, ran};
ghost use Rattle.spatial_run.specs.EndingViews.{ending_of};
ghost use Rattle.spatial_run.specs.Steps.{IsPlain};

use crate::outcomes::{Refusals, print_outcomes};
use crate::record::RunRecord;
use dev_model::{Failed, Sink, send_all};
use itoa::Buffer;
use script_lang::Script;
use store_opening::OpenFault;

#[derive(Drop)]
pub(crate) enum Ending {
    BadWords,
    SourceFault,
    BadLine(u64),
    TooLong,
    NoMemory,
    FormatFailed,
    Formatted(u32),
    NotOpened(OpenFault),
    Ran(Script, RunRecord, Refusals),
}

// Prints a number between two texts.
fn print_number<K: Sink>(out: &mut K, front: &[u8], number: u64, end: &[u8]) -> Result<(), Failed>
    ensures counts { Counts (K.fault_count out.old) (K.fault_count out.new) result }
    ensures told { Says (K.taken out.old) (K.taken out.new) (front.now ++ (decimal number ++ end.now)) result }
{
    let mut digits = Buffer::new();
    if let Err(e) = send_all(out, front) {
        return Err(e);
    }
    if let Err(e) = send_all(out, digits.format(number).as_bytes()) {
        return Err(e);
    }
    send_all(out, end)
}

fn print_fault<K: Sink>(out: &mut K, fault: OpenFault) -> Result<(), Failed>
    ensures counts { Counts (K.fault_count out.old) (K.fault_count out.new) result }
    ensures told { Says (K.taken out.old) (K.taken out.new) (ending_text (not_opened fault)) result }
{
    match fault {
        OpenFault::NotFormatted => send_all(out, b"bad image: not formatted\n"),
        OpenFault::BadSlot(n) => print_number(out, b"bad image: slot ", u64::from(n), b"\n"),
        OpenFault::BadLog(k) => print_number(out, b"bad image: segment ", u64::from(k), b"\n"),
        OpenFault::Fault => send_all(out, b"device fault\n"),
        OpenFault::OutOfMemory => send_all(out, b"no memory\n"),
    }
}

/// Prints the one line of an ending, or the record of a run.
pub(crate) fn print_ending<K: Sink>(out: &mut K, ending: &Ending) -> Result<(), Failed>
    requires { IsPlain (ending_of ending.now) }
    ensures counts { Counts (K.fault_count out.old) (K.fault_count out.new) result }
    ensures told { Says (K.taken out.old) (K.taken out.new) (ending_text (ending_of ending.now)) result }
{
    match ending {
        Ending::BadWords => send_all(out, b"bad words\n"),
        Ending::SourceFault => send_all(out, b"source fault\n"),
        Ending::BadLine(line) => print_number(out, b"line ", *line, b": bad\n"),
        Ending::TooLong => send_all(out, b"too long\n"),
        Ending::NoMemory => send_all(out, b"no memory\n"),
        Ending::FormatFailed => send_all(out, b"device fault\n"),
        Ending::Formatted(pages) => print_number(out, b"formatted ", u64::from(*pages), b"\n"),
        Ending::NotOpened(fault) => print_fault(out, *fault),
        Ending::Ran(_, record, _) => print_outcomes(out, record.setup.as_slice()),
    }
}

fn status_of_run(refusals: Refusals) -> u8
    ensures { (script : Phases Command) (outcomes : model.RunRecord) → result ≡ own_status (ran script outcomes refusals) }
{
    if refusals.damaged {
        6
    } else if refusals.device {
        5
    } else if refusals.full {
        7
    } else if refusals.no_index {
        9
    } else if refusals.memory {
        8
    } else {
        0
    }
}

fn own_status(ending: &Ending) -> u8
    ensures { result ≡ own_status (ending_of ending.now) }
{
    match ending {
        Ending::BadWords => 1,
        Ending::SourceFault => 3,
        Ending::BadLine(_) | Ending::TooLong => 2,
        Ending::NotOpened(OpenFault::NotFormatted | OpenFault::BadSlot(_) | OpenFault::BadLog(_)) =>
            6,
        Ending::FormatFailed | Ending::NotOpened(OpenFault::Fault) => 5,
        Ending::NoMemory | Ending::NotOpened(OpenFault::OutOfMemory) => 8,
        Ending::Formatted(_) => 0,
        Ending::Ran(_, _, refusals) => status_of_run(*refusals),
    }
}

/// The status of an ending whose text was sent or cut off.
pub(crate) fn status(ending: &Ending, sent: Result<(), Failed>) -> u8
    ensures { result ≡ status_of (ending_of ending.now) sent }
{
    match own_status(ending) {
        0 | 8 if sent.is_err() => 4,
        status => status,
    }
}
