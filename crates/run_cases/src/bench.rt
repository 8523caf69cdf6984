// A device at rest, and the call of the program that is to be made on it.

use crate::scripts::ScriptText;
use dev_model::Device;
use mem_device::{MemDevice, MemSink, MemSource};
use script_lang::{ScriptFault, read_script};
use space_map::{LEAST_PAGES, MOST_PAGES};
use spatial_run::run_top;
use std::alloc::Global;

/// A call without its device. The read of this number fails, and the sink has room for so many bytes.
#[derive(Drop)]
pub struct Call<'a> {
    pub words: Vec<&'a str>,
    pub script: ScriptText,
    pub failing_read: u64,
    pub sink_room: usize,
}

#[derive(Drop)]
pub struct Bench<'a> {
    alloc: Global,
    device: Option<MemDevice>,
    pub call: Call<'a>,
}

/// What a call leaves beside its device.
#[derive(Drop)]
pub struct Left {
    pub status: u8,
    pub text: Vec<u8>,
    pub acks: usize,
}

// The text of most calls.
const ROOM: usize = 4096;

fn called(alloc: Global, call: &Call<'_>, device: MemDevice) -> Option<(Left, MemDevice)> {
    if device.pages() < LEAST_PAGES || device.pages() > MOST_PAGES {
        return None;
    }
    let mut source = source_of(alloc, call)?;
    let mut sink = MemSink::new(alloc, call.sink_room, Vec::new(alloc)).ok()?;
    let ended = run_top(alloc, &call.words, &mut source, &mut sink, device);
    let left = Left {
        status: ended.status,
        text: sink.taken().to_vec(alloc).ok()?,
        acks: ended.acks.as_slice().len(),
    };
    Some((left, ended.device))
}

fn source_of(alloc: Global, call: &Call<'_>) -> Option<MemSource> {
    let fail = [call.failing_read].to_vec(alloc).ok()?;
    let script = call.script.bytes().to_vec(alloc).ok()?;
    Some(MemSource::new(script, fail))
}

impl<'a> Bench<'a> {
    pub fn new(alloc: Global) -> Bench<'a> {
        Bench {
            alloc,
            device: None,
            call: Call {
                words: Vec::new(alloc),
                script: ScriptText::new(alloc),
                failing_read: 0,
                sink_room: ROOM,
            },
        }
    }

    /// Begins with a device of zeros with room for so many written bytes, of which one call fails, and with a call that has
    /// no script yet.
    pub fn begin(&mut self, room: usize, failing_call: u64) -> Option<()> {
        let fail = [failing_call].to_vec(self.alloc).ok()?;
        self.device = Some(MemDevice::new(self.alloc, 1024, 20_000, room, fail).ok()?);
        self.call.failing_read = 0;
        self.call.sink_room = ROOM;
        self.call.script.clear();
        Some(())
    }

    /// Makes the call, and keeps the device that it gives back.
    pub fn run(&mut self) -> Option<Left> {
        let device = self.device.take()?;
        let (left, device) = called(self.alloc, &self.call, device)?;
        self.device = Some(device);
        Some(left)
    }

    /// How many commands the script has, or why it isn't read.
    pub fn read(&self) -> Option<Result<usize, ScriptFault>> {
        let mut source = source_of(self.alloc, &self.call)?;
        match read_script(self.alloc, &mut source) {
            Ok(script) => Some(Ok(script.setup.len())),
            Err(fault) => Some(Err(fault)),
        }
    }

    /// Changes a byte of the device.
    pub fn poke(&mut self, at: u64, byte: u8) -> Option<()> {
        let device = self.device.as_mut()?;
        if at >= u64::from(device.pages()) * 4096 {
            return None;
        }
        device.poke(at, byte);
        Some(())
    }

    /// Sixteen bytes of the device.
    pub fn bytes_at(&mut self, at: u64) -> Option<[u8; 16]> {
        let device = self.device.as_mut()?;
        if at.checked_add(16)? > u64::from(device.pages()) * 4096 {
            return None;
        }
        let mut bytes = [0; 16];
        device.read(at, &mut bytes).ok()?;
        Some(bytes)
    }

    pub fn clock(&self) -> Option<u64> {
        Some(self.device.as_ref()?.clock())
    }
}
