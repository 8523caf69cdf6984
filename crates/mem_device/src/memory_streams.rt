// A source and a sink in memory, which fail where they are told. For tests.
ghost use Rattle.std.specs.Prelude.{◌≡◌, ℕ, ◌+◌, ◌-◌, ◌<◌, ◌≤◌, ◌⊎◌, ◌↔◌, min, List, [], ◌++◌, take, drop, length, Option, Some, IfOk, OnErr, IsErr, Contains};
ghost use Rattle.dev_model.specs.Counts.{Counts, next_count};
ghost use Rattle.dev_model.specs.StreamCalls.{Gives, Takes};

use dev_model::{Failed, Sink, Source};
use std::alloc::{AllocError, Global};
use std::marker::Model;

/// A source of these bytes. The reads whose numbers, counted from 1, stand in `fail` answer `Failed`.
#[derive(Drop)]
pub struct MemSource {
    bytes: Vec<u8>,
    next: usize,
    calls: u64,
    faults: u64,
    fail: Vec<u64>,
}

impl Model for MemSource {
    ghost use Rattle.std.specs.Prelude.{◌≤◌, drop, vec_len};
    ghost use Rattle.mem_device.specs.Planned.{PlannedSource};

    ghost Value = { PlannedSource };

    ghost view = { λ s. record { left = drop s.next s.bytes.items; calls = s.calls; faults = s.faults; fail = s.fail.items } };

    ghost invariant = { λ s. s.next ≤ vec_len s.bytes };
}

impl MemSource {
    pub fn new(bytes: Vec<u8>, fail: Vec<u64>) -> Self
        ensures { result ≡ record { left = bytes.items; calls = 0; faults = 0; fail = fail.items } }
    {
        MemSource {
            bytes,
            next: 0,
            calls: 0,
            faults: 0,
            fail,
        }
    }
}

impl Source for MemSource {
    ghost left = { λ s. Some s.left };

    ghost fault_count = { λ s. s.faults };

    fn faults(&self) -> u64 {
        self.faults
    }

    fn read(&mut self, buf: &mut [u8]) -> Result<usize, Failed>
        requires { 0 < length buf.old }
        ensures within { IfOk result (λ n. n ≤ length buf.old) }
        ensures counts { Counts self.old.faults self.new.faults result }
        ensures told { Gives (Some self.old.left) (Some self.new.left) buf.new result }

        ensures exact { IsErr result ↔ Contains self.old.fail (next_count self.old.calls) }
        ensures most { IfOk result (λ n. n ≡ min (length buf.old) (length self.old.left)) }
        ensures given { IfOk result (λ n.
            self.new ≡ record self.old { left = drop n self.old.left; calls = next_count self.old.calls }) }
        ensures failed { OnErr result (
            self.new ≡ record self.old { calls = next_count self.old.calls; faults = next_count self.old.faults }) }
    {
        self.calls = self.calls.saturating_add(1);
        if self.fail.contains(&self.calls) {
            self.faults = self.faults.saturating_add(1);
            return Err(Failed);
        }
        let n = buf.len().min(self.bytes.len() - self.next);
        buf[..n].copy_from_slice(&self.bytes[self.next..self.next + n]);
        self.next += n;
        Ok(n)
    }
}

/// A sink with room for so many bytes. It answers `Failed` where no room is left, and at the writes whose numbers,
/// counted from 1, stand in `fail`.
#[derive(Drop)]
pub struct MemSink {
    bytes: Vec<u8>,
    room: usize,
    calls: u64,
    faults: u64,
    fail: Vec<u64>,
}

impl Model for MemSink {
    ghost use Rattle.std.specs.Prelude.{◌≤◌, vec_len, vec_capacity};
    ghost use Rattle.mem_device.specs.Planned.{PlannedSink};

    ghost Value = { PlannedSink };

    ghost view = { λ s. record { taken = s.bytes.items; room = s.room; calls = s.calls; faults = s.faults; fail = s.fail.items } };

    ghost invariant = { λ s. (vec_len s.bytes ≤ s.room) × (s.room ≤ vec_capacity s.bytes) };
}

impl MemSink {
    /// Takes the memory for the whole room, so that no write wants any.
    pub fn new(alloc: Global, room: usize, fail: Vec<u64>) -> Result<Self, AllocError>
        ensures { IfOk result (λ s. s ≡ record { taken = []; room = room; calls = 0; faults = 0; fail = fail.items }) }
    {
        let bytes = Vec::with_capacity(alloc, room)?;
        Ok(MemSink {
            bytes,
            room,
            calls: 0,
            faults: 0,
            fail,
        })
    }

    /// The bytes that it took.
    pub fn taken(&self) -> &[u8]
        ensures { result.now ≡ self.now.taken }
    {
        self.bytes.as_slice()
    }
}

impl Sink for MemSink {
    ghost taken = { λ s. Some s.taken };

    ghost fault_count = { λ s. s.faults };

    fn faults(&self) -> u64 {
        self.faults
    }

    fn write(&mut self, bytes: &[u8]) -> Result<usize, Failed>
        requires { 0 < length bytes.now }
        ensures within { IfOk result (λ n. (0 < n) × (n ≤ length bytes.now)) }
        ensures counts { Counts self.old.faults self.new.faults result }
        ensures told { Takes (Some self.old.taken) (Some self.new.taken) bytes.now result }

        ensures exact { IsErr result ↔
            (Contains self.old.fail (next_count self.old.calls) ⊎ (self.old.room ≤ length self.old.taken)) }
        ensures most { IfOk result (λ n. n ≡ min (length bytes.now) (self.old.room - length self.old.taken)) }
        ensures given { IfOk result (λ n.
            self.new ≡ record self.old { taken = self.old.taken ++ take n bytes.now; calls = next_count self.old.calls }) }
        ensures failed { OnErr result (
            self.new ≡ record self.old { calls = next_count self.old.calls; faults = next_count self.old.faults }) }
    {
        self.calls = self.calls.saturating_add(1);
        if self.fail.contains(&self.calls) || self.room <= self.bytes.len() {
            self.faults = self.faults.saturating_add(1);
            return Err(Failed);
        }
        let n = bytes.len().min(self.room - self.bytes.len());
        match self.bytes.extend_from_slice(&bytes[..n]) {
            Ok(()) => Ok(n),
            Err(_) => unreachable!(),
        }
    }
}
