// A record of calls that takes no memory after it was made.
ghost use Rattle.std.specs.Prelude.{◌≡◌, ◌+◌, ◌<◌, ◌-◌, ◌^◌, ◌↔◌, ◌≤◌, ◌++◌, [], ◌∷◌, length, reverse, IsTrue, IfOk, vec_len, vec_capacity, ℕ, slice_index, map};
ghost use Rattle.std.specs.List.{sum_by};
ghost use Rattle.dev_model.specs.Story.{FailedCall, bytes_after};
ghost use Rattle.mem_device.specs.Memory.{bytes_noted, poked_call};
ghost use Rattle.dev_model.specs.Story.{place};
ghost use Rattle.mem_device.specs.Inside.{call_of, calls_of, size_of, IsOnDevice, AreOnDevice};
ghost use Rattle.mem_device.specs.TornImages.{image_with, image_during, image_at};

use crate::torn::{Torn, overlay};
use std::alloc::{AllocError, Global};
use std::marker::Model;

/// A call as it is kept: what it wrote stands elsewhere.
#[derive(Clone, Copy)]
pub enum Kept {
    Read { at: u64, count: usize },
    Write { at: u64, count: usize },
    FailedWrite { at: u64, count: usize },
    Sync,
    Failed,
}

impl Kept {
    // How many of the written bytes are those of this call.
    fn size(self) -> usize
        ensures { result ≡ size_of self }
    {
        match self {
            Kept::Write { count, .. } | Kept::FailedWrite { count, .. } => count,
            Kept::Read { .. } | Kept::Sync | Kept::Failed => 0,
        }
    }
}

/// The calls, and behind each other the bytes that they wrote. Past the room for calls they are only counted.
#[derive(Drop)]
pub struct CallRecord {
    calls: Vec<Kept>,
    written: Vec<u8>,
    missed: u64,
    room_calls: usize,
    room_bytes: usize,
}

impl Model for CallRecord {
    ghost use Rattle.std.specs.Prelude.{reverse, vec_capacity};
    ghost use Rattle.mem_device.specs.Inside.{Noted, calls_of, with_missed, IsSound};

    ghost Value = { Noted };

    ghost view = { λ r. record {
      past = with_missed r.missed (reverse (calls_of r.calls.items r.written.items));
      room_calls = r.room_calls;
      room_bytes = r.room_bytes;
    } };

    ghost invariant = { λ r. IsSound r.calls.items r.written.items r.missed r.room_calls r.room_bytes (vec_capacity r.calls) (vec_capacity r.written) };
}

impl CallRecord {
    pub fn new(
        alloc: Global,
        room_calls: usize,
        room_bytes: usize,
    ) -> Result<CallRecord, AllocError>
        ensures { IfOk result (λ r. r ≡ record { past = []; room_calls = room_calls; room_bytes = room_bytes }) }
    {
        Ok(CallRecord {
            calls: Vec::with_capacity(alloc, room_calls)?,
            written: Vec::with_capacity(alloc, room_bytes)?,
            missed: 0,
            room_calls,
            room_bytes,
        })
    }

    /// How many calls there were.
    pub fn len(&self) -> u64
        ensures { result ≡ length self.now.past }
    {
        self.calls.len() as u64 + self.missed
    }

    pub fn room_calls(&self) -> usize
        ensures { result ≡ self.now.room_calls }
    {
        self.room_calls
    }

    pub fn room_bytes(&self) -> usize
        ensures { result ≡ self.now.room_bytes }
    {
        self.room_bytes
    }

    /// Makes the image of a moment out of the bytes at the start, which stand in both buffers.
    pub fn replay(&self, moment: u64, torn: Torn, bytes: &mut [u8], image: &mut [u8])
        requires on_device { AreOnDevice (length bytes.old) self.now.past }
        requires same { image.old ≡ bytes.old }
        ensures { (i : ℕ) → slice_index image.new i ≡ image_at torn (place image.old) self.now.past moment i }
    {
        let count = (moment as usize).min(self.calls.len());
        replay_calls(&self.calls, &self.written, count, torn, bytes, image);
    }

    /// Changes the byte at a place of the device in each write that covers it.
    pub fn poke(&mut self, at: u64, byte: u8)
        ensures { self.new ≡ record self.old { past = map (poked_call at byte) self.old.past } }
    {
        poke_calls(&self.calls, &mut self.written, at, byte);
    }

    pub fn is_full(&self) -> bool
        ensures { IsTrue result ↔ (self.now.room_calls ≤ length self.now.past) }
    {
        self.room_calls <= self.calls.len()
    }

    /// Whether so many bytes more have room.
    pub fn has_room(&self, count: usize) -> bool
        ensures { IsTrue result ↔ (bytes_noted self.now.past + count ≤ self.now.room_bytes) }
    {
        count <= self.room_bytes - self.written.len()
    }

    /// Counts a call that has no room.
    pub fn miss(&mut self)
        requires counted { length self.old.past < 2 ^ 64 - 1 }
        requires full { self.old.room_calls ≤ length self.old.past }
        ensures { self.new ≡ record self.old { past = FailedCall ∷ self.old.past } }
    {
        self.missed += 1;
    }

    /// Keeps one call more, with the bytes that it wrote.
    pub fn note(&mut self, call: Kept, bytes: &[u8])
        requires calls { length self.old.past < self.old.room_calls }
        requires size { size_of call ≡ length bytes.now }
        requires room { 0 < length bytes.now → bytes_noted self.old.past + length bytes.now ≤ self.old.room_bytes }
        ensures { self.new ≡ record self.old { past = call_of bytes.now call ∷ self.old.past } }
    {
        push_within(&mut self.calls, call);
        extend_within(&mut self.written, bytes);
    }
}

// Changes the byte at a place of the device in what a call wrote.
fn poke_call(call: Kept, bytes: &mut [u8], at: u64, byte: u8)
    ensures { call_of bytes.new call ≡ poked_call at byte (call_of bytes.old call) }
{
    match call {
        Kept::Write { at: start, .. } | Kept::FailedWrite { at: start, .. } => {
            if start <= at && at - start < bytes.len() as u64 {
                bytes[(at - start) as usize] = byte;
            }
        }
        Kept::Read { .. } | Kept::Sync | Kept::Failed => {}
    }
}

fn poke_calls(calls: &[Kept], written: &mut [u8], at: u64, byte: u8)
    requires { sum_by size_of calls.now ≡ length written.old }
    ensures { calls_of calls.now written.new ≡ map (poked_call at byte) (calls_of calls.now written.old) }
{
    let mut from = 0;
    for call in calls {
        let end = from + call.size();
        poke_call(*call, &mut written[from..end], at, byte);
        from = end;
    }
}

// Does one call more to the bytes as read and to an image.
fn replay_call(call: Kept, new: &[u8], torn: Torn, bytes: &mut [u8], image: &mut [u8])
    requires on_device { IsOnDevice (length bytes.old) (call_of new.now call) }
    requires same { length image.old ≡ length bytes.old }
    ensures bytes { (i : ℕ) → slice_index bytes.new i ≡ bytes_after (place bytes.old) (call_of new.now call ∷ []) i }
    ensures image { (i : ℕ) → slice_index image.new i ≡ image_with torn (call_of new.now call) (place bytes.old) (place image.old) i }
{
    match call {
        Kept::Write { at, .. } => {
            overlay(Torn::New, at as usize, new, bytes);
            overlay(torn, at as usize, new, image);
        }
        Kept::FailedWrite { at, .. } => overlay(torn, at as usize, new, image),
        Kept::Sync => image.copy_from_slice(bytes),
        Kept::Read { .. } | Kept::Failed => {}
    }
}

// Tears the range of a call that is under way.
fn tear_call(call: Kept, new: &[u8], torn: Torn, image: &mut [u8])
    requires on_device { IsOnDevice (length image.old) (call_of new.now call) }
    ensures { (i : ℕ) → slice_index image.new i ≡ image_during torn (call_of new.now call) (place image.old) i }
{
    match call {
        Kept::Write { at, .. } | Kept::FailedWrite { at, .. } => {
            overlay(torn, at as usize, new, image);
        }
        Kept::Read { .. } | Kept::Sync | Kept::Failed => {}
    }
}

// Makes the image of a moment out of the bytes at the start, which stand in both buffers.
fn replay_calls(
    calls: &[Kept],
    written: &[u8],
    moment: usize,
    torn: Torn,
    bytes: &mut [u8],
    image: &mut [u8],
)
    requires written { sum_by size_of calls.now ≡ length written.now }
    requires on_device { AreOnDevice (length bytes.old) (reverse (calls_of calls.now written.now)) }
    requires same { image.old ≡ bytes.old }
    requires moment { moment ≤ length calls.now }
    ensures { (i : ℕ) → slice_index image.new i ≡ image_at torn (place image.old) (reverse (calls_of calls.now written.now)) moment i }
{
    let mut from = 0;
    for index in 0..moment {
        let end = from + calls[index].size();
        replay_call(calls[index], &written[from..end], torn, bytes, image);
        from = end;
    }
    if moment < calls.len() {
        let end = from + calls[moment].size();
        tear_call(calls[moment], &written[from..end], torn, image);
    }
}

// Puts a call behind the others, in room that was taken before.
fn push_within(calls: &mut Vec<Kept>, call: Kept)
    requires { vec_len calls.old < vec_capacity calls.old }
    ensures items { calls.new.items ≡ calls.old.items ++ call ∷ [] }
    ensures capacity { vec_capacity calls.old ≤ vec_capacity calls.new }
{
    match calls.push(call) {
        Ok(()) => {}
        Err(_) => unreachable!(),
    }
}

fn extend_within(written: &mut Vec<u8>, bytes: &[u8])
    requires { vec_len written.old + length bytes.now ≤ vec_capacity written.old }
    ensures items { written.new.items ≡ written.old.items ++ bytes.now }
    ensures capacity { vec_capacity written.old ≤ vec_capacity written.new }
{
    match written.extend_from_slice(bytes) {
        Ok(()) => {}
        Err(_) => unreachable!(),
    }
}
