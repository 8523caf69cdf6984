// A device in memory, which fails where it is told to and keeps a record of its calls.
ghost use Rattle.std.specs.Prelude.{◌≡◌, ◌⊎◌, ◌+◌, ◌-◌, ◌*◌, ◌^◌, ◌<◌, ◌≤◌, ◌↔◌, [], ◌∷◌, length, IsTrue, IfOk, OnOk, OnErr, ℕ, slice_index, Some, min, Err, IsErr};
ghost use Rattle.dev_model.specs.Story.{Read, Write, Sync, FailedWrite, FailedCall, IsImage, WhereTold, bytes_after};
ghost use Rattle.dev_model.specs.Answers.{IsReadFrom, MadeCall};
ghost use Rattle.dev_model.specs.Counts.{next_count};
ghost use Rattle.mem_device.specs.Inside.{clock_of-story, call_of, size_of, IsOnDevice};
ghost use Rattle.mem_device.specs.Memory.{zeros, story_of, seen_of, bytes_noted, HasCallLeft, IsListed, HasRoom, Refuses, with_failure, poked};
ghost use Rattle.dev_model.specs.Story.{place};
ghost use Rattle.mem_device.specs.TornImages.{image_at};

use crate::record::{CallRecord, Kept};
use crate::torn::Torn;
use dev_model::{Device, Failed};
use std::alloc::{AllocError, Global};
use std::marker::Model;

/// Why there is no image.
#[derive(Clone, Copy, Debug, PartialEq, Eq)]
pub enum ImageFault {
    NoMoment,
    OutOfMemory,
}

impl From<AllocError> for ImageFault {
    ghost use Rattle.mem_device.specs.declared.memory.ImageFault.TheVariants.{OutOfMemory};

    ghost from_gives = { λ _ e. e ≡ OutOfMemory };

    fn from(_: AllocError) -> Self {
        ImageFault::OutOfMemory
    }
}

/// A device in memory, for tests.
///
/// Its calls fail where they are listed, at the clock's last value and past its room: the record of its calls has room
/// for so many calls and for so many written bytes. A listed write that fails is torn in the images, and reads go on
/// giving the old bytes. A call past the room changes nothing.
#[derive(Drop)]
pub struct MemDevice {
    alloc: Global,
    pages: u32,
    start: Vec<u8>,
    bytes: Vec<u8>,
    kept: CallRecord,
    fail: Vec<u64>,
    faults: u64,
}

impl Model for MemDevice {
    ghost use Rattle.mem_device.specs.Memory.{MemoryState};
    ghost use Rattle.mem_device.specs.Inside.{IsSoundMemory};

    ghost Value = { MemoryState };

    ghost view = { λ d. record {
      pages = d.pages;
      start = d.start.items;
      past = d.kept.past;
      room_calls = d.kept.room_calls;
      room_bytes = d.kept.room_bytes;
      fail = d.fail.items;
      faults = d.faults;
    } };

    ghost invariant = { λ d. IsSoundMemory d.pages d.start.items d.bytes.items d.kept.past };
}

impl MemDevice {
    /// A device of zero bytes. The calls whose numbers, from 1, stand in `fail` fail, and so do those past
    /// the room for `calls` calls and for `bytes` written bytes.
    #[tactic(auto, unfolding(crate::specs::Memory::zeros))]
    pub fn new(
        alloc: Global,
        pages: u32,
        calls: u32,
        bytes: usize,
        fail: Vec<u64>,
    ) -> Result<MemDevice, AllocError>
        ensures { IfOk result (λ d. d ≡ record {
          pages = pages;
          start = zeros (pages * 4096);
          past = [];
          room_calls = calls;
          room_bytes = bytes;
          fail = fail.items;
          faults = 0;
        }) }
    {
        let start = vec![in alloc; 0u8; pages as usize * 4096]?;
        let contents = vec![in alloc; 0u8; pages as usize * 4096]?;
        let kept = CallRecord::new(alloc, calls as usize, bytes)?;
        Ok(MemDevice {
            alloc,
            pages,
            start,
            bytes: contents,
            kept,
            fail,
            faults: 0,
        })
    }

    /// One image of a moment, as a device of its own: every range that isn't synced stands as `torn` says.
    pub fn image_at(&self, moment: u64, torn: Torn) -> Result<MemDevice, ImageFault>
        ensures state { IfOk result (λ d. d ≡ record self.now { start = d.start; past = []; fail = []; faults = 0 }) }
        ensures image { IfOk result (λ d. (i : ℕ) →
            slice_index d.start i ≡ image_at torn (place self.now.start) self.now.past moment i) }
        ensures allowed { IfOk result (λ d. IsImage (story_of self.now) moment (place d.start)) }
        ensures no_moment { (result ≡ Err ImageFault.NoMoment) ↔ (length self.now.past < moment) }
    {
        if self.calls() < moment {
            return Err(ImageFault::NoMoment);
        }
        let mut image = self.start.to_vec(self.alloc)?;
        let mut bytes = self.start.to_vec(self.alloc)?;
        let kept = CallRecord::new(self.alloc, self.kept.room_calls(), self.kept.room_bytes())?;
        self.kept.replay(moment, torn, &mut bytes, &mut image);
        bytes.copy_from_slice(&image);
        Ok(MemDevice {
            alloc: self.alloc,
            pages: self.pages,
            start: image,
            bytes,
            kept,
            fail: Vec::new(self.alloc),
            faults: 0,
        })
    }

    /// Changes a byte, for tests: at clock 0, as it is read, and in each write that covers it. So it is changed in each
    /// image, but where `Torn::Fill` puts its own byte.
    pub fn poke(&mut self, at: u64, byte: u8)
        requires { at < self.old.pages * 4096 }
        ensures { self.new ≡ poked at byte self.old }
    {
        self.start[at as usize] = byte;
        self.bytes[at as usize] = byte;
        self.kept.poke(at, byte);
    }

    fn calls(&self) -> u64
        ensures count { result ≡ length self.now.past }
        ensures fits { length self.now.past < 2 ^ 64 }
    {
        self.kept.len()
    }

    fn has_call_left(&self) -> bool
        ensures { IsTrue result ↔ HasCallLeft self.now }
    {
        self.calls() < u64::MAX && !self.kept.is_full()
    }

    fn is_listed(&self) -> bool
        requires { HasCallLeft self.now }
        ensures { IsTrue result ↔ IsListed self.now }
    {
        self.fail.contains(&(self.calls() + 1))
    }

    fn has_room(&self, count: usize) -> bool
        ensures { IsTrue result ↔ HasRoom self.now count }
    {
        self.kept.has_room(count)
    }

    fn count_fault(&mut self)
        ensures state { self.new ≡ record self.old { faults = next_count self.old.faults } }
        ensures later { self.old.faults ≤ self.new.faults }
    {
        self.faults = self.faults.saturating_add(1);
    }

    fn miss_call(&mut self)
        requires counted { length self.old.past < 2 ^ 64 - 1 }
        requires full { self.old.room_calls ≤ length self.old.past }
        ensures { self.new ≡ record self.old { past = FailedCall ∷ self.old.past } }
    {
        self.kept.miss();
    }

    fn fail_call(&mut self)
        ensures state { self.new ≡ with_failure self.old }
        ensures later { self.old.faults ≤ self.new.faults }
        ensures counted { length self.new.past ≡ next_count (length self.old.past) }
    {
        self.count_fault();
        if self.calls() < u64::MAX {
            if self.has_call_left() {
                self.note(Kept::Failed, &[]);
            } else {
                self.miss_call();
            }
        }
    }

    // Keeps a call, and writes what it writes.
    fn note(&mut self, call: Kept, bytes: &[u8])
        requires left { HasCallLeft self.old }
        requires size { size_of call ≡ length bytes.now }
        requires room { 0 < length bytes.now → HasRoom self.old (length bytes.now) }
        requires on_device { IsOnDevice (self.old.pages * 4096) (call_of bytes.now call) }
        ensures { self.new ≡ record self.old { past = call_of bytes.now call ∷ self.old.past } }
    {
        change(call, bytes, &mut self.bytes);
        self.kept.note(call, bytes);
    }

    fn fetch(&self, at: u64, buf: &mut [u8])
        requires { at + length buf.old ≤ self.now.pages * 4096 }
        ensures { IsReadFrom at buf.new (story_of self.now) }
    {
        read_part(&self.bytes, at as usize, buf);
    }
}

impl Device for MemDevice {
    ghost seen = { seen_of };

    fn pages(&self) -> u32 {
        self.pages
    }

    fn clock(&self) -> u64 {
        self.calls()
    }

    fn faults(&self) -> u64 {
        self.faults
    }

    fn read(&mut self, at: u64, buf: &mut [u8]) -> Result<(), Failed>
        requires { at + length buf.old ≤ self.old.pages * 4096 }
        ensures made { MadeCall (Read at (length buf.old)) (seen_of self.old) (seen_of self.new) result }
        ensures bytes { OnOk result (WhereTold (Some (story_of self.old)) (IsReadFrom at buf.new)) }
        ensures exact { IsErr result ↔ Refuses self.old }
        ensures state { OnOk result (self.new ≡ record self.old { past = Read at (length buf.old) ∷ self.old.past }) }
        ensures failed { OnErr result (self.new ≡ with_failure self.old) }
    {
        if self.has_call_left() && !self.is_listed() {
            self.fetch(at, buf);
            let count = buf.len();
            self.note(Kept::Read { at, count }, &[]);
            Ok(())
        } else {
            self.fail_call();
            Err(Failed)
        }
    }

    fn write(&mut self, at: u64, bytes: &[u8]) -> Result<(), Failed>
        requires { at + length bytes.now ≤ self.old.pages * 4096 }
        ensures made { MadeCall (Write at bytes.now) (seen_of self.old) (seen_of self.new) result }
        ensures exact { IsErr result ↔
            (Refuses self.old ⊎ (self.old.room_bytes < bytes_noted self.old.past + length bytes.now)) }
        ensures state { OnOk result (self.new ≡ record self.old { past = Write at bytes.now ∷ self.old.past }) }
        ensures listed { HasCallLeft self.old → IsListed self.old → HasRoom self.old (length bytes.now) →
            self.new ≡ record self.old {
              past = FailedWrite at bytes.now ∷ self.old.past;
              faults = next_count self.old.faults;
            } }
        ensures past_calls { (2 ^ 64 - 1 ≤ length self.old.past) ⊎ (self.old.room_calls ≤ length self.old.past) →
            self.new ≡ with_failure self.old }
        ensures past_room { self.old.room_bytes < bytes_noted self.old.past + length bytes.now →
            self.new ≡ with_failure self.old }
    {
        let count = bytes.len();
        if !self.has_call_left() || !self.has_room(count) {
            self.fail_call();
            Err(Failed)
        } else if self.is_listed() {
            self.count_fault();
            self.note(Kept::FailedWrite { at, count }, bytes);
            Err(Failed)
        } else {
            self.note(Kept::Write { at, count }, bytes);
            Ok(())
        }
    }

    fn sync(&mut self) -> Result<(), Failed>
        ensures made { MadeCall Sync (seen_of self.old) (seen_of self.new) result }
        ensures exact { IsErr result ↔ Refuses self.old }
        ensures state { OnOk result (self.new ≡ record self.old { past = Sync ∷ self.old.past }) }
        ensures failed { OnErr result (self.new ≡ with_failure self.old) }
    {
        if self.has_call_left() && !self.is_listed() {
            self.note(Kept::Sync, &[]);
            Ok(())
        } else {
            self.fail_call();
            Err(Failed)
        }
    }

    ghost clock_told = { λ d s is. clock_of-story d s is };
}

fn read_part(bytes: &[u8], at: usize, buf: &mut [u8])
    requires { at + length buf.old ≤ length bytes.now }
    ensures { (k : ℕ) → k < length buf.new → slice_index buf.new k ≡ slice_index bytes.now (at + k) }
{
    buf.copy_from_slice(&bytes[at..at + buf.len()]);
}

// Does a call to the bytes as read.
fn change(call: Kept, new: &[u8], bytes: &mut [u8])
    requires { IsOnDevice (length bytes.old) (call_of new.now call) }
    ensures { (i : ℕ) → slice_index bytes.new i ≡ bytes_after (place bytes.old) (call_of new.now call ∷ []) i }
{
    if let Kept::Write { at, .. } = call {
        let at = at as usize;
        bytes[at..at + new.len()].copy_from_slice(new);
    }
}
