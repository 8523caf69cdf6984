// A device of pages, which may fail and may lose what was not synced.
ghost use Rattle.std.specs.Prelude.{◌≡◌, ◌+◌, ◌*◌, ◌≤◌, Some, length, OnOk};
ghost use Rattle.dev_model.specs.Story.{DeviceState, Story, Read, Write, Sync, WhereTold, clock_of};
ghost use Rattle.dev_model.specs.Answers.{IsReadFrom, MadeCall};

use crate::streams::Failed;

/// A device of `pages` pages of 4,096 bytes.
///
/// `seen` is what there is to see of it: its length, its clock, its count of faults, and its story where it tells one, the
/// bytes at clock 0 and each call of `read`, `write` and `sync` since. What is read and what a crash may leave are defined
/// of the story. A device that tells goes on telling, and one that doesn't never does.
///
/// A call fails only where the count of faults rises in it, or stands at the greatest u64.
pub trait Device {
    ghost seen: { Self → DeviceState };

    /// The device's length in pages. It never changes.
    fn pages(&self) -> u32
        ensures { result ≡ (seen self.now).pages };

    /// How many calls of `read`, `write` and `sync` were made, failed ones too. The greatest u64 stands, and from then on
    /// each call fails.
    fn clock(&self) -> u64
        ensures { result ≡ (seen self.now).clock };

    /// How often a call has failed, or more.
    fn faults(&self) -> u64
        ensures { result ≡ (seen self.now).faults };

    /// Fills the buffer with the bytes from `at` on. Where a write has failed and the place was not written since, a read
    /// may give any byte.
    fn read(&mut self, at: u64, buf: &mut [u8]) -> Result<(), Failed>
        requires { at + length buf.old ≤ (seen self.old).pages * 4096 }
        ensures made { MadeCall (Read at (length buf.old)) (seen self.old) (seen self.new) result }
        ensures bytes { OnOk result (WhereTold (seen self.old).story (IsReadFrom at buf.new)) };

    /// Writes the bytes from `at` on. Until the next sync a crash may leave anything there, also after `Failed`.
    fn write(&mut self, at: u64, bytes: &[u8]) -> Result<(), Failed>
        requires { at + length bytes.now ≤ (seen self.old).pages * 4096 }
        ensures { MadeCall (Write at bytes.now) (seen self.old) (seen self.new) result };

    /// From here on a crash leaves what was written before. `Failed` leaves all of it open.
    fn sync(&mut self) -> Result<(), Failed>
        ensures { MadeCall Sync (seen self.old) (seen self.new) result };

    /// The clock counts the calls that are told.
    ghost clock_told: { (device : Self) (s : Story) → (seen device).story ≡ Some s → (seen device).clock ≡ clock_of s };
}
