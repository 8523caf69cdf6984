// Where bytes come from and where they go. Either may fail, and counts how often.
ghost use Rattle.std.specs.Prelude.{◌≡◌, ℕ, ◌<◌, ◌≤◌, List, length, Option, IfOk};
ghost use Rattle.dev_model.specs.Counts.{Counts};
ghost use Rattle.dev_model.specs.StreamCalls.{Gives, Takes};

/// A call to the outside failed.
#[derive(Clone, Copy, Debug, PartialEq, Eq)]
pub struct Failed;

/// What bytes are read from.
///
/// `left` is the list of the bytes that are still to come, where the source tells them. A source that tells them goes
/// on telling them.
///
/// An implementation keeps its count of faults at every read that succeeds, and raises it at every read that fails.
/// The greatest u64 stands. So a caller knows from the count whether any read failed.
pub trait Source {
    ghost left: { Self → Option (List ℕ) };

    ghost fault_count: { Self → ℕ };

    /// How many reads have failed.
    fn faults(&self) -> u64
        ensures { result ≡ fault_count self.now };

    /// Puts the next bytes into the front of the buffer and says how many, 0 at the end alone. `Failed` leaves the
    /// bytes that are to come.
    fn read(&mut self, buf: &mut [u8]) -> Result<usize, Failed>
        requires { 0 < length buf.old }
        ensures within { IfOk result (λ n. n ≤ length buf.old) }
        ensures counts { Counts (fault_count self.old) (fault_count self.new) result }
        ensures told { Gives (left self.old) (left self.new) buf.new result };
}

/// What bytes are written to.
///
/// `taken` is the list of the bytes that it took, where the sink tells them. A sink that tells them goes on telling
/// them.
///
/// An implementation keeps its count of faults at every write that succeeds, and raises it at every write that fails.
/// The greatest u64 stands. So a caller knows from the count whether any write failed.
pub trait Sink {
    ghost taken: { Self → Option (List ℕ) };

    ghost fault_count: { Self → ℕ };

    /// How many writes have failed.
    fn faults(&self) -> u64
        ensures { result ≡ fault_count self.now };

    /// Takes the first bytes, at least one, and says how many. `Failed` takes none, and a sink that can take none
    /// answers it.
    fn write(&mut self, bytes: &[u8]) -> Result<usize, Failed>
        requires { 0 < length bytes.now }
        ensures within { IfOk result (λ n. (0 < n) × (n ≤ length bytes.now)) }
        ensures counts { Counts (fault_count self.old) (fault_count self.new) result }
        ensures told { Takes (taken self.old) (taken self.new) bytes.now result };
}
