//! What a contract sees of each read.
ghost use Rattle.std.specs.Prelude.{◌≡◌, ◌+◌, ◌≤◌, ℕ, List, Option};
ghost use Rattle.std.specs.Io.{ReadsAtMost};
ghost use Rattle.std.specs.Io.KnownBytes.{ReadConsumes};
ghost use Rattle.scmi_io.specs.Reads.{failures};

use crate::read_error::ReadError;

/// A reader whose reads are seen by contracts: how many there were, and how many from the first one on
/// that failed. What is generic over it has no other way to read.
pub trait CountedRead {
    // The bytes that reads will give from here on, if they are known.
    ghost remaining: { Self → Option (List ℕ) };

    ghost reads: { Self → ℕ };

    ghost since_failure: { Self → ℕ };

    /// Reads, at most once.
    fn read(&mut self, buffer: &mut [u8]) -> Result<usize, ReadError>
        ensures bound { ReadsAtMost result buffer.new }
        ensures bytes { ReadConsumes (remaining self.old) (remaining self.new) result buffer.new }
        ensures reads { reads self.new ≤ reads self.old + 1 }
        ensures failure { since_failure self.old ≡ 0 → since_failure self.new ≡ failures result };
}
