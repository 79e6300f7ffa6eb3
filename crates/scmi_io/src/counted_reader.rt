//! A reader with the count of its reads.
ghost use Rattle.std.specs.Prelude.{◌≡◌, ◌+◌, ◌<◌, ◌≤◌, ◌^◌};
ghost use Rattle.std.specs.Io.{ReadsAtMost};
ghost use Rattle.std.specs.Io.KnownBytes.{ReadConsumes};
ghost use Rattle.scmi_io.specs.Reads.{IsReason, Reports, failures};

use crate::counted_read::CountedRead;
use crate::read_error::ReadError;
use crate::source::Source;
use std::io::{Error, ErrorKind, Read};
use std::marker::Model;

/// A reader that is read by `read` alone, which counts. The counts stop at `u64::MAX`. A contract sees
/// what the reader gave last.
#[derive(Drop)]
pub struct CountedReader<'a, R: Read> {
    source: Source<'a, R>,
    since_failure: u64,
}

impl<'a, R: Read> Model for CountedReader<'a, R> {
    ghost use Rattle.scmi_io.specs.Reads.{CountedView};

    ghost Value = { CountedView };

    ghost view = { λ r. record {
      left = r.source.left;
      reads = r.source.reads;
      since_failure = r.since_failure;
      last = r.source.last;
    } };
}

impl<'a, R: Read> CountedReader<'a, R> {
    /// A reader that was not read yet.
    pub fn new(reader: &'a mut R) -> CountedReader<'a, R>
        ensures left { result.left ≡ R.remaining reader.old }
        ensures reads { result.reads ≡ 0 }
        ensures since_failure { result.since_failure ≡ 0 }
    {
        CountedReader {
            source: Source::new(reader),
            since_failure: 0,
        }
    }
}

impl<'a, R: Read> CountedRead for CountedReader<'a, R> {
    ghost remaining = { λ r. r.left };

    ghost reads = { λ r. r.reads };

    ghost since_failure = { λ r. r.since_failure };

    fn read(&mut self, buffer: &mut [u8]) -> Result<usize, ReadError>
        ensures bound { ReadsAtMost result buffer.new }
        ensures bytes { ReadConsumes self.old.left self.new.left result buffer.new }
        ensures reads { self.new.reads ≤ self.old.reads + 1 }
        ensures counted { self.old.reads + 1 < 2 ^ 64 → self.new.reads ≡ self.old.reads + 1 }
        ensures failure { self.old.since_failure ≡ 0 → self.new.since_failure ≡ failures result }
        ensures reports { Reports self.new.last result }
    {
        let result = match self.source.read_once(buffer) {
            Ok(count) => Ok(count),
            Err(error) => Err(read_error(&error)),
        };
        if self.since_failure > 0 || result == Err(ReadError::Failed) {
            self.since_failure = self.since_failure.saturating_add(1);
        }
        result
    }
}

/// Why a read gave nothing: it was interrupted, or else it failed.
fn read_error(error: &Error) -> ReadError
    ensures { IsReason error.now result }
{
    if error.kind() == ErrorKind::Interrupted {
        ReadError::Interrupted
    } else {
        ReadError::Failed
    }
}
