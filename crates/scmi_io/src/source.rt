//! The one place that reads.
ghost use Rattle.std.specs.Prelude.{◌≡◌, ◌+◌, ◌<◌, ◌≤◌, ◌^◌};
ghost use Rattle.std.specs.Io.{ReadsAtMost};
ghost use Rattle.std.specs.Io.KnownBytes.{ReadConsumes};

use std::io::{Read, Result};
use std::marker::Model;

/// A reader, how often it was read, and what it gave last. No other file can reach the reader, so it
/// is read by `read_once` alone. The count stops at `u64::MAX`.
#[derive(Drop)]
pub(crate) struct Source<'a, R: Read> {
    reader: &'a mut R,
    reads: u64,
    last: Result<usize>,
}

impl<'a, R: Read> Model for Source<'a, R> {
    ghost use Rattle.scmi_io.specs.Reads.{SourceView};

    ghost Value = { SourceView };

    ghost view = { λ s. record {
      left = R.remaining s.reader.now;
      reads = s.reads;
      last = s.last;
    } };
}

impl<'a, R: Read> Source<'a, R> {
    /// A reader that was not read yet.
    pub(crate) fn new(reader: &'a mut R) -> Source<'a, R>
        ensures left { result.left ≡ R.remaining reader.old }
        ensures reads { result.reads ≡ 0 }
    {
        Source {
            reader,
            reads: 0,
            last: Ok(0),
        }
    }

    /// Reads once. No contract of a `Read` states how often it was read, so that this body calls
    /// `self.reader` once, and hands on what that gave, is to be read here.
    pub(crate) fn read_once(&mut self, buffer: &mut [u8]) -> Result<usize>
        ensures bound { ReadsAtMost result buffer.new }
        ensures bytes { ReadConsumes self.old.left self.new.left result buffer.new }
        ensures reads { self.new.reads ≤ self.old.reads + 1 }
        ensures counted { self.old.reads + 1 < 2 ^ 64 → self.new.reads ≡ self.old.reads + 1 }
        ensures last { self.new.last ≡ result }
    {
        self.reads = self.reads.saturating_add(1);
        self.last = self.reader.read(buffer);
        self.last
    }
}
