//! Bytes that are read ahead.
ghost use Rattle.std.specs.Prelude.{◌≡◌, ◌==◌, ◌+◌, ◌<◌, ◌≤◌, [], ◌∷◌, ◌++◌, length, take, IfNone, IfOk, IfSome, OnOk, OnErr};
ghost use Rattle.std.specs.Io.KnownBytes.{Consumes, IsAtEnd, Keeps};
ghost use Rattle.std.specs.List.{position_or_len};
ghost use Rattle.scmi_io.specs.Lines.{first_line, after_line, has_line_feed, is_line_feed};
ghost use Rattle.scmi_io.specs.Reads.{failures};

use crate::counted_read::CountedRead;
use crate::read_error::ReadError;
use memchr::memchr;
use std::alloc::AllocError;
use std::marker::Model;

/// The most bytes that are read ahead.
pub const AHEAD_BYTES: usize = 4096;

/// Bytes that were read and not taken yet, at most `AHEAD_BYTES`. A contract sees them.
#[derive(Drop)]
pub struct Ahead {
    bytes: [u8; AHEAD_BYTES],
    start: usize,
    end: usize,
}

impl Model for Ahead {
    ghost use Rattle.std.specs.Prelude.{ℕ, ◌≤◌, List, take, drop};
    ghost use Rattle.scmi_io.specs.declared.ahead.TheConstants.{AHEAD_BYTES};

    ghost Value = { List ℕ };

    ghost view = { λ a. drop a.start (take a.end a.bytes) };

    ghost invariant = { λ a. (a.start ≤ a.end) × (a.end ≤ AHEAD_BYTES) };
}

impl Ahead {
    /// No bytes.
    pub fn new() -> Ahead
        ensures { result ≡ [] }
    {
        Ahead {
            bytes: [0; AHEAD_BYTES],
            start: 0,
            end: 0,
        }
    }

    /// Whether there are none.
    pub fn is_empty(&self) -> bool
        ensures { result ≡ (length self.now == 0) }
    {
        self.start == self.end
    }

    /// The bytes, in order.
    fn left(&self) -> &[u8]
        ensures { result.now ≡ self.now }
    {
        &self.bytes[self.start..self.end]
    }

    /// Takes the first byte, if there is one.
    pub fn take_byte(&mut self) -> Option<u8>
        ensures none { IfNone result ((self.old ≡ []) × (self.new ≡ [])) }
        ensures some { IfSome result (λ byte. self.old ≡ byte ∷ self.new) }
    {
        if self.start == self.end {
            return None;
        }
        let byte = self.bytes[self.start];
        self.start += 1;
        Some(byte)
    }

    /// Moves the bytes before the first line feed behind those of `line`, and drops the line feed: whether
    /// there was one. When out of memory nothing changed.
    pub fn take_line(&mut self, line: &mut Vec<u8>) -> Result<bool, AllocError>
        ensures line { OnOk result (line.new.items ≡ line.old.items ++ first_line self.old) }
        ensures rest { OnOk result (self.new ≡ after_line self.old) }
        ensures ended { IfOk result (λ ended. ended ≡ has_line_feed self.old) }
        ensures err { OnErr result (self.new ≡ self.old) }
    {
        let bytes = self.left();
        match line_end(bytes) {
            Some(place) => {
                line.extend_from_slice(&bytes[..place])?;
                self.start += place + 1;
                Ok(true)
            }
            None => {
                line.extend_from_slice(bytes)?;
                self.start = self.end;
                Ok(false)
            }
        }
    }

    /// Moves as many bytes as both have from the front into `buffer`.
    pub fn take_into(&mut self, buffer: &mut [u8]) -> usize
        ensures bound { result ≤ length buffer.new }
        ensures bytes { self.old ≡ take result buffer.new ++ self.new }
        ensures some { result ≡ 0 → 0 < length buffer.new → self.old ≡ [] }
    {
        let count = (self.end - self.start).min(buffer.len());
        buffer[..count].copy_from_slice(&self.bytes[self.start..self.start + count]);
        self.start += count;
        count
    }

    /// Reads ahead, at most once. Nothing may be left from before.
    pub fn fill<R: CountedRead>(&mut self, reader: &mut R) -> Result<(), ReadError>
        requires { self.old ≡ [] }
        ensures ok { OnOk result
            (Consumes (R.remaining reader.old) (R.remaining reader.new) self.new) }
        ensures end { OnOk result (self.new ≡ [] → IsAtEnd (R.remaining reader.new)) }
        ensures kept { OnErr result (Keeps (R.remaining reader.old) (R.remaining reader.new)) }
        ensures none { OnErr result (self.new ≡ []) }
        ensures reads { R.reads reader.new ≤ R.reads reader.old + 1 }
        ensures failure { R.since_failure reader.old ≡ 0 →
            R.since_failure reader.new ≡ failures result }
    {
        self.start = 0;
        self.end = 0;
        self.end = reader.read(&mut self.bytes)?;
        Ok(())
    }
}

/// The place of the first line feed, if there is one.
fn line_end(bytes: &[u8]) -> Option<usize>
    ensures none { IfNone result (position_or_len is_line_feed bytes.now ≡ length bytes.now) }
    ensures some { IfSome result (λ place. place ≡ position_or_len is_line_feed bytes.now) }
    ensures inside { IfSome result (λ place. place < length bytes.now) }
{
    memchr(b'\n', bytes)
}
