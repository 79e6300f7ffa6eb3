//! A writer whose last line is kept, so that a fault can be explained.
ghost use Rattle.std.specs.Prelude.{◌≡◌};

use arrayvec::ArrayVec;
use std::io::{Error, Result, Write};
use std::marker::Model;

/// The most bytes of a line that are kept: more than the line of any fault has.
const LINE_BYTES: usize = 32;

/// A writer of which the last line is kept, as far as a fault may be long, and the last error. A
/// contract sees what the writer holds.
#[derive(Drop)]
pub struct LastLine<W: Write + Drop> {
    writer: W,
    last: Line,
    error: Option<Error>,
}

/// The first bytes of a line, and whether its line feed follows them.
#[derive(Drop)]
struct Line {
    bytes: ArrayVec<u8, LINE_BYTES>,
    has_ended: bool,
}

impl<W: Write + Drop> Model for LastLine<W> {
    ghost use Rattle.std.specs.Prelude.{ℕ, List, Option};

    ghost Value = { Option (List ℕ) };

    ghost view = { λ last. W.contents last.writer };
}

impl<W: Write + Drop> LastLine<W> {
    /// A writer of which nothing is kept yet.
    pub fn new(writer: W) -> LastLine<W>
        ensures { result ≡ W.contents writer }
    {
        LastLine {
            writer,
            last: Line {
                bytes: ArrayVec::new(),
                has_ended: false,
            },
            error: None,
        }
    }

    /// The first bytes of the last line that was written, without its line feed.
    pub fn line(&self) -> &[u8] {
        self.last.bytes.as_slice()
    }

    /// The last error of the writer.
    pub fn error(&self) -> Option<Error> {
        self.error
    }
}

impl Line {
    /// Makes it the last line of what is in it, followed by these bytes.
    fn keep(&mut self, bytes: &[u8]) {
        for byte in bytes {
            if self.has_ended {
                self.bytes.clear();
            }
            self.has_ended = *byte == b'\n';
            if !self.has_ended && !self.bytes.is_full() {
                self.bytes.push(*byte);
            }
        }
    }
}

impl<W: Write + Drop> Write for LastLine<W> {
    ghost contents = { λ last. last };

    fn write(&mut self, bytes: &[u8]) -> Result<usize> {
        let result = self.writer.write(bytes);
        match result {
            Ok(count) => self.last.keep(&bytes[..count]),
            Err(error) => self.error = Some(error),
        }
        result
    }

    fn flush(&mut self) -> Result<()> {
        let result = self.writer.flush();
        if let Err(error) = result {
            self.error = Some(error);
        }
        result
    }
}
