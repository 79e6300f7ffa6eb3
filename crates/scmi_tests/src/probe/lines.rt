//! The lines that are written.

use scmi_codec::Message;
use std::io::Write;

/// Where lines go, and whether a write has failed.
#[derive(Drop)]
pub struct Lines<'a, W: Write> {
    writer: &'a mut W,
    failed: bool,
}

impl<'a, W: Write> Lines<'a, W> {
    pub fn new(writer: &'a mut W) -> Lines<'a, W> {
        Lines {
            writer,
            failed: false,
        }
    }

    /// Whether a write has failed.
    pub fn has_failed(&self) -> bool {
        self.failed
    }

    /// A line: a call, and what it answered.
    pub fn answer(&mut self, call: &str, answer: &str) {
        let written = writeln!(self.writer, "{call} {answer}");
        self.failed |= written.is_err();
    }

    /// A line: a name, and a number.
    pub fn number(&mut self, name: &str, number: usize) {
        let written = writeln!(self.writer, "{name} {number}");
        self.failed |= written.is_err();
    }

    /// A line: a name, and the header and payload words of a message.
    pub fn message(&mut self, name: &str, message: &Message) {
        let header = message.header.pack();
        let written = write!(self.writer, "{name} 0x{header:08x}");
        self.failed |= written.is_err();
        'words: for word in message.payload.as_slice() {
            let written = write!(self.writer, " 0x{word:08x}");
            self.failed |= written.is_err();
        }
        let written = writeln!(self.writer);
        self.failed |= written.is_err();
    }
}
