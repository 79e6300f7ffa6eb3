//! When an event of Linux's ftrace was.

use crate::trace_line::{is_gap, is_stamp};
use std::io;
use std::io::Write;

/// The most bytes of a time; one of more is not kept.
const TIME_BYTES: usize = 32;

/// How far from the begin of a line its time is looked for, in bytes.
const TIME_WITHIN: usize = 256;

/// The time of an event as its line has it, in seconds with their fraction.
#[derive(Clone, Copy)]
pub(crate) struct TraceTime {
    digits: [u8; TIME_BYTES],
    length: usize,
}

impl TraceTime {
    /// Writes it as the line has it: digits and a point.
    pub fn write<W: Write>(&self, writer: &mut W) -> io::Result<()> {
        writer.write_all(&self.digits[..self.length.min(TIME_BYTES)])
    }

    /// The time of an item, such as `12.000100:`.
    fn of(item: &[u8]) -> Option<TraceTime> {
        let time = item.strip_suffix(b":")?;
        let mut digits = [0; TIME_BYTES];
        let length = time.len();
        if length > TIME_BYTES {
            return None;
        }
        digits[..length].copy_from_slice(time);
        Some(TraceTime { digits, length })
    }
}

/// The time in a line, if it is one of a trace.
pub(crate) fn time_in(text: &[u8]) -> Option<TraceTime> {
    let begin = &text[..text.len().min(TIME_WITHIN)];
    'items: for item in begin.split(|byte| is_gap(*byte)) {
        if is_stamp(item) {
            return TraceTime::of(item);
        }
    }
    None
}

/// Writes a time behind a line of a report, if it is known.
pub(crate) fn write_time<W: Write>(writer: &mut W, time: Option<TraceTime>) -> io::Result<()> {
    match time {
        Some(time) => {
            write!(writer, " at ")?;
            time.write(writer)
        }
        None => Ok(()),
    }
}
