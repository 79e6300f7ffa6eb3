//! How dumps are read.
ghost use Rattle.std.specs.Prelude.{◌≡◌, map};
ghost use Rattle.scmi_decode.specs.Reading.{alone_reading, is_wide, reading_text, rows_reading};

use crate::dump::has_mark;
use crate::form::Form;
use crate::lines::first_full;
use crate::message_line::{behind_event, behind_got};
use crate::parts::parts_of;
use crate::scan::first_item;

/// How a dump is read, or a line that reports a message.
#[derive(Clone, Copy, PartialEq, Eq)]
pub enum Reading {
    /// Bytes in their order, without addresses.
    Bytes,
    /// Numbers, without addresses.
    Words,
    /// Bytes in their order, after an address and a colon.
    MarkedBytes,
    /// Numbers after an address and a colon, or one after an address.
    MarkedWords,
    /// Bytes in their order, after an address alone.
    OffsetBytes,
    /// Numbers after an address alone.
    OffsetWords,
    /// The message of an event of Linux's ftrace.
    Event,
    /// The message of a line of a run.
    Run,
}

/// A way to read a dump, and what it is called. It is generic because a constant has a name in
/// definitions only if its struct holds no reference of its own.
#[derive(Clone, Copy)]
pub struct ReadingRow<T> {
    pub reading: Reading,
    pub text: T,
}

macro_rules! rows {
    ($($reading:ident $text:literal;)*) => {
        [$(ReadingRow {
            reading: Reading::$reading,
            text: $text,
        }),*]
    };
}

/// The names of all ways to read a dump, in the order of the enum.
pub const READINGS: [ReadingRow<&'static str>; 8] = rows![
    Bytes "bytes (xxd -p, xxd -i)";
    Words "little-endian numbers (od -An -t x4)";
    MarkedBytes "bytes with addresses (xxd, md.b)";
    MarkedWords "little-endian numbers with addresses (xxd -e, md.l, gdb, devmem)";
    OffsetBytes "bytes with addresses (hexdump -C, od -t x1)";
    OffsetWords "little-endian numbers with addresses (od -t x4)";
    Event "a message in ftrace";
    Run "a message of a run";
];

impl Reading {
    /// What it is called.
    pub fn text(&self) -> &'static str
        ensures { result.now ≡ reading_text self.now }
    {
        READINGS[*self as usize].text
    }
}

/// Whether the data of a row are numbers of several bytes, with their mark.
pub(crate) fn has_wide_marks(line: &[u8]) -> bool {
    let item = first_item(parts_of(line).bytes);
    has_mark(item) && is_wide(item)
}

/// How rows of a form are read, whose items are wide or not.
pub(crate) fn rows_reading(form: Form, wide: bool) -> Reading
    ensures { result ≡ rows_reading form wide }
{
    match (form, wide) {
        (Form::Plain, false) => Reading::Bytes,
        (Form::Plain, true) => Reading::Words,
        (Form::Marked | Form::Equals, false) => Reading::MarkedBytes,
        (Form::Marked | Form::Equals, true) => Reading::MarkedWords,
        (Form::Value, _) => Reading::MarkedWords,
        (Form::Offset, false) => Reading::OffsetBytes,
        (Form::Offset, true) => Reading::OffsetWords,
    }
}

/// How the items of a line that is an area alone are read.
pub(crate) fn alone_reading(items: &[&[u8]]) -> Reading
    ensures { result ≡ alone_reading (map (λ item. item.now) items.now) }
{
    if behind_event(items).is_some() {
        return Reading::Event;
    }
    if behind_got(items).is_some() {
        return Reading::Run;
    }
    rows_reading(Form::Plain, is_wide(first_full(items)))
}

/// Whether an item is a number of several bytes.
fn is_wide(item: &[u8]) -> bool
    ensures { result ≡ is_wide item.now }
{
    if has_mark(item) {
        item.len() > 4
    } else {
        item.len() == 8 || item.len() == 16
    }
}
