//! What is found, in words.

use crate::advice::advice_for;
use crate::decode_error::DecodeError;
use crate::finding::{Finding, Found};
use crate::findings::Findings;
use crate::no_bytes::NoBytes;
use crate::text::write_description;
use scmi_codec::{AREA_BYTES, LEAST_AREA_BYTES};
use std::io;
use std::io::Write;

/// Writes each finding as it comes.
#[derive(Drop)]
pub(crate) struct Printed<'a, W: Write> {
    writer: &'a mut W,
}

impl<'a, W: Write> Printed<'a, W> {
    pub(crate) fn new(writer: &'a mut W) -> Printed<'a, W> {
        Printed { writer }
    }
}

impl<W: Write> Findings for Printed<'_, W> {
    ghost use Rattle.std.specs.Prelude.{None};

    // What is written is compared in files.
    ghost taken = { λ printed. None };

    fn take(&mut self, finding: &Finding, text: &[u8]) -> Result<(), DecodeError> {
        write_finding(self.writer, finding, text).map_err(|_| DecodeError::Write)
    }
}

/// Writes a finding, after its place.
fn write_finding<W: Write>(writer: &mut W, finding: &Finding, text: &[u8]) -> io::Result<()> {
    write_place(writer, finding.line, finding.start)?;
    match &finding.found {
        Found::Area {
            description,
            swapped,
        } => {
            write_description(writer, description)?;
            write_hint(writer, *swapped)
        }
        Found::OtherSize { count } => write_other_size(writer, *count),
        Found::Cut { count, size } => write!(writer, "no area: {count} bytes of {size}\n"),
        Found::NoBytes { why } => {
            let advice = why_none(*why, text);
            write!(writer, "no area: {advice}\n")
        }
    }
}

/// Why a dump has no bytes, and what to do about it.
fn why_none(why: NoBytes, text: &[u8]) -> &'static str {
    match why {
        NoBytes::Digits => advice_for(text),
        NoBytes::Order => {
            "its digits may be bytes or numbers; print single bytes (xxd -g 1, od -t x1, md.b) or \
            mark numbers with 0x"
        }
        NoBytes::Address => {
            "its first column may be addresses; print single bytes (od -t x1), or no addresses \
            (od -A n -v)"
        }
        NoBytes::Repeats => {
            "it is unclear how often a row before `*` repeats; print each row (od -v, hexdump \
            -vC, xxd without -a)"
        }
        NoBytes::WideRow => {
            "its first item may be an address; print at most 32 bytes a row (od -w16), or no \
            addresses (od -A n -v)"
        }
        NoBytes::Part => {
            "it may be a part of an area; print at most 32 bytes a row (od -w16), put an empty \
            line between areas, or give --size N"
        }
    }
}

/// Writes the number of a line, and the byte of its dump or of the input.
fn write_place<W: Write>(
    writer: &mut W,
    line: Option<usize>,
    start: Option<usize>,
) -> io::Result<()> {
    match (line, start) {
        (Some(line), None) => write!(writer, "{line} "),
        (Some(line), Some(start)) => write!(writer, "{line}+0x{start:x} "),
        (None, start) => write!(writer, "0x{:x} ", start.unwrap_or(0)),
    }
}

/// Writes that an area's words may have been printed in the other byte order.
fn write_hint<W: Write>(writer: &mut W, swapped: Option<u32>) -> io::Result<()> {
    match swapped {
        Some(length) => write!(
            writer,
            "    hint        length {length} in the other byte order: are words printed in that?\n"
        ),
        None => Ok(()),
    }
}

/// Writes that bytes are too few or too many, or no whole words.
fn write_other_size<W: Write>(writer: &mut W, count: usize) -> io::Result<()> {
    if count > AREA_BYTES {
        write!(
            writer,
            "no area: {count} bytes are more than one area has; --size N gives the size of each, \
            --offset N the place of the first, --stride N the distance between them\n"
        )
    } else {
        write!(
            writer,
            "no area: {count} bytes; expected a multiple of 4 from {LEAST_AREA_BYTES} to {AREA_BYTES}\n"
        )
    }
}
