//! Values in texts.
ghost use Rattle.std.specs.Prelude.{◌≡◌, IfOk, OnOk, map};
ghost use Rattle.std.specs.Io.KnownBytes.{Appends};
ghost use Rattle.scmi_io.specs.Filled.{filled};
ghost use Rattle.scmi_chart.specs.Value.{value_text};
ghost use Rattle.scmi_chart.specs.Words.{hex_text};

use crate::escape::write_escaped;
use crate::rate::write_rate;
use crate::words::HEX;
use scmi_io::{Piece, write_filled};
use std::alloc::{AllocError, Global};
use std::io;
use std::io::Write;

/// What fills a hole of a text.
#[derive(Clone, Copy)]
pub(crate) enum Value<'a> {
    /// A number in decimal digits.
    Number(u32),
    /// The same of how many there are.
    Count(usize),
    /// A number, hexadecimal.
    Hex(u32),
    /// A rate in Hz.
    Rate(u64),
    Words(&'a [u8]),
    /// A text from outside, in a picture.
    Outside(&'a [u8]),
}

impl<'a> Piece for Value<'a> {
    ghost text = { value_text };

    fn write<W: Write>(&self, writer: &mut W) -> io::Result<()> {
        match *self {
            Value::Number(number) => write!(writer, "{number}"),
            Value::Count(count) => write!(writer, "{count}"),
            Value::Hex(number) => write_hex(writer, number),
            Value::Rate(hertz) => write_rate(writer, hertz),
            Value::Words(words) => writer.write_all(words),
            Value::Outside(text) => write_escaped(writer, text),
        }
    }
}

/// Writes a number, hexadecimal.
#[tactic(auto, unfolding(crate::specs::Words::hex_text))]
fn write_hex<W: Write>(writer: &mut W, number: u32) -> io::Result<()>
    ensures { OnOk result (Appends (W.contents writer.old) (W.contents writer.new)
        (hex_text number)) }
{
    write!(writer, "{HEX}{number:x}")
}

/// A text whose holes these values fill in turn.
pub(crate) fn filled_words(
    alloc: Global,
    text: &str,
    values: &[Value],
) -> Result<Vec<u8>, AllocError>
    ensures { IfOk result (λ words. words.items ≡ filled text.now (map value_text values.now)) }
{
    let mut words = Vec::new(alloc);
    match write_filled(&mut words, text, values) {
        Ok(()) => Ok(words),
        Err(_) => Err(AllocError),
    }
}
