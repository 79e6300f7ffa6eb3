//! What fills the holes of lines, as it is written.
ghost use Rattle.std.specs.Prelude.{OnOk, decimal, [], ◌∷◌};
ghost use Rattle.std.specs.Io.KnownBytes.{Appends};
ghost use Rattle.scmi_io.specs.Filled.{filled};
ghost use Rattle.scmi_text.specs.Value.{value_text};

use crate::words::{write_message_text, write_words};
use scmi_codec::Message;
use scmi_io::{Piece, write_filled};
use std::io;
use std::io::Write;

/// What fills a hole of a line.
#[derive(Clone, Copy)]
pub(crate) enum Value<'a> {
    /// A number in decimal digits.
    Number(u32),
    Count(usize),
    Name(&'static str),
    /// Words, each after a space.
    Words(&'a [u32]),
    /// A header word and payload words, each after a space.
    Message(&'a Message),
}

impl Piece for Value<'_> {
    ghost text = { value_text };

    fn write<W: Write>(&self, writer: &mut W) -> io::Result<()> {
        match *self {
            Value::Number(number) => write_number(writer, number),
            Value::Count(count) => write!(writer, "{count}"),
            Value::Name(name) => writer.write_all(name.as_bytes()),
            Value::Words(words) => write_words(writer, words),
            Value::Message(message) => write_message_text(writer, message),
        }
    }
}

/// Writes a number in decimal digits. A single digit, as that of an agent, needs no formatter.
#[tactic(auto, using(std::proofs::lemmas::Fmt::decimal_digit))]
fn write_number<W: Write>(writer: &mut W, number: u32) -> io::Result<()>
    ensures { OnOk result (Appends (W.contents writer.old) (W.contents writer.new)
        (decimal number)) }
{
    if number < 10 {
        return writer.write_all(&[b'0' + number as u8]);
    }
    write!(writer, "{number}")
}

/// Writes a line of an agent, in which a value follows the agent's number.
pub(crate) fn write_agent_line<W: Write>(
    writer: &mut W,
    text: &str,
    agent: u32,
    value: Value<'_>,
) -> io::Result<()>
    ensures { OnOk result (Appends (W.contents writer.old) (W.contents writer.new)
        (filled text.now (decimal agent ∷ value_text value.entry ∷ []))) }
{
    write_filled(writer, text, &[Value::Number(agent), value])
}
