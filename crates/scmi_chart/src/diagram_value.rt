//! What fills the holes of a diagram's lines.
ghost use Rattle.std.specs.Prelude.{◌≡◌, OnOk};
ghost use Rattle.std.specs.Io.KnownBytes.{Appends};
ghost use Rattle.scmi_chart.specs.DiagramValue.{label_text, part_text, shown_byte, shown_text, value_text};

use crate::mark::Label;
use scmi_io::Piece;
use std::io;
use std::io::Write;

/// What is shown for a byte that is not printable, or that Mermaid gives a meaning.
pub(crate) const UNREAD: u8 = b'?';

/// What fills a hole.
#[derive(Clone, Copy)]
pub(crate) enum DiagramValue<'a> {
    Number(u32),
    /// A text from outside.
    Outside(&'a [u8]),
    /// The words of a message.
    Words(&'a Label),
}

impl Piece for DiagramValue<'_> {
    ghost text = { value_text };

    fn write<W: Write>(&self, writer: &mut W) -> io::Result<()> {
        match *self {
            DiagramValue::Number(number) => write!(writer, "{number}"),
            DiagramValue::Outside(text) => write_shown(writer, text),
            DiagramValue::Words(label) => write_label(writer, label),
        }
    }
}

/// Writes the words of a message: its name, and each part that it has after a space.
#[tactic(auto, unfolding(crate::specs::DiagramValue::label_text))]
fn write_label<W: Write>(writer: &mut W, label: &Label) -> io::Result<()>
    ensures { OnOk result (Appends (W.contents writer.old) (W.contents writer.new)
        (label_text label.now)) }
{
    write_shown(writer, &label.name)?;
    write_part(writer, &label.object)?;
    write_part(writer, &label.value)?;
    write_part(writer, &label.tag)
}

fn write_part<W: Write>(writer: &mut W, part: &[u8]) -> io::Result<()>
    ensures { OnOk result (Appends (W.contents writer.old) (W.contents writer.new)
        (part_text part.now)) }
{
    if part.is_empty() {
        return Ok(());
    }
    writer.write_all(b" ")?;
    write_shown(writer, part)
}

/// Writes a text from outside: no byte of it ends its line or is read as more than itself.
fn write_shown<W: Write>(writer: &mut W, bytes: &[u8]) -> io::Result<()>
    ensures { OnOk result (Appends (W.contents writer.old) (W.contents writer.new)
        (shown_text bytes.now)) }
{
    'bytes: for byte in bytes {
        writer.write_all(&[shown(*byte)])?;
    }
    Ok(())
}

fn shown(byte: u8) -> u8
    ensures { result ≡ shown_byte byte }
{
    match byte {
        b'#' | b';' => UNREAD,
        b' '..=b'~' => byte,
        _ => UNREAD,
    }
}
