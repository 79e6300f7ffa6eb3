//! Texts from outside, as they are written.
ghost use Rattle.std.specs.Prelude.{◌≡◌, IsTrue, OnOk, false, map};
ghost use Rattle.std.specs.List.{list_all};
ghost use Rattle.std.specs.Io.KnownBytes.{Appends};
ghost use Rattle.scmi_chart.specs.Escape.{escaped_byte, escaped_text, is_plain, read_text, shown_byte};

use std::io;
use std::io::Write;

/// The entity of `<`.
pub(crate) const LESS: &str = "&lt;";
/// The entity of `>`.
pub(crate) const GREATER: &str = "&gt;";
/// The entity of `&`.
pub(crate) const AMPERSAND: &str = "&amp;";
/// The entity of `"`.
pub(crate) const QUOTE: &str = "&quot;";
/// What is shown for a byte that is not printable.
pub(crate) const UNSHOWN: u8 = b'?';

/// Writes a text from outside: printable characters of ASCII as themselves, those that XML gives a
/// meaning by their entities, and `?` for any other byte. The error is the writer's; some bytes may
/// then be written.
#[tactic(auto, using(crate::proofs::EscapeLemmas::plain, crate::proofs::EscapeLemmas::read_escaped))]
pub fn write_escaped<W: Write>(writer: &mut W, bytes: &[u8]) -> io::Result<()>
    ensures text { OnOk result (Appends (W.contents writer.old) (W.contents writer.new)
        (escaped_text bytes.now)) }
    // None of its bytes ends the text that it is in, whether between tags or in quotes.
    ensures plain { IsTrue (list_all is_plain (escaped_text bytes.now)) }
    ensures read { read_text false (escaped_text bytes.now) ≡ map shown_byte bytes.now }
{
    'bytes: for byte in bytes {
        write_byte(writer, *byte)?;
    }
    Ok(())
}

#[tactic(auto, unfolding(crate::specs::Escape::escaped_byte))]
fn write_byte<W: Write>(writer: &mut W, byte: u8) -> io::Result<()>
    ensures { OnOk result (Appends (W.contents writer.old) (W.contents writer.new)
        (escaped_byte byte)) }
{
    match byte {
        b'<' => writer.write_all(LESS.as_bytes()),
        b'>' => writer.write_all(GREATER.as_bytes()),
        b'&' => writer.write_all(AMPERSAND.as_bytes()),
        b'"' => writer.write_all(QUOTE.as_bytes()),
        b' '..=b'~' => writer.write_all(&[byte]),
        _ => writer.write_all(&[UNSHOWN]),
    }
}
