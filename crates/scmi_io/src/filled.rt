//! Texts with holes, as they are written.
ghost use Rattle.std.specs.Prelude.{◌≡◌, OnOk, map};
ghost use Rattle.std.specs.Io.KnownBytes.{Appends};
ghost use Rattle.std.specs.List.{after_first, before_first};
ghost use Rattle.scmi_io.specs.Filled.{filled, is_hole};

use crate::piece::Piece;
use std::io;
use std::io::Write;

/// A hole of a text.
pub const HOLE: u8 = b'%';

/// Writes a text whose holes these pieces fill in turn. A piece without a hole follows the text, and
/// a hole without a piece is written as it is. The error is the writer's; some bytes may then be
/// written.
#[tactic(auto, unfolding(crate::specs::Filled::filled))]
pub fn write_filled<W: Write, P: Piece>(writer: &mut W, text: &str, pieces: &[P]) -> io::Result<()>
    ensures { OnOk result (Appends (W.contents writer.old) (W.contents writer.new)
        (filled text.now (map P.text pieces.now))) }
{
    let mut rest = text.as_bytes();
    'pieces: for piece in pieces {
        let (start, after) = split_at_hole(rest);
        writer.write_all(start)?;
        piece.write(writer)?;
        rest = after;
    }
    writer.write_all(rest)
}

/// What is before the first hole of a text, and what is after it: all and nothing if it has none.
#[inline]
fn split_at_hole(text: &[u8]) -> (&[u8], &[u8])
    ensures start { result.0.now ≡ before_first is_hole text.now }
    ensures rest { result.1.now ≡ after_first is_hole text.now }
{
    match text.iter().position(|byte| *byte == HOLE) {
        Some(hole) => (&text[..hole], &text[hole + 1..]),
        None => (text, &[]),
    }
}
