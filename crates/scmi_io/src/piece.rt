//! What fills the holes of texts.
ghost use Rattle.std.specs.Prelude.{ℕ, List, OnOk};
ghost use Rattle.std.specs.Io.KnownBytes.{Appends};

use std::io;
use std::io::Write;

/// What fills a hole. Contracts see its text.
pub trait Piece {
    ghost text: { Self → List ℕ };

    /// Writes the text. The error is the writer's; some bytes may then be written.
    fn write<W: Write>(&self, writer: &mut W) -> io::Result<()>
        ensures { OnOk result (Appends (W.contents writer.old) (W.contents writer.new)
            (text self.now)) };
}
