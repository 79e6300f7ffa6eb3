//! A writer that colours words.
ghost use Rattle.std.specs.Prelude.{◌≡◌, None, if◌then◌else◌};

use crate::letters::{Letters, pass_word, write_colored};
use std::io::{Result, Write};
use std::marker::Model;

/// A writer that colours the words for what is wrong, if it is to. A contract sees what the writer
/// below holds, and nothing of one that colours.
#[derive(Drop)]
pub struct Painted<W: Write + Drop> {
    writer: W,
    is_colored: bool,
    letters: Letters,
}

impl<W: Write + Drop> Model for Painted<W> {
    ghost use Rattle.std.specs.Prelude.{ℕ, List, Option, None, if◌then◌else◌};

    ghost Value = { Option (List ℕ) };

    ghost view = { λ p. if p.is_colored then None else W.contents p.writer };
}

impl<W: Write + Drop> Painted<W> {
    /// A writer that colours words, or one that passes on all bytes as they are.
    pub fn new(writer: W, is_colored: bool) -> Painted<W>
        ensures { result ≡ (if is_colored then None else W.contents writer) }
    {
        Painted {
            writer,
            is_colored,
            letters: Letters::new(),
        }
    }
}

impl<W: Write + Drop> Write for Painted<W> {
    ghost contents = { λ painted. painted };

    fn write(&mut self, bytes: &[u8]) -> Result<usize> {
        if !self.is_colored {
            return self.writer.write(bytes);
        }
        write_colored(&mut self.writer, &mut self.letters, bytes)?;
        Ok(bytes.len())
    }

    fn flush(&mut self) -> Result<()> {
        if self.is_colored {
            pass_word(&mut self.writer, &mut self.letters)?;
        }
        self.writer.flush()
    }
}
