//! What fills the holes of sentences.

use crate::forms::Form;
use crate::mode::{Expected, write_wanted};
use crate::words::{HardwareStatuses, write_either, write_first_words};
use std::fmt;
use std::fmt::Write;

/// The most bytes that are shown.
const SHOWN_BYTES: usize = 60;

/// What fills a hole of a sentence.
#[derive(Clone, Copy)]
pub(crate) enum Piece {
    Nothing,
    Number(u64),
    Word(&'static str),
    /// The bytes of the input that the sentence quotes.
    Quoted,
    /// How many of a kind the board has, which are numbered from 0.
    Numbered(&'static str, u32),
    /// One of the words that a form has in place of an item.
    Either(&'static str),
    /// One of the words that lines of these forms begin with.
    FirstWord(&'static [Form]),
    /// One of the statuses by which hardware refuses a change.
    Status,
    /// What the program was to be given.
    Wanted(Expected),
}

impl Piece {
    /// Writes it, in a sentence that quotes these bytes.
    pub(crate) fn write<W: fmt::Write>(
        &self,
        f: &mut fmt::Formatter<W>,
        quoted: &[u8],
    ) -> fmt::Result {
        match self {
            Piece::Nothing => Ok(()),
            Piece::Number(number) => write!(f, "{number}"),
            Piece::Word(word) => f.write_str(word),
            Piece::Quoted => write_quoted(f, quoted),
            Piece::Numbered(kind, 0) => write!(f, "no {kind}"),
            Piece::Numbered(kind, 1) => write!(f, "1 {kind}, numbered 0"),
            Piece::Numbered(kind, count) => write!(f, "{count} {kind}s, numbered from 0"),
            Piece::Either(words) => write_either(f, *words),
            Piece::FirstWord(forms) => write_first_words(f, *forms),
            Piece::Status => write!(f, "{HardwareStatuses}"),
            Piece::Wanted(expected) => write_wanted(f, *expected),
        }
    }
}

/// Writes bytes in quotes: those that are not printed are `\t`, `\r` or `\x` and two digits, and of
/// many the first ones alone are shown.
pub(crate) fn write_quoted<W: fmt::Write>(f: &mut fmt::Formatter<W>, bytes: &[u8]) -> fmt::Result {
    let shown = &bytes[..bytes.len().min(SHOWN_BYTES)];
    f.write_str("\"")?;
    for byte in shown {
        match *byte {
            b'\t' => f.write_str("\\t")?,
            b'\r' => f.write_str("\\r")?,
            b' '..=b'~' => f.write_char(char::from(*byte))?,
            other => write!(f, "\\x{other:02x}")?,
        }
    }
    f.write_str(if shown.len() < bytes.len() {
        "..\""
    } else {
        "\""
    })
}
