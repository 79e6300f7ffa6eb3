//! Sentences of an explanation.

use crate::piece::Piece;
use std::fmt;

/// A text, whose holes `%` the pieces fill in turn.
#[derive(Clone, Copy)]
pub(crate) struct Sentence<'a> {
    pub text: &'static str,
    /// The bytes of the input that `Piece::Quoted` shows.
    quoted: &'a [u8],
    first: Piece,
    second: Piece,
    third: Piece,
    fourth: Piece,
}

/// The slip that probably caused a fault.
pub(crate) type Slip = Sentence<'static>;

impl<'a> Sentence<'a> {
    /// A text without holes.
    pub(crate) fn of(text: &'static str) -> Sentence<'a> {
        Sentence::quoting(text, b"", &[])
    }

    /// A text with no more holes than pieces, of which there are at most four.
    pub(crate) fn filled(text: &'static str, pieces: &[Piece]) -> Sentence<'a> {
        Sentence::quoting(text, b"", pieces)
    }

    /// The same, if one of the pieces is these bytes.
    pub(crate) fn quoting(text: &'static str, quoted: &'a [u8], pieces: &[Piece]) -> Sentence<'a> {
        Sentence {
            text,
            quoted,
            first: piece_at(pieces, 0),
            second: piece_at(pieces, 1),
            third: piece_at(pieces, 2),
            fourth: piece_at(pieces, 3),
        }
    }
}

fn piece_at(pieces: &[Piece], place: usize) -> Piece {
    match pieces.get(place) {
        Some(piece) => *piece,
        None => Piece::Nothing,
    }
}

impl fmt::Display for Sentence<'_> {
    fn fmt<W: fmt::Write>(&self, f: &mut fmt::Formatter<W>) -> fmt::Result {
        let pieces = [
            Piece::Nothing,
            self.first,
            self.second,
            self.third,
            self.fourth,
        ];
        for (part, piece) in self.text.split('%').zip(pieces.iter()) {
            piece.write(f, self.quoted)?;
            f.write_str(part)?;
        }
        Ok(())
    }
}
