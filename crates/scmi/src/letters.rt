//! Words that are written in colour.

use arrayvec::ArrayVec;
use scmi_codec::{STATUSES, Status};
use std::io::{Result, Write};

/// The words for what is wrong, besides the names of statuses other than SUCCESS.
const WORDS: [&[u8]; 2] = [b"fault", b"differs"];

/// What a terminal is sent before such a word, and after it.
const RED: &[u8] = b"\x1b[31m";

const PLAIN: &[u8] = b"\x1b[0m";

/// The most letters that are kept: as many as the longest of the words has, INVALID_PARAMETERS. A
/// test sees that each status is coloured (`tests/sessions/live/colors`).
const LETTERS: usize = 18;

/// The letters since the last byte that is none.
pub(crate) type Letters = ArrayVec<u8, LETTERS>;

/// Writes bytes, with the words for what is wrong in colour. The letters are those of a word that has
/// not ended.
pub(crate) fn write_colored<W: Write>(
    writer: &mut W,
    letters: &mut Letters,
    bytes: &[u8],
) -> Result<()> {
    for byte in bytes {
        write_byte(writer, letters, *byte)?;
    }
    Ok(())
}

/// Keeps a letter that a word may go on with, or writes what is kept, and the byte.
fn write_byte<W: Write>(writer: &mut W, letters: &mut Letters, byte: u8) -> Result<()> {
    let is_letter = byte.is_ascii_alphabetic() || byte == b'_';
    if is_letter && letters.try_push(byte).is_ok() {
        return Ok(());
    }
    pass_word(writer, letters)?;
    writer.write_all(&[byte])
}

/// Writes the letters, in colour if they are one of the words, and empties them.
pub(crate) fn pass_word<W: Write>(writer: &mut W, letters: &mut Letters) -> Result<()> {
    if is_wrong(letters.as_slice()) {
        writer.write_all(RED)?;
        writer.write_all(letters.as_slice())?;
        writer.write_all(PLAIN)?;
    } else {
        writer.write_all(letters.as_slice())?;
    }
    letters.clear();
    Ok(())
}

/// Whether a word is one for what is wrong.
fn is_wrong(word: &[u8]) -> bool {
    for row in &STATUSES {
        if row.status != Status::Success && row.name.as_bytes() == word {
            return true;
        }
    }
    WORDS.contains(&word)
}
