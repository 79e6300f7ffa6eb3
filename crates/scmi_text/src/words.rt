//! Words and messages, as they are written.
ghost use Rattle.std.specs.Prelude.{◌≡◌, ◌%◌, OnOk, false};
ghost use Rattle.std.specs.Fmt.{digit_glyph};
ghost use Rattle.std.specs.Io.KnownBytes.{Appends};
ghost use Rattle.scmi_text.specs.Words.{word_text, words_text, message_text};

use scmi_codec::Message;
use std::io;
use std::io::Write;

/// What is before the digits of a word.
const WORD_MARK: [u8; 3] = *b" 0x";

/// Each hexadecimal digit: a look-up is faster than a choice of digit or letter.
const DIGITS: [u8; 16] = *b"0123456789abcdef";

/// Writes the header word and the payload words, each after a space (own). The error is the
/// writer's; some words may then be written.
pub fn write_message_text<W: Write>(writer: &mut W, message: &Message) -> io::Result<()>
    ensures { OnOk result
        (Appends (W.contents writer.old) (W.contents writer.new) (message_text message.now)) }
{
    write_word(writer, message.header.pack())?;
    write_words(writer, message.payload.as_slice())
}

/// Writes each word after a space.
pub(crate) fn write_words<W: Write>(writer: &mut W, words: &[u32]) -> io::Result<()>
    ensures { OnOk result (Appends (W.contents writer.old) (W.contents writer.new)
        (words_text words.now)) }
{
    'words: for word in words {
        write_word(writer, *word)?;
    }
    Ok(())
}

/// Writes a word after a space.
fn write_word<W: Write>(writer: &mut W, word: u32) -> io::Result<()>
    ensures { OnOk result (Appends (W.contents writer.old) (W.contents writer.new)
        (word_text word)) }
{
    let [space, zero, letter] = WORD_MARK;
    let text = [
        space,
        zero,
        letter,
        last_digit(word >> 28),
        last_digit(word >> 24),
        last_digit(word >> 20),
        last_digit(word >> 16),
        last_digit(word >> 12),
        last_digit(word >> 8),
        last_digit(word >> 4),
        last_digit(word),
    ];
    writer.write_all(&text)
}

/// The last hexadecimal digit of a word.
fn last_digit(word: u32) -> u8
    ensures { result ≡ digit_glyph false (word % 16) }
{
    DIGITS[(word % 16) as usize]
}
