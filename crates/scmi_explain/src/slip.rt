//! The slips that the bytes of a line show.

use crate::forms::Form;
use crate::near::nearest;
use crate::piece::Piece;
use crate::sentence::{Sentence, Slip};
use crate::text::first_word;
use std::alloc::{AllocError, Global};
use std::str::from_utf8;

/// The first bytes of a file that was saved with a byte order mark.
const BYTE_ORDER_MARK: &[u8] = b"\xef\xbb\xbf";

/// The slip of an input that begins with a byte order mark.
pub(crate) fn slip_of_mark(line: &[u8]) -> Option<Slip> {
    line.starts_with(BYTE_ORDER_MARK).then_some(Sentence::of(
        "it begins with a byte order mark; save it as plain text without one",
    ))
}

/// The slip that the bytes of a line show.
pub(crate) fn slip_of_bytes(line: &[u8]) -> Option<Slip> {
    let mark = slip_of_mark(line);
    if mark.is_some() {
        return mark;
    }
    let text = match line {
        _ if line.contains(&b'\t') => "it has a tab; separate fields with spaces",
        [.., b'\r'] => "the file has Windows line endings (CRLF); convert it with dos2unix",
        [b' ', ..] => "it begins with a space",
        [.., b' '] => "it ends in a space",
        _ if has_remark(line) => "a comment needs a line of its own, which begins with #",
        _ => return None,
    };
    Some(Sentence::of(text))
}

/// The slip of a line that has a byte that is not ASCII.
pub(crate) fn slip_of_other_bytes(line: &[u8]) -> Option<Slip> {
    if line.is_ascii() {
        return None;
    }
    Some(Sentence::of("it has a byte that is not ASCII, shown as \\x and two digits"))
}

/// Whether an item of a line begins with `#`.
fn has_remark(line: &[u8]) -> bool {
    line.windows(2).any(|pair| pair == b" #".as_slice())
}

/// The slip of a line whose first word is not one of these forms.
pub(crate) fn slip_of_word(alloc: Global, forms: &'static [Form], line: &[u8]) -> Option<Slip> {
    let Ok(word) = from_utf8(first_word(line)) else {
        return slip_of_other_bytes(line);
    };
    let Ok(words) = words_of(alloc, forms) else {
        return slip_of_other_bytes(line);
    };
    slip_near(alloc, &words, word).or(slip_of_other_bytes(line))
}

/// The first words of forms.
fn words_of(alloc: Global, forms: &'static [Form]) -> Result<Vec<&'static str>, AllocError> {
    let mut words = Vec::new(alloc);
    for form in forms {
        words.push(form.word())?;
    }
    Ok(words)
}

/// The slip of a text that is nearly one of these words.
pub(crate) fn slip_near(alloc: Global, words: &[&'static str], text: &str) -> Option<Slip> {
    if words.iter().any(|word| word.eq_ignore_ascii_case(text)) {
        return Some(Sentence::of("words are in lower case"));
    }
    let word = nearest(alloc, words, text)?;
    Some(Sentence::filled("is \"%\" meant?", &[Piece::Word(word)]))
}
