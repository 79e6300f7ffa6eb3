//! Words of a chart, as bytes.
ghost use Rattle.std.specs.Prelude.{◌≡◌, ◌++◌, IfOk, OnOk};
ghost use Rattle.scmi_chart.specs.Words.{hex_text, spaced_text, words_text};

use crate::value::{Value, filled_words};
use std::alloc::{AllocError, Global};

/// What is before the digits of a hexadecimal number.
pub(crate) const HEX: &str = "0x";
/// What is between words of a payload.
const SPACE: u8 = b' ';

/// A power state.
pub(crate) fn state_words(alloc: Global, state: u32) -> Result<Vec<u8>, AllocError> {
    match state {
        0 => Vec::from_slice(alloc, b"ON"),
        0x4000_0000 => Vec::from_slice(alloc, b"OFF"),
        _ => hex_words(alloc, state),
    }
}

/// A number, hexadecimal.
#[tactic(auto, unfolding(crate::specs::Words::hex_text))]
pub(crate) fn hex_words(alloc: Global, word: u32) -> Result<Vec<u8>, AllocError>
    ensures { IfOk result (λ text. text.items ≡ hex_text word) }
{
    Ok(format!(in alloc; "{HEX}{word:x}")?.into_bytes())
}

/// A text with a number in its hole, which is hexadecimal from 65,536 on.
pub(crate) fn numbered_words(
    alloc: Global,
    text: &str,
    number: u32,
) -> Result<Vec<u8>, AllocError> {
    if number <= 0xffff {
        return filled_words(alloc, text, &[Value::Number(number)]);
    }
    filled_words(alloc, text, &[Value::Hex(number)])
}

/// A text with these words in its holes.
pub(crate) fn two_words(
    alloc: Global,
    text: &str,
    first: Result<Vec<u8>, AllocError>,
    second: Result<Vec<u8>, AllocError>,
) -> Result<Vec<u8>, AllocError> {
    let (first, second) = (first?, second?);
    filled_words(alloc, text, &[Value::Words(&first), Value::Words(&second)])
}

/// A rate, as columns have it.
pub(crate) fn rate_words(alloc: Global, hertz: u64) -> Result<Vec<u8>, AllocError> {
    filled_words(alloc, "%", &[Value::Rate(hertz)])
}

/// The most payload words that are shown beside an arrow.
const SHOWN_WORDS: usize = 4;

/// The first payload words, hexadecimal, and how many follow them.
pub(crate) fn payload_words(alloc: Global, words: &[u32]) -> Result<Vec<u8>, AllocError> {
    let shown = &words[..words.len().min(SHOWN_WORDS)];
    let text = all_words(alloc, shown)?;
    if words.len() <= SHOWN_WORDS {
        return Ok(text);
    }
    let hidden = Value::Count(words.len() - SHOWN_WORDS);
    filled_words(alloc, "% and % more", &[Value::Words(&text), hidden])
}

/// Words, hexadecimal.
pub(crate) fn all_words(alloc: Global, words: &[u32]) -> Result<Vec<u8>, AllocError>
    ensures { IfOk result (λ text. text.items ≡ words_text words.now) }
{
    let [first, rest @ ..] = words else {
        return Ok(Vec::new(alloc));
    };
    let mut text = hex_words(alloc, *first)?;
    add_words(alloc, &mut text, rest)?;
    Ok(text)
}

/// Adds words, hexadecimal, with a space before each.
fn add_words(alloc: Global, text: &mut Vec<u8>, words: &[u32]) -> Result<(), AllocError>
    ensures { OnOk result (text.new.items ≡ text.old.items ++ spaced_text words.now) }
{
    'words: for word in words {
        text.push(SPACE)?;
        text.extend_from_slice(&hex_words(alloc, *word)?)?;
    }
    Ok(())
}

/// The letters of a name in payload words, the first one lowest, zeros after it.
pub(crate) fn name_words(alloc: Global, words: &[u32; 4]) -> Result<Vec<u8>, AllocError> {
    let mut text = Vec::new(alloc);
    'words: for word in words.as_slice() {
        add_letters(&mut text, *word)?;
    }
    Ok(text)
}

/// Adds the letters of a word, the lowest first, and nothing of a zero.
fn add_letters(text: &mut Vec<u8>, word: u32) -> Result<(), AllocError> {
    let letters = word.to_le_bytes();
    'letters: for byte in letters.as_slice() {
        if *byte != 0 {
            text.push(*byte)?;
        }
    }
    Ok(())
}

/// Whether bit 0 is set, in words.
pub(crate) fn switch_word(bits: u32) -> &'static str {
    if bits % 2 == 1 { "on" } else { "off" }
}
